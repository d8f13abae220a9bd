//! What holds of all values, of certificates, of CRLs, of CSRs and of signed bytes. Each law is a function whose
//! contract is the law. The laws of the layers below stand in a module for each layer: [`der`], [`prim`], [`base`]
//! (times, serial numbers, algorithms and keys), [`name`], [`ext`], [`sct`] and [`anchor`]. The forms by
//! which the types are decoded and encoded stand in [`forms`]; `docs/MAP.md` has the words of our own, such as form,
//! spelling and good.

ghost use Rattle.std.specs.List.{All};
ghost use Rattle.std.specs.Prelude.{◌≡◌, List, ℕ, None, ◌<◌, ◌≤◌, ◌↔◌, [], ◌∷◌, length, true};
ghost use Rattle.x509_cert.specs.AnySerial.{any_certificate_list, any_revoked_cert, any_tbs_cert_list};
ghost use Rattle.x509_cert.specs.CertReq.{cert_req, cert_req_info};
ghost use Rattle.x509_cert.specs.CertificateList.{certificate_list, tbs_cert_list};
ghost use Rattle.x509_cert.specs.ChallengePassword.{challenge_password};
ghost use Rattle.x509_cert.specs.Identifiers.{pkcs_9};
ghost use Rattle.x509_cert.specs.Made.{MadeList};
ghost use Rattle.x509_cert.specs.RevokedCert.{revoked_cert};
ghost use Rattle.x509_cert.specs.declared.crl.certificate_list.CertificateList.{CertificateList};
ghost use Rattle.x509_cert.specs.declared.crl.revoked_cert.RevokedCert.{RevokedCert};
ghost use Rattle.x509_cert.specs.declared.crl.tbs_cert_list.TbsCertList.{TbsCertList};
ghost use Rattle.x509_cert.specs.declared.request.attributes.ChallengePassword.{ChallengePassword};
ghost use Rattle.x509_cert.specs.declared.request.cert_req.CertReq.{CertReq};
ghost use Rattle.x509_cert.specs.declared.request.cert_req.CertReqInfo.{CertReqInfo};
ghost use Rattle.x509_cert.specs.declared.request.extension_req.ExtensionReq.{ExtensionReq};
ghost use Rattle.x509_cert.specs.declared.request.version.Version as request_version;
ghost use Rattle.x509_cert.specs.Signed.{IsSignedPart};
ghost use Rattle.x509_der.specs.Arcs.{content_of};
ghost use Rattle.x509_der.specs.Element.{limit};
ghost use Rattle.x509_der.specs.Form.{Spells, spelling};
ghost use Rattle.x509_der.specs.Writing.{writes, written_spelling};
ghost use Rattle.x509_name.specs.DirectoryString.{directory_string};

pub use crate::certificate::laws::{
    certificates_written_alike_are_respelled_alike, dates_are_written_once,
    equality_of_certificates_is_exact, raw_certificates_are_read_as_meant, raw_certificates_stay,
    raw_dates_are_written_once, raw_signed_bytes_are_written_again,
    rfc5280_certificates_are_read_as_meant, rfc5280_dates_are_written_once,
    rfc5280_signed_bytes_are_written_again, signed_bytes_spell_the_signed_part,
};
use crate::crl::{CertificateList, RevokedCert, TbsCertList};
use crate::request::attributes::ChallengePassword;
use crate::request::{CertReq, CertReqInfo, ExtensionReq, Version};
pub use crate::signed::laws::{
    one_signed_part, signed_bytes_are_written_again, what_stands_in_front_is_signed,
};
pub use x509_base::laws as base;
use x509_base::{Profile, Raw, Rfc5280};
pub use x509_der::laws as der;
pub use x509_der::laws::{
    no_spelling_begins_another, one_spelling, one_value, plain_writing_is_stable,
    what_is_written_alike_is_respelled_alike, what_is_written_of_a_value_is_read_as_meant,
    what_was_written_reads_as_respelled, writing_again_gives_the_same,
};
use x509_der::{Encode, Grammar, Spelled};
pub use x509_ext::laws as ext;
pub use x509_name::laws as name;
pub use x509_prim::laws as prim;
pub use x509_sct::laws as sct;

pub mod forms;

/// Under every profile CRLs are encoded as they are, with their times: what is encoded is what they are decoded from.
pub fn crls_stay<P: Profile>()
    ensures entry { (entry : RevokedCert P) → writes ⟦<RevokedCert<P> as Encode>⟧.writing entry ≡ record { value = entry; refusal = None } }
    ensures signed { (signed : TbsCertList P) → writes ⟦<TbsCertList<P> as Encode>⟧.writing signed ≡ record { value = signed; refusal = None } }
    ensures list { (list : CertificateList P) → writes ⟦<CertificateList<P> as Encode>⟧.writing list ≡ record { value = list; refusal = None } }
{}

/// Two values with the same encoding are equal, also where the profile refuses their serial numbers in decoding.
pub fn crls_written_alike_are_one<P: Profile>()
    ensures entry { (v w : RevokedCert P) → any_revoked_cert.good v → any_revoked_cert.good w
        → written_spelling (revoked_cert P.serial_check) (writes ⟦<RevokedCert<P> as Encode>⟧.writing v)
        ≡ written_spelling (revoked_cert P.serial_check) (writes ⟦<RevokedCert<P> as Encode>⟧.writing w) → v ≡ w }
    ensures signed { (v w : TbsCertList P) → any_tbs_cert_list.good v → any_tbs_cert_list.good w
        → written_spelling (tbs_cert_list P.serial_check) (writes ⟦<TbsCertList<P> as Encode>⟧.writing v)
        ≡ written_spelling (tbs_cert_list P.serial_check) (writes ⟦<TbsCertList<P> as Encode>⟧.writing w) → v ≡ w }
    ensures list { (v w : CertificateList P) → any_certificate_list.good v → any_certificate_list.good w
        → written_spelling (certificate_list P.serial_check) (writes ⟦<CertificateList<P> as Encode>⟧.writing v)
        ≡ written_spelling (certificate_list P.serial_check) (writes ⟦<CertificateList<P> as Encode>⟧.writing w) → v ≡ w }
{}

/// Bytes that are the encoding of a CRL have a signed part, which [`signed_slice`](crate::signed_slice)
/// answers: it is the encoding of what is signed, and under every profile encoding that gives it again.
pub fn crls_have_a_signed_part<P: Profile>()
    ensures signed { (list : CertificateList P) (bytes : List ℕ) → Spells (certificate_list P.serial_check) list bytes
        → IsSignedPart bytes (spelling (tbs_cert_list P.serial_check) list.tbs_cert_list) }
    ensures spelled { (list : CertificateList P) (bytes : List ℕ) → Spells (certificate_list P.serial_check) list bytes
        → Spells (tbs_cert_list P.serial_check) list.tbs_cert_list (spelling (tbs_cert_list P.serial_check) list.tbs_cert_list) }
    ensures written { (signed : TbsCertList P) → written_spelling (tbs_cert_list P.serial_check) (writes ⟦<TbsCertList<P> as Encode>⟧.writing signed)
        ≡ spelling (tbs_cert_list P.serial_check) signed }
{}

/// Under [`Rfc5280`] what is written of a CRL that a program made is read as the very CRL, where the serial number of each entry
/// has at most 21 octets.
#[tactic(auto, using(crate::proofs::Made::made_for_rfc5280))]
pub fn rfc5280_crls_are_read_as_meant(list: &CertificateList<Rfc5280>)
    ensures { MadeList (λ serial. length serial ≤ 21) list.now.tbs_cert_list
        → length (spelling ⟦<CertificateList<Rfc5280> as Grammar>⟧.form list.now) ≤ limit
        → Spells ⟦<CertificateList<Rfc5280> as Grammar>⟧.form list.now (spelling ⟦<CertificateList<Rfc5280> as Grammar>⟧.form list.now) }
{
    list.has_spelling();
}

/// Under [`Raw`] it is read as the very CRL, whatever the serial numbers.
pub fn raw_crls_are_read_as_meant(list: &CertificateList<Raw>)
    ensures { length (spelling ⟦<CertificateList<Raw> as Grammar>⟧.form list.now) ≤ limit
        → Spells ⟦<CertificateList<Raw> as Grammar>⟧.form list.now (spelling ⟦<CertificateList<Raw> as Grammar>⟧.form list.now) }
{
    list.has_spelling();
}

/// Under every profile `==` of CRLs, of their entries and of their signed parts holds exactly of equal values. Dates in two
/// spellings differ, and so do serial numbers with other octets.
pub fn equality_of_crls_is_exact<P: Profile>()
    ensures entry { (a b : RevokedCert P) → (⟦<RevokedCert<P> as PartialEq>⟧.eq a b ≡ true) ↔ (a ≡ b) }
    ensures signed { (a b : TbsCertList P) → (⟦<TbsCertList<P> as PartialEq>⟧.eq a b ≡ true) ↔ (a ≡ b) }
    ensures list { (a b : CertificateList P) → (⟦<CertificateList<P> as PartialEq>⟧.eq a b ≡ true) ↔ (a ≡ b) }
{}

/// The octets that stand for 1.2.840.113549.1.9.n are its content octets (X.690 8.19).
#[tactic(auto, using(crate::proofs::ArcsOfAttributes::pkcs_9_content))]
pub fn identifiers_of_attributes()
    ensures { (n : ℕ) → n < 128 → pkcs_9 n ≡ content_of (1 ∷ 2 ∷ 840 ∷ 113549 ∷ 1 ∷ 9 ∷ n ∷ []) }
{}

/// CSRs are encoded as they are: what is encoded is what they are decoded from.
pub fn requests_stay()
    ensures info { (info : CertReqInfo) → writes ⟦<CertReqInfo as Encode>⟧.writing info ≡ record { value = info; refusal = None } }
    ensures request { (request : CertReq) → writes ⟦<CertReq as Encode>⟧.writing request ≡ record { value = request; refusal = None } }
    ensures extensions { (req : ExtensionReq) → writes ⟦<ExtensionReq as Encode>⟧.writing req ≡ record { value = req; refusal = None } }
{}

/// Bytes that are the encoding of a CSR have a signed part, which [`signed_slice`](crate::signed_slice)
/// answers: it is the encoding of what is signed, and encoding that gives it again.
pub fn requests_have_a_signed_part()
    ensures signed { (request : CertReq) (bytes : List ℕ) → Spells cert_req request bytes → IsSignedPart bytes (spelling cert_req_info request.info) }
    ensures spelled { (request : CertReq) (bytes : List ℕ) → Spells cert_req request bytes
        → Spells cert_req_info request.info (spelling cert_req_info request.info) }
    ensures written { (info : CertReqInfo) → written_spelling cert_req_info (writes ⟦<CertReqInfo as Encode>⟧.writing info) ≡ spelling cert_req_info info }
{}

/// What is written of a request that a program made is read as the very request.
pub fn requests_are_read_as_meant(request: &CertReq)
    ensures { length (spelling ⟦<CertReq as Grammar>⟧.form request.now) ≤ limit
        → Spells ⟦<CertReq as Grammar>⟧.form request.now (spelling ⟦<CertReq as Grammar>⟧.form request.now) }
{
    request.has_spelling();
}

/// `==` of requests, of their signed parts, their versions and what they ask for holds exactly of equal values.
pub fn equality_of_requests_is_exact()
    ensures versions { (a b : request_version.Version) → (⟦<Version as PartialEq>⟧.eq a b ≡ true) ↔ (a ≡ b) }
    ensures info { (a b : CertReqInfo) → (⟦<CertReqInfo as PartialEq>⟧.eq a b ≡ true) ↔ (a ≡ b) }
    ensures request { (a b : CertReq) → (⟦<CertReq as PartialEq>⟧.eq a b ≡ true) ↔ (a ≡ b) }
    ensures extensions { (a b : ExtensionReq) → (⟦<ExtensionReq as PartialEq>⟧.eq a b ≡ true) ↔ (a ≡ b) }
    ensures passwords { (a b : ChallengePassword) → (⟦<ChallengePassword as PartialEq>⟧.eq a b ≡ true) ↔ (a ≡ b) }
{}

/// A password is encoded as its text is.
pub fn passwords_are_texts()
    ensures { (password : ChallengePassword) → spelling challenge_password password ≡ spelling directory_string password.0 }
{}

/// What holds of trust anchors.
pub mod anchor {
    pub use crate::anchor::laws::{
        anchors_written_alike_are_respelled_alike, dates_are_written_once,
        equality_of_anchors_is_exact, equality_of_policy_flags_is_exact,
        policy_flags_are_written_once, raw_anchors_are_read_as_meant, raw_anchors_stay,
        raw_dates_are_written_once, rfc5280_anchors_are_read_as_meant,
        rfc5280_dates_are_written_once,
    };
}
