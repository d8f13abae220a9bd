//! What is encoded of certificates, of their signed parts and of paths of certificates, and what the signed bytes
//! spell. Each law is a function with an empty body, or one that cites others, whose contract is the law. Bytes spell a
//! value where they are its encoding; it is respelled where a profile encodes its dates otherwise than they were
//! decoded (`docs/MAP.md` has these words).
//!
//! That no two values share a spelling, and no value has two, stands in [`x509_der::laws`] for every type. So
//! does what follows from what [`dates_are_written_once`] says: that decoding what was encoded and encoding it again
//! gives the same bytes, and that what was encoded decodes to the value that is spelled.

ghost use Rattle.std.specs.Prelude.{List, length, true, ℕ, ◌↔◌, ◌≡◌, ◌≤◌};
ghost use Rattle.x509_base.specs.Validity.{validity};
ghost use Rattle.x509_base.specs.declared.profile.Raw as raw;
ghost use Rattle.x509_base.specs.declared.profile.Rfc5280 as rfc5280;
ghost use Rattle.x509_cert.specs.Respelling.{HasRfc5280Dates, Stays, any_certificate, any_certificates, any_tbs_certificate};
ghost use Rattle.x509_cert.specs.Spellings.{certificate_spellings, tbs_spellings};
ghost use Rattle.x509_cert.specs.declared.certificate.certificate.CertificateInner as whole;
ghost use Rattle.x509_cert.specs.declared.certificate.tbs_certificate.TbsCertificateInner.{TbsCertificateInner};
ghost use Rattle.x509_cert.specs.declared.certificate.version.Version.{Version};
ghost use Rattle.x509_cert.specs.Elements.{CertificateElements, HasCertificateElements, HasTbsElements};
ghost use Rattle.x509_cert.specs.Signed.{IsSignedPart};
ghost use Rattle.x509_der.specs.Form.{Spells, spelling};
ghost use Rattle.x509_der.specs.Element.{limit};
ghost use Rattle.x509_der.specs.Writing.{IsStable, IsWritable, RespellsAlike, writes, written_spelling};

use crate::certificate::certificate::CertificateInner;
use crate::certificate::tbs_certificate::TbsCertificateInner;
use crate::certificate::version::Version;
use x509_base::{Profile, Raw, Rfc5280, Validity};
use x509_der::{Encode, Grammar, SequenceOf, Spelled};

/// Where what is encoded of a validity is encoded again as it is, so is what is encoded of a signed part, of a
/// certificate and of a path.
pub fn dates_are_written_once<P: Profile>()
    ensures signed { IsStable validity.good ⟦<Validity<P> as Encode>⟧.writing
        → IsStable ⟦<TbsCertificateInner<P> as Grammar>⟧.form.good ⟦<TbsCertificateInner<P> as Encode>⟧.writing }
    ensures whole { IsStable validity.good ⟦<Validity<P> as Encode>⟧.writing
        → IsStable ⟦<CertificateInner<P> as Grammar>⟧.form.good ⟦<CertificateInner<P> as Encode>⟧.writing }
    ensures listed { IsStable validity.good ⟦<Validity<P> as Encode>⟧.writing
        → IsStable ⟦<SequenceOf<CertificateInner<P>> as Grammar>⟧.form.good ⟦<SequenceOf<CertificateInner<P>> as Encode>⟧.writing }
{}

/// Under [`Rfc5280`] decoding and encoding twice gives the bytes of once.
pub fn rfc5280_dates_are_written_once()
    ensures signed { IsStable ⟦<TbsCertificateInner<Rfc5280> as Grammar>⟧.form.good ⟦<TbsCertificateInner<Rfc5280> as Encode>⟧.writing }
    ensures whole { IsStable ⟦<CertificateInner<Rfc5280> as Grammar>⟧.form.good ⟦<CertificateInner<Rfc5280> as Encode>⟧.writing }
    ensures listed { IsStable ⟦<SequenceOf<CertificateInner<Rfc5280>> as Grammar>⟧.form.good ⟦<SequenceOf<CertificateInner<Rfc5280>> as Encode>⟧.writing }
{
    x509_base::laws::rfc5280_dates_are_written_once();
    dates_are_written_once::<Rfc5280>();
}

/// Under [`Raw`] too, decoding and encoding twice gives the bytes of once.
pub fn raw_dates_are_written_once()
    ensures signed { IsStable ⟦<TbsCertificateInner<Raw> as Grammar>⟧.form.good ⟦<TbsCertificateInner<Raw> as Encode>⟧.writing }
    ensures whole { IsStable ⟦<CertificateInner<Raw> as Grammar>⟧.form.good ⟦<CertificateInner<Raw> as Encode>⟧.writing }
    ensures listed { IsStable ⟦<SequenceOf<CertificateInner<Raw>> as Grammar>⟧.form.good ⟦<SequenceOf<CertificateInner<Raw>> as Encode>⟧.writing }
{
    x509_base::laws::raw_dates_are_written_once();
    dates_are_written_once::<Raw>();
}

/// Under [`Raw`] what is encoded is what is spelled.
pub fn raw_certificates_stay()
    ensures signed { Stays ⟦<TbsCertificateInner<Raw> as Encode>⟧.writing }
    ensures whole { Stays ⟦<CertificateInner<Raw> as Encode>⟧.writing }
    ensures listed { Stays ⟦<SequenceOf<CertificateInner<Raw>> as Encode>⟧.writing }
{}

/// Where what is encoded of a validity is encoded again as it is, of two certificates with the same encoding the same
/// value is spelled, also of those whose serial numbers the profile refuses in decoding.
pub fn certificates_written_alike_are_respelled_alike<P: Profile>()
    ensures signed { IsStable validity.good ⟦<Validity<P> as Encode>⟧.writing
        → RespellsAlike ⟦<TbsCertificateInner<P> as Grammar>⟧.form any_tbs_certificate.good ⟦<TbsCertificateInner<P> as Encode>⟧.writing }
    ensures whole { IsStable validity.good ⟦<Validity<P> as Encode>⟧.writing
        → RespellsAlike ⟦<CertificateInner<P> as Grammar>⟧.form any_certificate.good ⟦<CertificateInner<P> as Encode>⟧.writing }
    ensures listed { IsStable validity.good ⟦<Validity<P> as Encode>⟧.writing
        → RespellsAlike ⟦<SequenceOf<CertificateInner<P>> as Grammar>⟧.form any_certificates.good ⟦<SequenceOf<CertificateInner<P>> as Encode>⟧.writing }
{}

/// Where bytes spell a certificate, they have a signed part, which [`signed_slice`](crate::signed_slice)
/// lends, and that spells the certificate's [`TbsCertificateInner`].
pub fn signed_bytes_spell_the_signed_part<P: Profile>()
    ensures found { (v : whole.CertificateInner P) (bytes : List ℕ) → Spells ⟦<CertificateInner<P> as Grammar>⟧.form v bytes
        → IsSignedPart bytes (spelling ⟦<TbsCertificateInner<P> as Grammar>⟧.form v.tbs_certificate) }
    ensures spells { (v : whole.CertificateInner P) (bytes signed : List ℕ) → Spells ⟦<CertificateInner<P> as Grammar>⟧.form v bytes
        → IsSignedPart bytes signed → Spells ⟦<TbsCertificateInner<P> as Grammar>⟧.form v.tbs_certificate signed }
{}

/// Where bytes spell a certificate, they have the elements that [`CertificateSlices::from_der`](crate::signed::CertificateSlices::from_der) lends, which are
/// the spellings of its fields. So they have where they spell a signed part.
pub fn slices_are_the_spellings_of_the_fields<P: Profile>()
    ensures signed { (v : TbsCertificateInner P) (bytes : List ℕ) → Spells ⟦<TbsCertificateInner<P> as Grammar>⟧.form v bytes
        → HasTbsElements bytes (tbs_spellings v) }
    ensures whole { (v : whole.CertificateInner P) (bytes : List ℕ) → Spells ⟦<CertificateInner<P> as Grammar>⟧.form v bytes
        → HasCertificateElements bytes (certificate_spellings v) }
    ensures only { (v : whole.CertificateInner P) (bytes : List ℕ) (e : CertificateElements) → Spells ⟦<CertificateInner<P> as Grammar>⟧.form v bytes
        → HasCertificateElements bytes e → e ≡ certificate_spellings v }
{}

/// Under [`Raw`] encoding that part gives the signed bytes.
pub fn raw_signed_bytes_are_written_again()
    ensures { (v : whole.CertificateInner raw.Raw) (bytes signed : List ℕ) → Spells ⟦<CertificateInner<Raw> as Grammar>⟧.form v bytes
        → IsSignedPart bytes signed → written_spelling ⟦<TbsCertificateInner<Raw> as Grammar>⟧.form
        (writes ⟦<TbsCertificateInner<Raw> as Encode>⟧.writing v.tbs_certificate) ≡ signed }
{}

/// Under [`Rfc5280`] encoding it gives the signed bytes exactly where neither date of the validity is respelled.
pub fn rfc5280_signed_bytes_are_written_again()
    ensures { (v : whole.CertificateInner rfc5280.Rfc5280) (bytes signed : List ℕ) → Spells ⟦<CertificateInner<Rfc5280> as Grammar>⟧.form v bytes
        → IsSignedPart bytes signed → (written_spelling ⟦<TbsCertificateInner<Rfc5280> as Grammar>⟧.form
        (writes ⟦<TbsCertificateInner<Rfc5280> as Encode>⟧.writing v.tbs_certificate) ≡ signed) ↔ HasRfc5280Dates v.tbs_certificate.validity }
{
    x509_base::laws::rfc5280_dates_are_written_once();
}

/// Under [`Rfc5280`] what is encoded of a certificate that a program made is decoded as what was meant, with its dates
/// as they are spelled there, where its serial number is one that decoding allows: at most 21 octets.
#[tactic(auto, using(crate::proofs::Serials::few_octets_stand))]
pub fn rfc5280_certificates_are_read_as_meant(certificate: &CertificateInner<Rfc5280>)
    ensures { length certificate.now.tbs_certificate.serial_number ≤ 21
        → IsWritable ⟦<CertificateInner<Rfc5280> as Grammar>⟧.form (writes ⟦<CertificateInner<Rfc5280> as Encode>⟧.writing certificate.now) limit
        → Spells ⟦<CertificateInner<Rfc5280> as Grammar>⟧.form (writes ⟦<CertificateInner<Rfc5280> as Encode>⟧.writing certificate.now).value
        (written_spelling ⟦<CertificateInner<Rfc5280> as Grammar>⟧.form (writes ⟦<CertificateInner<Rfc5280> as Encode>⟧.writing certificate.now)) }
{
    rfc5280_dates_are_written_once();
    x509_der::laws::what_is_written_of_a_value_is_read_as_meant(certificate);
}

/// Under [`Raw`] it is decoded as the very certificate, whatever its serial number.
pub fn raw_certificates_are_read_as_meant(certificate: &CertificateInner<Raw>)
    ensures { length (spelling ⟦<CertificateInner<Raw> as Grammar>⟧.form certificate.now) ≤ limit
        → Spells ⟦<CertificateInner<Raw> as Grammar>⟧.form certificate.now (spelling ⟦<CertificateInner<Raw> as Grammar>⟧.form certificate.now) }
{
    certificate.has_spelling();
}

/// Under every profile `==` of certificates, of their signed parts and of versions holds exactly of equal values. Dates
/// in two spellings differ, and so do serial numbers with other octets.
#[tactic(auto, using(crate::specs::CertificateEquality::exact_version))]
pub fn equality_of_certificates_is_exact<P: Profile>()
    ensures versions { (a b : Version) → (⟦<Version as PartialEq>⟧.eq a b ≡ true) ↔ (a ≡ b) }
    ensures signed { (a b : TbsCertificateInner P) → (⟦<TbsCertificateInner<P> as PartialEq>⟧.eq a b ≡ true) ↔ (a ≡ b) }
    ensures whole { (a b : whole.CertificateInner P) → (⟦<CertificateInner<P> as PartialEq>⟧.eq a b ≡ true) ↔ (a ≡ b) }
{}
