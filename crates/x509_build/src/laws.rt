//! What holds of all that is built. Each law is a function whose contract is the law.

ghost use Rattle.std.specs.Prelude.{◌≡◌, ◌↔◌, ◌++◌, ◌∷◌, [], ℕ, List, Some, true};
ghost use Rattle.x509_base.specs.declared.algorithm_identifier.AlgorithmIdentifier.{AlgorithmIdentifier};
ghost use Rattle.x509_base.specs.declared.subject_public_key_info.SubjectPublicKeyInfo.{SubjectPublicKeyInfo};
ghost use Rattle.x509_build.specs.Answer.{IsSame};
ghost use Rattle.x509_build.specs.NameValues as values;
ghost use Rattle.x509_build.specs.Parts.{Encodes};
ghost use Rattle.x509_build.specs.declared.certificate_builder.CertificateBuilder as certificates;
ghost use Rattle.x509_build.specs.declared.crl_builder.CrlBuilder as crls;
ghost use Rattle.x509_build.specs.declared.request.request_builder.RequestBuilder as requests;
ghost use Rattle.x509_build.specs.declared.error.KeyError as key_errors;
ghost use Rattle.x509_build.specs.declared.error.SignError as sign_errors;
ghost use Rattle.x509_build.specs.declared.profile.devid.TpmVersion as modules;
ghost use Rattle.x509_build.specs.declared.profile.cabf.tls.CertificateType as types;
ghost use Rattle.x509_build.specs.declared.profile.cabf.tls.DomainValidated as validated;
ghost use Rattle.x509_der.specs.Form.{Spells};
ghost use Rattle.x509_der.specs.Writing.{IsStable, writes};
ghost use Rattle.x509_name.specs.AttributeNames.{Key};
ghost use Rattle.x509_name.specs.Attributes.{ReadsBack, is_text};
ghost use Rattle.x509_name.specs.Escapes.{escaped};
ghost use Rattle.x509_name.specs.Keys.{key_of};
ghost use Rattle.x509_name.specs.NameText.{NameReads};
ghost use Rattle.x509_prim.specs.BitString.{BitParts};

use crate::Builder;
use crate::certificate_builder::CertificateBuilder;
use crate::crl_builder::CrlBuilder;
use crate::error::{KeyError, SignError};
use crate::profile::BuilderProfile;
use crate::profile::cabf::tls::{CertificateType, DomainValidated};
use crate::profile::devid::TpmVersion;
use crate::request::RequestBuilder;
use x509_base::Profile;
use x509_der::{Encode, Spelled, laws};

/// Where a builder becomes one that makes the same parts, as [`finalize`](Builder::finalize) does, what both answer for
/// one signer are the same bytes.
pub fn a_further_finalize_answers_the_same_bytes<B: Builder>()
    ensures { (before after : B) (algorithm : AlgorithmIdentifier) (key : SubjectPublicKeyInfo) (first second : List ℕ)
        → IsSame (B.next after algorithm key) (B.next before algorithm key) → Encodes B.Signed.form B.Signed.writing (B.next before algorithm key) first
        → Encodes B.Signed.form B.Signed.writing (B.next after algorithm key) second → second ≡ first }
{}

/// What is built of the signed part that is finalized for a signer has that part, and the signer's algorithm outside
/// it: a certificate (RFC 5280 4.1.1.2), a CRL (RFC 5280 5.1.1.2) and a CSR (RFC 2986 4.2).
pub fn the_algorithm_outside_is_the_signers<B: BuilderProfile, P: Profile>()
    ensures certificate { (builder : certificates.CertificateBuilder B) (algorithm : AlgorithmIdentifier) (key : SubjectPublicKeyInfo) (bits : BitParts)
        → ⟦<CertificateBuilder<B> as Builder>⟧.whole (⟦<CertificateBuilder<B> as Builder>⟧.next builder algorithm key).value algorithm bits
        ≡ record {
          tbs_certificate = (⟦<CertificateBuilder<B> as Builder>⟧.next builder algorithm key).value;
          signature_algorithm = algorithm;
          signature =
              bits;
        } }
    ensures crl { (builder : crls.CrlBuilder P) (algorithm : AlgorithmIdentifier) (key : SubjectPublicKeyInfo) (bits : BitParts)
        → ⟦<CrlBuilder<P> as Builder>⟧.whole (⟦<CrlBuilder<P> as Builder>⟧.next builder algorithm key).value algorithm bits
        ≡ record { tbs_cert_list = (⟦<CrlBuilder<P> as Builder>⟧.next builder algorithm key).value; signature_algorithm = algorithm; signature = bits } }
    ensures request { (builder : requests.RequestBuilder) (algorithm : AlgorithmIdentifier) (key : SubjectPublicKeyInfo) (bits : BitParts)
        → ⟦<RequestBuilder as Builder>⟧.whole (⟦<RequestBuilder as Builder>⟧.next builder algorithm key).value algorithm bits
        ≡ record { info = (⟦<RequestBuilder as Builder>⟧.next builder algorithm key).value; algorithm = algorithm; signature = bits } }
{}

/// The bytes that [`finalize`](Builder::finalize) answers, which are those to be signed, decode to the part as it is
/// spelled: an authority that signs what it made signs what it meant. The part is in hand once
/// [`assemble`](Builder::assemble) or [`build`](Builder::build) has answered, as `certificate.tbs_certificate()`; the
/// premise is that of [`Spelled`].
pub fn what_is_signed_is_read_as_meant<T: Encode + Spelled, B: Builder<Signed = T>>(part: &T)
    ensures { (builder : B) (algorithm : AlgorithmIdentifier) (key : SubjectPublicKeyInfo) (bytes : List ℕ) → (B.next builder algorithm key).value ≡ part.now
        → Encodes T.form T.writing (B.next builder algorithm key) bytes → IsStable T.form.good T.writing → T.premise part.now
        → Spells T.form (writes T.writing part.now).value bytes }
{
    laws::what_is_written_of_a_value_is_read_as_meant(part);
}

/// `==` of the kinds of subscribers holds exactly of equal values.
#[tactic(auto, using(crate::specs::Equality::exact_certificate_type, crate::specs::Equality::exact_domain_validated))]
pub fn equality_of_subscribers_is_exact()
    ensures kinds { (a b : types.CertificateType) → (⟦<CertificateType as PartialEq>⟧.eq a b ≡ true) ↔ (a ≡ b) }
    ensures domains { (a b : validated.DomainValidated) → (⟦<DomainValidated as PartialEq>⟧.eq a b ≡ true) ↔ (a ≡ b) }
{}

/// `==` of the versions of trusted platform modules, and of what signers refuse, holds exactly of equal values.
#[tactic(auto, using(crate::specs::Equality::exact_tpm_version, crate::specs::Equality::exact_key_error, crate::specs::Equality::exact_sign_error))]
pub fn equality_of_modules_and_refusals_is_exact()
    ensures modules { (a b : modules.TpmVersion) → (⟦<TpmVersion as PartialEq>⟧.eq a b ≡ true) ↔ (a ≡ b) }
    ensures keys { (a b : key_errors.KeyError) → (⟦<KeyError as PartialEq>⟧.eq a b ≡ true) ↔ (a ≡ b) }
    ensures signing { (a b : sign_errors.SignError) → (⟦<SignError as PartialEq>⟧.eq a b ≡ true) ↔ (a ≡ b) }
{}

/// A text with escapes, behind the name of an attribute type and an equals sign, reads as the name of one attribute: of
/// that type, with the text as its content, whatever it holds.
#[tactic(auto, using(crate::proofs::NameFacts::reads_escaped))]
pub fn an_escaped_text_is_one_value()
    ensures { (key : Key) (text : List ℕ) → key_of key.octets ≡ Some key → is_text key.tag text ≡ true
        → ReadsBack key.octets (record { tag = key.tag; value = text })
        → NameReads (key.name ++ 61 ∷ escaped text) ((record { oid = key.octets; value = record { tag = key.tag; value = text } } ∷ []) ∷ []) }
{}

/// The string type that an attribute is given where none is told is one that it allows.
#[tactic(auto, using(crate::proofs::NameFacts::wanted_allowed))]
pub fn what_is_wanted_is_allowed()
    ensures { (oid : List ℕ) → values.allows oid (values.wanted oid) ≡ true }
{}
