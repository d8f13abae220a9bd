//! What is to be verified of a certificate.

ghost use Rattle.std.specs.Prelude.{◌≡◌};
ghost use Rattle.x509_base.specs.declared.profile.Rfc5280 as rules;
ghost use Rattle.x509_c_calls.specs.Signature.{IsSignature};
ghost use Rattle.x509_c_calls.specs.Calls.{Reads};
ghost use Rattle.x509_c_calls.specs.declared.status.status.Status.TheVariants.{Refused};
ghost use Rattle.x509_cert.specs.declared.certificate.certificate.CertificateInner as whole;
ghost use Rattle.x509_der.specs.declared.error.ErrorKind.TheVariants.{Memory};
ghost use Rattle.x509_der.specs.Form.{Spells};

use crate::{Span, Status, bits_at, enter, step, unused_at};
use x509_base::Rfc5280;
use x509_cert::certificate::CertificateInner;
use x509_check::Check;
use x509_der::Grammar;

/// What is to be verified of a certificate (RFC 5280 4.1.1), by its place in the bytes: that these bits are a signature
/// of the signed part, by that algorithm. The key is that of the issuer's certificate.
#[derive(Clone, Copy)]
#[repr(C)]
pub struct SignatureView {
    /// What is signed, a whole TBSCertificate.
    pub signed_part: Span,

    /// The algorithm of the signature, a whole AlgorithmIdentifier.
    pub algorithm: Span,

    /// The octets of the signature's bits: what its BIT STRING holds after the first octet.
    pub bits: Span,

    /// How many bits of the last of these octets are unused, 0 to 7.
    pub unused_bits: u32,
}

/// What is to be verified of the certificate of which the bytes are the encoding.
pub(crate) fn signature_of(input: &[u8]) -> SignatureView
    ensures { (certificate : whole.CertificateInner rules.Rfc5280) → Spells ⟦<CertificateInner<Rfc5280> as Grammar>⟧.form certificate input.now
        → IsSignature input.now certificate result }
{
    let mut at = 0;
    enter(input, &mut at);
    let signed_part = step(input, &mut at, true);
    let algorithm = step(input, &mut at, true);
    SignatureView {
        signed_part,
        algorithm,
        bits: bits_at(input, at),
        unused_bits: unused_at(input, at),
    }
}

/// Checks a certificate under the rules of RFC 5280, and fills in what is to be verified of it. It takes no memory.
///
/// # Errors
///
/// Those of [`certificate_view`](crate::certificate_view). `found` is unchanged then.
#[tactic(auto, unfolding(crate::specs::Calls::Reads))]
pub fn certificate_signature(input: &[u8], found: &mut SignatureView) -> Status
    ensures read { Reads ⟦<CertificateInner<Rfc5280> as Grammar>⟧.form ⟦<CertificateInner<Rfc5280> as Grammar>⟧.refuses input.now
        (λ certificate. IsSignature input.now certificate found.new) (found.new ≡ found.old) result }
    ensures memory { result ≡ Refused Memory → ⊥ }
{
    match CertificateInner::<Rfc5280>::check(input) {
        Ok(()) => {
            *found = signature_of(input);
            Status::Done
        }
        Err(e) => e.into(),
    }
}
