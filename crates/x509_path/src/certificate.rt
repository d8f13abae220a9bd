//! What is asked of one certificate, wherever it stands in a path.

ghost use Rattle.std.specs.Prelude.{◌≡◌, ◌↔◌, IsTrue};
ghost use Rattle.x509_base.specs.AlgorithmIdentifier.{algorithm_identifier};
ghost use Rattle.x509_cert.specs.Signed.{IsSignedPart};
ghost use Rattle.x509_der.specs.Form.{Spells};
ghost use Rattle.x509_path.specs.Certificates as certificates;
ghost use Rattle.x509_path.specs.Lent.{Lends};
ghost use Rattle.x509_prim.specs.BitString.{bit_string};

use x509_base::DateTime;
use x509_check::CertificateRef;

/// What is signed, by which algorithm, and the bits: of a certificate, each as its element.
#[derive(Clone, Copy)]
pub struct Signed<'a> {
    /// The algorithm.
    pub algorithm: &'a [u8],

    /// The signed part.
    pub message: &'a [u8],

    /// The signature.
    pub signature: &'a [u8],
}

/// Whether the algorithm in the signed part isn't the one outside it.
#[tactic(auto, using(crate::proofs::Lent::two_algorithms))]
pub fn has_two_algorithms(certificate: &CertificateRef<'_>) -> bool
    ensures { (c : certificates.Certificate) → Lends certificate.now.bytes.now c → IsTrue result ↔ certificates.HasTwoAlgorithms c }
{
    let slices = certificate.slices();
    slices.fields.signature != slices.signature_algorithm
}

/// Whether the moment is before or after the validity.
pub fn is_outside(moment: DateTime, certificate: &CertificateRef<'_>) -> bool
    ensures { (c : certificates.Certificate) → Lends certificate.now.bytes.now c → IsTrue result ↔ certificates.IsOutside moment c.tbs_certificate.validity }
{
    !certificate.validity().contains(moment)
}

/// What is signed of the certificate.
pub fn signed_of<'a>(certificate: &CertificateRef<'a>) -> Signed<'a>
    ensures algorithm { (c : certificates.Certificate) → Lends certificate.now.bytes.now c
        → Spells algorithm_identifier c.signature_algorithm result.algorithm.now }
    ensures message { IsSignedPart certificate.now.bytes.now result.message.now }
    ensures signature { (c : certificates.Certificate) → Lends certificate.now.bytes.now c → Spells bit_string c.signature result.signature.now }
{
    Signed {
        algorithm: certificate.signature_algorithm(),
        message: certificate.signed_part(),
        signature: certificate.signature(),
    }
}
