//! What the certificates of a valid path say.

ghost use Rattle.std.specs.Prelude.{map};
ghost use Rattle.x509_c_calls.specs.PathValidation.{IsCertificateOf, PutsCertificates};

use crate::certificate::{CertificateView, SignatureView, signature_of, view_of};
use x509_check::CertificateRef;

/// What a certificate of a path says, and what is to be verified of it. Each place is one in the bytes of this certificate, which
/// begin at 0.
#[derive(Clone, Copy)]
#[repr(C)]
pub struct PathCertificate {
    /// What it says.
    pub view: CertificateView,

    /// What is to be verified of it.
    pub signature: SignatureView,
}

/// What the certificate says.
pub(crate) fn certificate_of(lent: &CertificateRef<'_>) -> PathCertificate
    ensures { IsCertificateOf lent.now.bytes.now result }
{
    let bytes = lent.as_bytes();
    PathCertificate {
        view: view_of(bytes, lent, &lent.validity()),
        signature: signature_of(bytes),
    }
}

/// Puts what each of the certificates says at the front of the buffer `room`, where all fit; else it is unchanged.
pub(crate) fn put_certificates(lent: &[CertificateRef<'_>], room: &mut [PathCertificate])
    ensures { PutsCertificates (map (λ certificate. certificate.bytes.now) lent.now) room.old room.new }
{
    if room.len() < lent.len() {
        return;
    }
    for index in 0..lent.len() {
        room[index] = certificate_of(&lent[index]);
    }
}
