//! Certificates that aren't let through by their statuses.

ghost use Rattle.std.specs.List.{All};
ghost use Rattle.std.specs.Prelude.{◌↔◌, Contains, List, IfOk, IsTrue, MatchOption};
ghost use Rattle.x509_path.specs.Certificates.{Certificate};
ghost use Rattle.x509_path.specs.Lent.{Lends};
ghost use Rattle.x509_revocation.specs.Lent.{LendsAll, question};
ghost use Rattle.x509_revocation.specs.Says.{GivenCrl};
ghost use Rattle.x509_revocation.specs.Status as statuses;
ghost use Rattle.x509_trust.specs.Peers.{Bars, IsBarred, Passes};
ghost use Rattle.x509_verify.specs.Found.{octets};

use crate::error::RefusedCertificate;
use crate::revocation::RevocationCheck;
use std::alloc::{AllocError, Global};
use x509_base::Rfc5280;
use x509_check::CertificateRef;
use x509_path::SliceVerifier;
use x509_revocation::{RevocationStatus, revocation_status};

/// Whether a certificate of this status isn't let through.
fn is_barred(check: &RevocationCheck<'_, '_, '_>, status: &RevocationStatus) -> bool
    ensures { IsTrue result ↔ Bars check.now status.now }
{
    match status {
        RevocationStatus::Unrevoked => false,
        RevocationStatus::Revoked { .. } => true,
        RevocationStatus::Undetermined { .. } => !check.allows_undetermined,
    }
}

/// The status of the certificate.
fn status_of<V: SliceVerifier>(
    alloc: Global,
    check: &RevocationCheck<'_, '_, '_>,
    certificate: &CertificateRef<'_>,
    verifier: &V,
) -> Result<RevocationStatus, AllocError>
    ensures { IfOk result (λ status. (c : Certificate) (given : List GivenCrl) → Lends certificate.now.bytes.now c → LendsAll check.now.crls.now given
        → statuses.Answers (question (V.accepts verifier.now) check.now.settings c) given status) }
{
    match revocation_status(alloc, certificate, check.crls, &check.settings, verifier) {
        Ok(status) => Ok(status),
        Err(_) => Err(AllocError),
    }
}

/// The first of these certificates that isn't let through, if there is one. What is no certificate is passed over.
pub(crate) fn first_refused<'a, V: SliceVerifier>(
    alloc: Global,
    check: &RevocationCheck<'_, '_, '_>,
    certificates: &[&'a [u8]],
    verifier: &V,
) -> Result<Option<RefusedCertificate<'a>>, AllocError>
    ensures { (given : List GivenCrl) → LendsAll check.now.crls.now given → IfOk result (λ found. MatchOption found
        (All (Passes (V.accepts verifier.now) check.now given) (octets certificates.now))
        (λ refused. Contains (octets certificates.now) refused.certificate.now
        × IsBarred (V.accepts verifier.now) check.now given refused.certificate.now refused.status)) }
{
    for bytes in certificates {
        if let Ok(certificate) = CertificateRef::<Rfc5280>::from_der(bytes) {
            let status = status_of(alloc, check, &certificate, verifier)?;
            if is_barred(check, &status) {
                return Ok(Some(RefusedCertificate {
                    certificate: bytes,
                    status,
                }));
            }
        }
    }
    Ok(None)
}
