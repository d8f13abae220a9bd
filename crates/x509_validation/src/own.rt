//! What is wrong with a certificate of a path, whatever stands above it and below it.

ghost use Rattle.std.specs.Prelude.{◌↔◌, ◌≡◌, IfOk, IsTrue};
ghost use Rattle.x509_path.specs.Certificates as certificates;
ghost use Rattle.x509_path.specs.Lent.{Lends, lent_extensions};
ghost use Rattle.x509_path_steps.specs.Validation.{HasOtherVersion};
ghost use Rattle.x509_validation.specs.Last.{HasOwnFault};

use crate::processed::{are_processed, are_spelled};
use std::alloc::{AllocError, Global};
use x509_base::DateTime;
use x509_cert::certificate::Version;
use x509_check::{CertificateRef, ExtensionRef};
use x509_path::certificate::{has_two_algorithms, is_outside};
use x509_path::extensions::is_repeated;
use x509_path_steps::ValidationReason;

/// Whether there are extensions, and the version isn't 3.
fn has_other_version(certificate: &CertificateRef<'_>, extensions: &[ExtensionRef<'_>]) -> bool
    ensures { (c : certificates.Certificate) → Lends certificate.now.bytes.now c → lent_extensions extensions.now ≡ certificates.extensions_of c
        → IsTrue result ↔ HasOtherVersion c }
{
    !extensions.is_empty() && certificate.version() != Version::V3
}

/// Whether the certificate of these extensions has that fault, where it is one of its own: its algorithms, its dates, its version, or
/// its extensions. `false` for each other reason.
#[inline(always)]
pub(crate) fn has_own_fault(
    alloc: Global,
    certificate: &CertificateRef<'_>,
    extensions: &[ExtensionRef<'_>],
    moment: DateTime,
    asks_purpose: bool,
    reason: ValidationReason,
) -> Result<bool, AllocError>
    ensures { IfOk result (λ b. (c : certificates.Certificate) → Lends certificate.now.bytes.now c → lent_extensions extensions.now ≡ certificates.extensions_of c
        → IsTrue b ↔ HasOwnFault moment asks_purpose c reason) }
{
    match reason {
        ValidationReason::Algorithm => Ok(has_two_algorithms(certificate)),
        ValidationReason::Moment => Ok(is_outside(moment, certificate)),
        ValidationReason::Version => Ok(has_other_version(certificate, extensions)),
        ValidationReason::Repeated => is_repeated(alloc, extensions),
        ValidationReason::Extension => Ok(!are_spelled(extensions)),
        ValidationReason::Critical => Ok(!are_processed(asks_purpose, extensions)),
        _ => Ok(false),
    }
}
