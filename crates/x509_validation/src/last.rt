//! What is wrong with the last certificate of a path, whatever stands above it.

ghost use Rattle.std.specs.Prelude.{◌≡◌, ◌↔◌, IfOk, IsTrue};
ghost use Rattle.x509_path.specs.Certificates as certificates;
ghost use Rattle.x509_path.specs.Lent.{Lends, lent_extensions};
ghost use Rattle.x509_validation.specs.Last.{BreaksAlone, TellsAlone, asked_alone};

use crate::own::has_own_fault;
use crate::processed::lacks_usage;
use std::alloc::{AllocError, Global};
use x509_check::{CertificateRef, ExtensionRef};
use x509_path::extensions::collect;
use x509_path_steps::purposes::lacks_purposes;
use x509_path_steps::{PathSettings, ValidationReason};

/// The reasons that are asked of a certificate alone, in their order.
const REASONS: [ValidationReason; 8] = [
    ValidationReason::Algorithm,
    ValidationReason::Moment,
    ValidationReason::Version,
    ValidationReason::Repeated,
    ValidationReason::Extension,
    ValidationReason::Critical,
    ValidationReason::Usage,
    ValidationReason::Purpose,
];

/// Whether that is wrong with the certificate of these extensions, whatever stands above it.
fn breaks_alone(
    alloc: Global,
    certificate: &CertificateRef<'_>,
    extensions: &[ExtensionRef<'_>],
    settings: &PathSettings<'_>,
    reason: ValidationReason,
) -> Result<bool, AllocError>
    ensures { IfOk result (λ b. (c : certificates.Certificate) → Lends certificate.now.bytes.now c → lent_extensions extensions.now ≡ certificates.extensions_of c
        → IsTrue b ↔ BreaksAlone (asked_alone settings.now) c reason) }
{
    match reason {
        ValidationReason::Usage => Ok(lacks_usage(alloc, settings.key_usage, extensions)),
        ValidationReason::Purpose => lacks_purposes(alloc, settings, extensions),
        _ => {
            let asks_purpose = settings.purposes.is_some();
            has_own_fault(
                alloc,
                certificate,
                extensions,
                settings.moment,
                asks_purpose,
                reason,
            )
        }
    }
}

/// The first thing that is wrong with a certificate as the last one of a path, whatever stands above it: no path that ends in it is
/// valid under these settings. It is asked for its validity, its version, whether its extensions can be decoded and are processed,
/// and for the key usage and the purposes that are asked for. `None` exactly where none of these is wrong. Memory is taken for its
/// extensions.
///
/// # Errors
///
/// When out of memory.
pub fn last_fault(
    alloc: Global,
    certificate: &CertificateRef<'_>,
    settings: &PathSettings<'_>,
) -> Result<Option<ValidationReason>, AllocError>
    ensures { IfOk result (λ found. (c : certificates.Certificate) → Lends certificate.now.bytes.now c → TellsAlone (asked_alone settings.now) c found) }
{
    let extensions = collect(alloc, certificate.extensions())?;
    for reason in REASONS {
        if breaks_alone(alloc, certificate, extensions.as_slice(), settings, reason)? {
            return Ok(Some(reason));
        }
    }
    Ok(None)
}
