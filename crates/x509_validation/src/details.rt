//! What a fault of a certificate is about.

ghost use Rattle.std.specs.List.{All};
ghost use Rattle.std.specs.Prelude.{◌↔◌, IsTrue, MatchOption};
ghost use Rattle.x509_check.specs.ExtensionRefs.{extensions_left, lent_extension};
ghost use Rattle.x509_path.specs.Certificates as certificates;
ghost use Rattle.x509_path.specs.Lent.{Lends};
ghost use Rattle.x509_validation.specs.Details.{IsFaulty, IsFirstOf, IsSide};

use crate::processed::{is_decodable, is_processed};
use x509_base::DateTime;
use x509_check::{CertificateRef, ExtensionRef, ExtensionRefs};
use x509_path_steps::ValidationReason;

/// On which side of a validity a moment is.
#[derive(Clone, Copy, Debug, PartialEq, Eq)]
pub enum OutOfDate {
    /// It is before the first second.
    NotYetValid,

    /// It is after the last second.
    Expired,
}

/// On which side of the certificate's validity the moment is: what [`ValidationReason::Moment`] is about. `None` exactly where
/// it is within; before the first second where it would be both, as a validity may end before it begins.
pub fn out_of_date(certificate: &CertificateRef<'_>, moment: DateTime) -> Option<OutOfDate>
    ensures { (c : certificates.Certificate) → Lends certificate.now.bytes.now c → IsSide moment c.tbs_certificate.validity result }
{
    let validity = certificate.validity();
    let first = validity.not_before.to_unix_duration().as_secs();
    let last = validity.not_after.to_unix_duration().as_secs();
    let at = moment.unix_duration().as_secs();
    if at < first {
        return Some(OutOfDate::NotYetValid);
    }
    if last < at {
        return Some(OutOfDate::Expired);
    }
    None
}

/// Whether a fault of that reason is about the extension.
fn is_faulty(extension: &ExtensionRef<'_>, reason: ValidationReason, asks_purpose: bool) -> bool
    ensures { IsTrue result ↔ IsFaulty asks_purpose reason (lent_extension extension.now) }
{
    match reason {
        ValidationReason::Extension => !is_decodable(extension),
        ValidationReason::Critical => extension.critical && !is_processed(asks_purpose, extension),
        _ => false,
    }
}

/// The first of the extensions that a fault of that reason is about.
fn first_faulty<'a>(
    extensions: ExtensionRefs<'a>,
    reason: ValidationReason,
    asks_purpose: bool,
) -> Option<ExtensionRef<'a>>
    ensures { MatchOption result (All (λ e. IsFaulty asks_purpose reason e → ⊥) (extensions_left extensions.entry))
        (λ found. IsFirstOf (IsFaulty asks_purpose reason) (extensions_left extensions.entry) (lent_extension found)) }
{
    let mut rest = extensions;
    while let Some(extension) = rest.next() {
        if is_faulty(&extension, reason, asks_purpose) {
            return Some(extension);
        }
    }
    None
}

/// The extension of a certificate that its fault is about: the first that can't be decoded for
/// [`ValidationReason::Extension`], the first critical one that isn't processed for [`ValidationReason::Critical`], where a
/// purpose is asked for or isn't; `None` exactly where there is none, and for other reasons.
pub fn fault_extension<'a>(
    certificate: &CertificateRef<'a>,
    reason: ValidationReason,
    asks_purpose: bool,
) -> Option<ExtensionRef<'a>>
    ensures { (c : certificates.Certificate) → Lends certificate.now.bytes.now c → MatchOption result
        (All (λ e. IsFaulty asks_purpose reason e → ⊥) (certificates.extensions_of c))
        (λ found. IsFirstOf (IsFaulty asks_purpose reason) (certificates.extensions_of c) (lent_extension found)) }
{
    first_faulty(certificate.extensions(), reason, asks_purpose)
}
