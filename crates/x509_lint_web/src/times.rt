//! How long a certificate is valid.

ghost use Rattle.std.specs.Prelude.{◌≡◌};
ghost use Rattle.x509_base.specs.CivilTime.{unix_seconds};
ghost use Rattle.x509_base.specs.Time.{date_time_of};
ghost use Rattle.x509_lint_web.specs.Validity.{is_longer, is_shorter};

use x509_base::{Raw, Time};
use x509_cert::certificate::CertificateInner;

/// The seconds since 1970-01-01T00:00:00Z.
fn seconds_of(time: Time) -> u64
    ensures { result ≡ unix_seconds (date_time_of time) }
{
    time.to_unix_duration().as_secs()
}

/// Whether the validity is longer than so many days.
pub(crate) fn is_longer(days: u16, certificate: &CertificateInner<Raw>) -> bool
    ensures { result ≡ is_longer days certificate.now }
{
    let validity = certificate.tbs_certificate().validity();
    let begin = seconds_of(validity.not_before);
    let end = seconds_of(validity.not_after);
    u64::from(days) * 86_400 <= end.saturating_sub(begin)
}

/// Whether the validity is shorter than so many days.
pub(crate) fn is_shorter(days: u16, certificate: &CertificateInner<Raw>) -> bool
    ensures { result ≡ is_shorter days certificate.now }
{
    let validity = certificate.tbs_certificate().validity();
    let begin = seconds_of(validity.not_before);
    let end = seconds_of(validity.not_after);
    end.saturating_sub(begin) < (u64::from(days) * 86_400).saturating_sub(1)
}
