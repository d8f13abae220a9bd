//! What is asked of times.

ghost use Rattle.std.specs.Prelude.{◌≡◌};
ghost use Rattle.x509_lint.specs.Words.{is_before, is_early_general};

use x509_base::Time;

/// Whether it is a date through 2049, and a GeneralizedTime.
pub(crate) fn is_early_general(time: Time) -> bool
    ensures { result ≡ is_early_general time }
{
    match time {
        Time::UtcTime(_) => false,
        Time::GeneralTime(time) => time.to_date_time().year() < 2050,
    }
}

/// Whether the time is before the other.
pub(crate) fn is_before(time: Time, other: Time) -> bool
    ensures { result ≡ is_before time other }
{
    time.to_unix_duration() < other.to_unix_duration()
}
