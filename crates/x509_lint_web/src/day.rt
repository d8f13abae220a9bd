//! The days from which on rules are in force, or no longer are.

ghost use Rattle.std.specs.Prelude.{◌≡◌};
ghost use Rattle.x509_lint_web.specs.Sentence.{is_begun, is_over, is_reached};

use x509_base::DateTime;

/// A day of the calendar, in Coordinated Universal Time.
#[derive(Clone, Copy, Debug, PartialEq, Eq)]
pub struct Day {
    /// The year.
    pub year: u16,

    /// The month, from 1 to 12.
    pub month: u8,

    /// The day of the month, from 1.
    pub day: u8,
}

impl Day {
    /// Whether the moment is on the day, or behind it.
    pub fn is_reached(self, moment: DateTime) -> bool
        ensures { result ≡ is_reached self moment }
    {
        self.year < moment.year()
            || (self.year == moment.year()
                && (self.month < moment.month()
                    || (self.month == moment.month() && self.day <= moment.day())))
    }
}

/// Whether a rule that is in force from that day on has begun to be so at the moment.
pub(crate) fn is_begun(since: Option<Day>, moment: DateTime) -> bool
    ensures { result ≡ is_begun since moment }
{
    match since {
        Some(day) => day.is_reached(moment),
        None => true,
    }
}

/// Whether a rule that is in force up to that day has ceased to be so at the moment.
pub(crate) fn is_over(until: Option<Day>, moment: DateTime) -> bool
    ensures { result ≡ is_over until moment }
{
    match until {
        Some(day) => day.is_reached(moment),
        None => false,
    }
}
