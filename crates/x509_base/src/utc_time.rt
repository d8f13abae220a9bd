//! UTCTime.

ghost use Rattle.std.specs.Prelude.{◌≡◌, ◌↔◌, ◌≤◌, ◌*◌, Some, Ok, IsOk, IfOk, IfErr};
ghost use Rattle.std.specs.Duration.{as_nanos};
ghost use Rattle.x509_base.specs.CivilTime.{CivilTime, last_utc_time, unix_seconds, whole_seconds};
ghost use Rattle.x509_base.specs.TimeText.{date_time_text, utc_time_octets};
ghost use Rattle.x509_base.specs.TimeReading.{IsUtcTime, Reads, utc_time_reading};
ghost use Rattle.x509_base.specs.TimeReading as reading;
ghost use Rattle.x509_der.specs.Outcome.{Answers};
ghost use Rattle.x509_der.specs.declared.error.ErrorKind.TheVariants.{Malformed, Value};

use crate::date_time::{DateTime, from_month};
use crate::time::digits::{number_at, ones, tens};
use std::fmt;
use std::marker::Model;
use std::time::Duration;
use x509_der::{Error, ErrorKind};

/// A date-time from 1970 to 2049 that is encoded as UTCTime (RFC 5280 4.1.2.5.1).
#[derive(Clone, Copy, Debug, PartialEq, Eq, PartialOrd, Ord, Hash)]
pub struct UtcTime {
    date_time: DateTime,
}

impl Model for UtcTime {
    ghost Value = { CivilTime };

    ghost view = { λ t. t.date_time };

    ghost invariant = { λ t. t.date_time.year ≤ 2049 };

    ghost inverse = { λ c. record { date_time = c } };
}

impl UtcTime {
    /// The last year that UTCTime has (RFC 5280 4.1.2.5.1).
    pub const MAX_YEAR: u16 = 2049;

    /// The date-time, to be encoded as UTCTime.
    ///
    /// # Errors
    ///
    /// `Value` exactly after the year 2049.
    pub fn from_date_time(date_time: DateTime) -> Result<UtcTime, Error>
        ensures succeeds { IsOk result ↔ (date_time.year ≤ 2049) }
        ensures last_year { UtcTime.MAX_YEAR ≡ 2049 }
        ensures value { IfOk result (λ t. t ≡ date_time) }
        ensures refused { IfErr result (λ e. e.kind ≡ Value) }
    {
        if date_time.year() > UtcTime::MAX_YEAR {
            return Err(ErrorKind::Value.into());
        }
        Ok(UtcTime { date_time })
    }

    /// The date-time `duration` after 1970-01-01T00:00:00Z. A fraction of a second is dropped.
    ///
    /// # Errors
    ///
    /// `Value` exactly after the year 2049.
    pub fn from_unix_duration(duration: Duration) -> Result<UtcTime, Error>
        ensures succeeds { IsOk result ↔ (whole_seconds duration ≤ unix_seconds last_utc_time) }
        ensures found { IfOk result (λ t. IsUtcTime t × (unix_seconds t ≡ whole_seconds duration)) }
        ensures every { (c : CivilTime) → IsUtcTime c → unix_seconds c ≡ whole_seconds duration → result ≡ Ok c }
        ensures refused { IfErr result (λ e. e.kind ≡ Value) }
    {
        UtcTime::from_date_time(DateTime::from_unix_duration(duration)?)
    }

    /// The date-time.
    pub fn to_date_time(&self) -> DateTime
        ensures value { result ≡ self.now }
        ensures year { result.year ≤ 2049 }
    {
        self.date_time
    }

    /// The time since 1970-01-01T00:00:00Z.
    pub fn to_unix_duration(&self) -> Duration
        ensures { as_nanos result ≡ unix_seconds self.now * 1_000_000_000 }
    {
        self.date_time.unix_duration()
    }

    /// The content octets, `YYMMDDHHMMSSZ` (X.690 11.8).
    #[tactic(auto, unfolding(crate::specs::TimeText::utc_time_octets))]
    pub fn content(&self) -> [u8; 13]
        ensures octets { result ≡ utc_time_octets self.now }
        ensures good { IsUtcTime self.now }
    {
        let date_time = self.date_time;
        let year = (date_time.year() % 100) as u8;
        let month = date_time.month();
        let day = date_time.day();
        let hour = date_time.hour();
        let minutes = date_time.minutes();
        let seconds = date_time.seconds();
        [
            tens(year),
            ones(year),
            tens(month),
            ones(month),
            tens(day),
            ones(day),
            tens(hour),
            ones(hour),
            tens(minutes),
            ones(minutes),
            tens(seconds),
            ones(seconds),
            b'Z',
        ]
    }

    /// The value with these content octets. The years 70 to 99 are from 1970 on, 00 to 49 from 2000 on.
    ///
    /// # Errors
    ///
    /// `Malformed` exactly where no value has them.
    pub fn from_content(content: &[u8]) -> Result<UtcTime, Error>
        ensures reads { Reads IsUtcTime utc_time_octets Malformed content.now result }
        ensures answers { Answers result (utc_time_reading content.now) }
    {
        if content.len() != 13 || content[12] != b'Z' {
            return Err(ErrorKind::Malformed.into());
        }
        let Ok(date_time) = from_month(full_year(number_at(content, 0)), content, 2) else {
            return Err(ErrorKind::Malformed.into());
        };
        match UtcTime::from_date_time(date_time) {
            Ok(time) => Ok(time),
            Err(_) => Err(ErrorKind::Malformed.into()),
        }
    }
}

// The year of two digits. What would be a year from 1950 to 1969 has no date-time.
fn full_year(number: u8) -> u16
    ensures { result ≡ reading.full_year number }
{
    if number < 50 {
        2000 + number as u16
    } else {
        1900 + number as u16
    }
}

impl fmt::Display for UtcTime {
    ghost output = { λ t. Some (date_time_text t) };

    fn fmt<W: fmt::Write>(&self, f: &mut fmt::Formatter<W>) -> fmt::Result {
        let date_time = self.date_time;
        write!(f, "{date_time}")
    }
}
