//! GeneralizedTime.

ghost use Rattle.std.specs.Prelude.{◌≡◌, ◌↔◌, ◌≤◌, ◌*◌, Some, Ok, IsOk, IfOk, IfErr};
ghost use Rattle.std.specs.Duration.{as_nanos};
ghost use Rattle.x509_base.specs.CivilTime.{CivilTime, IsDateTime, last_date_time, unix_seconds, whole_seconds};
ghost use Rattle.x509_base.specs.TimeText.{date_time_text, generalized_time_octets};
ghost use Rattle.x509_base.specs.TimeReading.{Reads, generalized_time_reading};
ghost use Rattle.x509_der.specs.Outcome.{Answers};
ghost use Rattle.x509_der.specs.declared.error.ErrorKind.TheVariants.{Malformed, Value};

use crate::date_time::{DateTime, from_month};
use crate::time::digits::{long_number_at, ones, tens};
use std::fmt;
use std::marker::Model;
use std::time::Duration;
use x509_der::{Error, ErrorKind};

/// A date-time from 1970 to 9999 that is encoded as GeneralizedTime (RFC 5280 4.1.2.5.2).
#[derive(Clone, Copy, Debug, PartialEq, Eq, PartialOrd, Ord, Hash)]
pub struct GeneralizedTime {
    date_time: DateTime,
}

impl Model for GeneralizedTime {
    ghost Value = { CivilTime };

    ghost view = { λ t. t.date_time };

    ghost inverse = { λ c. record { date_time = c } };
}

impl GeneralizedTime {
    /// 9999-12-31T23:59:59Z, which means no expiry (RFC 5280 4.1.2.5).
    pub const INFINITY: GeneralizedTime = GeneralizedTime {
        date_time: DateTime::INFINITY,
    };

    /// The date-time, to be encoded as GeneralizedTime.
    pub fn from_date_time(date_time: DateTime) -> GeneralizedTime
        ensures { result ≡ date_time }
    {
        GeneralizedTime { date_time }
    }

    /// The date-time `duration` after 1970-01-01T00:00:00Z. A fraction of a second is dropped.
    ///
    /// # Errors
    ///
    /// `Value` exactly after [`GeneralizedTime::INFINITY`].
    pub fn from_unix_duration(duration: Duration) -> Result<GeneralizedTime, Error>
        ensures succeeds { IsOk result ↔ (whole_seconds duration ≤ unix_seconds last_date_time) }
        ensures found { IfOk result (λ t. IsDateTime t × (unix_seconds t ≡ whole_seconds duration)) }
        ensures every { (c : CivilTime) → IsDateTime c → unix_seconds c ≡ whole_seconds duration → result ≡ Ok c }
        ensures refused { IfErr result (λ e. e.kind ≡ Value) }
    {
        Ok(GeneralizedTime::from_date_time(DateTime::from_unix_duration(duration)?))
    }

    /// The date-time.
    pub fn to_date_time(&self) -> DateTime
        ensures { result ≡ self.now }
    {
        self.date_time
    }

    /// The time since 1970-01-01T00:00:00Z.
    pub fn to_unix_duration(&self) -> Duration
        ensures { as_nanos result ≡ unix_seconds self.now * 1_000_000_000 }
    {
        self.date_time.unix_duration()
    }

    /// The content octets, `YYYYMMDDHHMMSSZ` (X.690 11.7).
    #[tactic(auto, unfolding(crate::specs::TimeText::generalized_time_octets))]
    pub fn content(&self) -> [u8; 15]
        ensures octets { result ≡ generalized_time_octets self.now }
        ensures good { IsDateTime self.now }
    {
        let date_time = self.date_time;
        let century = (date_time.year() / 100) as u8;
        let year = (date_time.year() % 100) as u8;
        let month = date_time.month();
        let day = date_time.day();
        let hour = date_time.hour();
        let minutes = date_time.minutes();
        let seconds = date_time.seconds();
        [
            tens(century),
            ones(century),
            tens(year),
            ones(year),
            tens(month),
            ones(month),
            tens(day),
            ones(day),
            tens(hour),
            ones(hour),
            tens(minutes),
            ones(minutes),
            tens(seconds),
            ones(seconds),
            b'Z',
        ]
    }

    /// The value with these content octets.
    ///
    /// # Errors
    ///
    /// `Malformed` exactly where no value has them.
    pub fn from_content(content: &[u8]) -> Result<GeneralizedTime, Error>
        ensures reads { Reads IsDateTime generalized_time_octets Malformed content.now result }
        ensures answers { Answers result (generalized_time_reading content.now) }
    {
        if content.len() != 15 || content[14] != b'Z' {
            return Err(ErrorKind::Malformed.into());
        }
        let Ok(date_time) = from_month(long_number_at(content, 0), content, 4) else {
            return Err(ErrorKind::Malformed.into());
        };
        Ok(GeneralizedTime::from_date_time(date_time))
    }
}

impl fmt::Display for GeneralizedTime {
    ghost output = { λ t. Some (date_time_text t) };

    fn fmt<W: fmt::Write>(&self, f: &mut fmt::Formatter<W>) -> fmt::Result {
        let date_time = self.date_time;
        write!(f, "{date_time}")
    }
}

impl From<DateTime> for GeneralizedTime {
    ghost from_gives = { λ d t. t ≡ d };

    fn from(date_time: DateTime) -> GeneralizedTime {
        GeneralizedTime::from_date_time(date_time)
    }
}

impl From<&DateTime> for GeneralizedTime {
    ghost from_gives = { λ d t. t ≡ d.now };

    fn from(date_time: &DateTime) -> GeneralizedTime {
        GeneralizedTime::from_date_time(*date_time)
    }
}

impl From<GeneralizedTime> for DateTime {
    ghost from_gives = { λ t d. d ≡ t };

    fn from(time: GeneralizedTime) -> DateTime {
        time.date_time
    }
}

impl From<&GeneralizedTime> for DateTime {
    ghost from_gives = { λ t d. d ≡ t.now };

    fn from(time: &GeneralizedTime) -> DateTime {
        time.to_date_time()
    }
}
