//! A date-time of the calendar.

ghost use Rattle.std.specs.Prelude.{IsTrue, ◌+◌, ◌<◌, length, Some, pos, ◌≤ℤ◌, ◌≡◌, ◌↔◌, ◌≤◌, ◌*◌, IsOk, Ok, IfOk, IfErr};
ghost use Rattle.std.specs.Duration.{as_nanos};
ghost use Rattle.jiff_core.specs.DateTime.{civil_nanos};
ghost use Rattle.x509_base.specs.CivilTime.{CivilTime, civil_time, last_date_time, IsDateTime, unix_seconds, whole_seconds};
ghost use Rattle.x509_base.specs.Moment.{shown_time};
ghost use Rattle.x509_base.specs.TimeText.{date_time_text};
ghost use Rattle.x509_base.specs.TimeReading.{Reads, time_from_month};
ghost use Rattle.x509_der.specs.declared.error.ErrorKind.TheVariants.{Failed, Value};

use crate::time::digits::{long_number_at, number_at, ones, tens};
use jiff_core::civil;
use std::fmt;
use std::marker::Model;
use std::str::FromStr;
use std::time::Duration;
use x509_der::{Error, ErrorKind};

/// A date and a time of day in Coordinated Universal Time, from 1970 to 9999.
#[derive(Clone, Copy, Debug, PartialEq, Eq, PartialOrd, Ord, Hash)]
pub struct DateTime {
    year: u16,
    month: u8,
    day: u8,
    hour: u8,
    minutes: u8,
    seconds: u8,
}

impl Model for DateTime {
    ghost Value = { CivilTime };

    ghost view = { λ d. civil_time d.year d.month d.day d.hour d.minutes d.seconds };

    ghost invariant = { λ d. IsDateTime
        (civil_time d.year d.month d.day d.hour d.minutes d.seconds) };

    ghost inverse = { λ c. record { year = c.year; month = c.month; day = c.day; hour = c.hour; minutes = c.minutes; seconds = c.seconds } };
}

impl DateTime {
    /// 9999-12-31T23:59:59Z, which means no expiry (RFC 5280 4.1.2.5).
    pub const INFINITY: DateTime = DateTime {
        year: 9999,
        month: 12,
        day: 31,
        hour: 23,
        minutes: 59,
        seconds: 59,
    };

    /// The date-time with these parts.
    ///
    /// # Errors
    ///
    /// `Value` exactly where the calendar or a clock has no such date-time, or the year is not from 1970 to 9999.
    #[inline(always)]
    pub fn new(
        year: u16,
        month: u8,
        day: u8,
        hour: u8,
        minutes: u8,
        seconds: u8,
    ) -> Result<DateTime, Error>
        ensures succeeds { IsOk result ↔ IsDateTime (civil_time year month day hour minutes seconds) }
        ensures value { IfOk result (λ d. d ≡ civil_time year month day hour minutes seconds) }
        ensures refused { IfErr result (λ e. e.kind ≡ Value) }
    {
        if year < 1970 || year > 9999 || month > 12 || day > 31 {
            return Err(ErrorKind::Value.into());
        }
        if hour > 23 || minutes > 59 || seconds > 59 {
            return Err(ErrorKind::Value.into());
        }
        if civil::Date::new(year as i16, month as i8, day as i8).is_err() {
            return Err(ErrorKind::Value.into());
        }
        Ok(DateTime {
            year,
            month,
            day,
            hour,
            minutes,
            seconds,
        })
    }

    /// Whether this is [`DateTime::INFINITY`].
    pub fn is_infinity(&self) -> bool
        ensures { IsTrue result ↔ (self.now ≡ last_date_time) }
    {
        *self == DateTime::INFINITY
    }

    /// The date-time `duration` after 1970-01-01T00:00:00Z. A fraction of a second is dropped.
    ///
    /// # Errors
    ///
    /// `Value` exactly after [`DateTime::INFINITY`].
    pub fn from_unix_duration(duration: Duration) -> Result<DateTime, Error>
        ensures succeeds { IsOk result
            ↔ (whole_seconds duration ≤ unix_seconds last_date_time) }
        ensures found { IfOk result
            (λ d. IsDateTime d × (unix_seconds d ≡ whole_seconds duration)) }
        ensures every { (d : CivilTime) → IsDateTime d → unix_seconds d ≡ whole_seconds duration
            → result ≡ Ok d }
        ensures refused { IfErr result (λ e. e.kind ≡ Value) }
    {
        let Ok(moment) = civil::DateTime::from_nanosecond(duration.as_nanos() as i128) else {
            return Err(ErrorKind::Value.into());
        };
        Ok(DateTime::at(moment))
    }

    // The date-time that a clock shows, without the fraction of a second.
    fn at(moment: civil::DateTime) -> DateTime
        requires { pos 1970 ≤ℤ moment.date.year }
        ensures { result ≡ shown_time moment }
    {
        DateTime {
            year: moment.date.year as u16,
            month: moment.date.month,
            day: moment.date.day,
            hour: moment.time.hour,
            minutes: moment.time.minute,
            seconds: moment.time.second,
        }
    }

    // The clock that shows this date-time.
    fn moment(&self) -> civil::DateTime
        ensures { civil_nanos result ≡ pos (unix_seconds self.now * 1_000_000_000) }
    {
        civil::DateTime {
            date: civil::Date {
                year: self.year as i16,
                month: self.month,
                day: self.day,
            },
            time: civil::Time {
                hour: self.hour,
                minute: self.minutes,
                second: self.seconds,
                subsec_nanosecond: 0,
            },
        }
    }

    /// The time since 1970-01-01T00:00:00Z.
    pub fn unix_duration(&self) -> Duration
        ensures { as_nanos result ≡ unix_seconds self.now * 1_000_000_000 }
    {
        Duration::from_secs(self.moment().to_second() as u64)
    }

    // The seconds since 1970-01-01T00:00:00Z.
    pub(crate) fn unix_seconds(&self) -> u64
        ensures { result ≡ unix_seconds self.now }
    {
        self.unix_duration().as_secs()
    }

    // The characters of the text, `YYYY-MM-DDTHH:MM:SSZ`.
    #[tactic(auto, unfolding(crate::specs::TimeText::date_time_text))]
    fn text(&self) -> [u8; 20]
        ensures { result ≡ date_time_text self.now }
    {
        let century = (self.year / 100) as u8;
        let year = (self.year % 100) as u8;
        [
            tens(century),
            ones(century),
            tens(year),
            ones(year),
            b'-',
            tens(self.month),
            ones(self.month),
            b'-',
            tens(self.day),
            ones(self.day),
            b'T',
            tens(self.hour),
            ones(self.hour),
            b':',
            tens(self.minutes),
            ones(self.minutes),
            b':',
            tens(self.seconds),
            ones(self.seconds),
            b'Z',
        ]
    }

    /// The year, from 1970 to 9999.
    pub fn year(&self) -> u16
        ensures value { result ≡ self.now.year }
        ensures real { IsDateTime self.now }
    {
        self.year
    }

    /// The month, from 1 to 12.
    pub fn month(&self) -> u8
        ensures { result ≡ self.now.month }
    {
        self.month
    }

    /// The day of the month, from 1.
    pub fn day(&self) -> u8
        ensures { result ≡ self.now.day }
    {
        self.day
    }

    /// The hour, from 0 to 23.
    pub fn hour(&self) -> u8
        ensures { result ≡ self.now.hour }
    {
        self.hour
    }

    /// The minutes of the hour, from 0 to 59.
    pub fn minutes(&self) -> u8
        ensures { result ≡ self.now.minutes }
    {
        self.minutes
    }

    /// The seconds of the minute, from 0 to 59.
    pub fn seconds(&self) -> u8
        ensures { result ≡ self.now.seconds }
    {
        self.seconds
    }
}

/// The date-time of a year whose month, day, hour, minutes and seconds stand from a place on, as two
/// digits each.
#[inline(always)]
pub(crate) fn from_month(year: u16, bytes: &[u8], place: usize) -> Result<DateTime, Error>
    requires { place + 9 < length bytes.now }
    ensures succeeds { IsOk result ↔ IsDateTime (time_from_month year bytes.now place) }
    ensures value { IfOk result (λ d. d ≡ time_from_month year bytes.now place) }
{
    DateTime::new(
        year,
        number_at(bytes, place),
        number_at(bytes, place + 2),
        number_at(bytes, place + 4),
        number_at(bytes, place + 6),
        number_at(bytes, place + 8),
    )
}

impl fmt::Display for DateTime {
    ghost output = { λ d. Some (date_time_text d) };

    fn fmt<W: fmt::Write>(&self, f: &mut fmt::Formatter<W>) -> fmt::Result {
        let year = self.year;
        let month = self.month;
        let day = self.day;
        let hour = self.hour;
        let minutes = self.minutes;
        let seconds = self.seconds;
        write!(
            f,
            "{year:04}-{month:02}-{day:02}T{hour:02}:{minutes:02}:{seconds:02}Z"
        )
    }
}

impl FromStr for DateTime {
    type Err = Error;

    ghost from_str_gives = { Reads IsDateTime date_time_text Failed };

    /// The date-time with this text, `YYYY-MM-DDTHH:MM:SSZ`.
    ///
    /// # Errors
    ///
    /// `Failed` where the text is a bad one: no date-time has it.
    fn from_str(text: &str) -> Result<DateTime, Error> {
        let bytes = text.as_bytes();
        if bytes.len() != 20 {
            return Err(ErrorKind::Failed.into());
        }
        let Ok(date_time) = DateTime::new(
            long_number_at(bytes, 0),
            number_at(bytes, 5),
            number_at(bytes, 8),
            number_at(bytes, 11),
            number_at(bytes, 14),
            number_at(bytes, 17),
        ) else {
            return Err(ErrorKind::Failed.into());
        };
        if date_time.text().as_slice() != bytes {
            return Err(ErrorKind::Failed.into());
        }
        Ok(date_time)
    }
}
