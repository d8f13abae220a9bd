//! A date of a certificate.

ghost use Rattle.std.specs.Prelude.{◌≡◌, ◌*◌, Some, Ok};
ghost use Rattle.std.specs.Duration.{as_nanos};
ghost use Rattle.std.specs.Ordering.{nat_cmp};
ghost use Rattle.x509_base.specs.CivilTime.{unix_seconds};
ghost use Rattle.x509_base.specs.TimeText.{date_time_text};
ghost use Rattle.x509_base.specs.Time.{date_time_of, time_at, ReadsTime};
ghost use Rattle.x509_base.specs.declared.time.Time.TheVariants as times;

use crate::{DateTime, GeneralizedTime, UtcTime};
use std::alloc::Global;
use std::cmp::Ordering;
use std::fmt;
use std::str::FromStr;
use std::time::Duration;
use x509_der::{
    Decode, Encode, EncodingOrd, Error, Grammar, Room, SetMember, SetOrd, Spelled, Tag, TryClone,
    ValueOrd,
};

pub(crate) mod codec;
pub(crate) mod digits;

/// A date-time, and how it is encoded (RFC 5280 4.1.2.5).
///
/// ```text
/// Time ::= CHOICE {
///     utcTime      UTCTime,
///     generalTime  GeneralizedTime }
/// ```
#[derive(Clone, Copy, Debug, PartialEq, Eq)]
pub enum Time {
    /// UTCTime: a year of two digits, through 2049.
    UtcTime(UtcTime),

    /// GeneralizedTime: a year of four digits.
    GeneralTime(GeneralizedTime),
}

impl Time {
    /// 9999-12-31T23:59:59Z, which means no expiry (RFC 5280 4.1.2.5).
    pub const INFINITY: Time = Time::GeneralTime(GeneralizedTime::INFINITY);

    /// The time since 1970-01-01T00:00:00Z.
    pub fn to_unix_duration(self) -> Duration
        ensures { as_nanos result ≡ unix_seconds (date_time_of self) * 1_000_000_000 }
    {
        self.to_date_time().unix_duration()
    }

    /// The date-time, however it is encoded.
    pub fn to_date_time(&self) -> DateTime
        ensures { result ≡ date_time_of self.now }
    {
        match self {
            Time::UtcTime(time) => time.to_date_time(),
            Time::GeneralTime(time) => time.to_date_time(),
        }
    }

    /// The order of the two moments, however each is encoded. Two times of one moment in two encodings are `Equal`
    /// here, but not the same value by `==`, so `Time` has no `Ord`.
    pub fn cmp_moments(&self, other: &Time) -> Ordering
        ensures { result ≡ nat_cmp (unix_seconds (date_time_of self.now)) (unix_seconds (date_time_of other.now)) }
    {
        let this = self.to_date_time().unix_seconds();
        let that = other.to_date_time().unix_seconds();
        this.cmp(&that)
    }
}

impl fmt::Display for Time {
    ghost output = { λ t. Some (date_time_text (date_time_of t)) };

    fn fmt<W: fmt::Write>(&self, f: &mut fmt::Formatter<W>) -> fmt::Result {
        let date_time = self.to_date_time();
        write!(f, "{date_time}")
    }
}

impl From<UtcTime> for Time {
    ghost from_gives = { λ c t. t ≡ times.UtcTime c };

    fn from(time: UtcTime) -> Time {
        Time::UtcTime(time)
    }
}

impl From<GeneralizedTime> for Time {
    ghost from_gives = { λ c t. t ≡ times.GeneralTime c };

    fn from(time: GeneralizedTime) -> Time {
        Time::GeneralTime(time)
    }
}

impl From<DateTime> for Time {
    ghost from_gives = { λ c t. t ≡ time_at c };

    fn from(date_time: DateTime) -> Time {
        match UtcTime::from_date_time(date_time) {
            Ok(time) => Time::UtcTime(time),
            Err(_) => Time::GeneralTime(GeneralizedTime::from_date_time(date_time)),
        }
    }
}

impl FromStr for Time {
    type Err = Error;

    ghost from_str_gives = { ReadsTime };

    /// The date-time with this text, `YYYY-MM-DDTHH:MM:SSZ`: as UTCTime through 2049, else as GeneralizedTime.
    ///
    /// # Errors
    ///
    /// `Failed` where the text is a bad one: no date-time has it.
    fn from_str(text: &str) -> Result<Time, Error> {
        let date_time = DateTime::from_str(text)?;
        Ok(Time::from(date_time))
    }
}

impl TryClone for Time {
    fn try_clone(&self, _alloc: Global) -> Result<Time, Error>
        ensures { result ≡ Ok self.now }
    {
        Ok(*self)
    }
}

#[tactic(auto, unfolding(x509_der::specs::Choice::by_case))]
impl Grammar for Time {
    ghost use Rattle.x509_base.specs.Time as grammar;

    ghost form = { grammar.time };

    fn identifier(&self) -> Tag {
        match self {
            Time::UtcTime(time) => time.identifier(),
            Time::GeneralTime(time) => time.identifier(),
        }
    }

    fn is_start(octet: u8) -> bool {
        UtcTime::is_start(octet) || GeneralizedTime::is_start(octet)
    }

    fn usual() -> Tag {
        Tag::UtcTime
    }

    ghost lawful = { grammar.time_lawful };
}

#[tactic(auto, unfolding(x509_der::specs::Choice::either_reading))]
impl Decode for Time {
    ghost wants_memory = { ⊥ };

    fn read(alloc: Global, tag: u8, content: &[u8]) -> Result<Time, Error> {
        if UtcTime::is_start(tag) {
            Ok(Time::UtcTime(UtcTime::read(alloc, tag, content)?))
        } else {
            Ok(Time::GeneralTime(GeneralizedTime::read(alloc, tag, content)?))
        }
    }
}

#[tactic(auto, unfolding(x509_der::specs::Choice::by_case))]
impl Encode for Time {
    ghost use Rattle.std.specs.Prelude.{refl};

    fn put_content<R: Room>(&self, room: &mut R) -> Result<(), Error> {
        match self {
            Time::UtcTime(time) => time.put_content(room),
            Time::GeneralTime(time) => time.put_content(room),
        }
    }

    ghost same_tag = { λ value. refl };
}

#[tactic(auto, unfolding(x509_der::specs::Choice::either_good))]
impl Spelled for Time {
    fn has_spelling(&self) {
        match self {
            Time::UtcTime(time) => time.has_spelling(),
            Time::GeneralTime(time) => time.has_spelling(),
        }
    }
}

impl ValueOrd for Time {
    ghost use Rattle.x509_der.specs.Writing.{plain, writes};
    ghost use Rattle.x509_base.specs.TimeOrder.{time_order, time_ordered};

    ghost order = { time_order };

    fn value_cmp(&self, other: &Time) -> Ordering {
        match (self, other) {
            (Time::UtcTime(a), Time::UtcTime(b)) => a.content().cmp(&b.content()),
            (Time::UtcTime(a), Time::GeneralTime(b)) => {
                a.content().as_slice().cmp(b.content().as_slice())
            }
            (Time::GeneralTime(a), Time::UtcTime(b)) => {
                a.content().as_slice().cmp(b.content().as_slice())
            }
            (Time::GeneralTime(a), Time::GeneralTime(b)) => a.content().cmp(&b.content()),
        }
    }

    ghost ordered = { time_ordered (writes plain) };
}

impl SetOrd for Time {
    ghost set_order = { ⟦<Time as EncodingOrd>⟧.encoding_order };
}

impl SetMember for Time {
    ghost use Rattle.std.specs.Prelude.{refl};

    ghost in_der_order = { refl };
}

impl ValueOrd for UtcTime {
    ghost use Rattle.x509_base.specs.TimeOrder.{as_times, utc_time_ordered};

    ghost order = { as_times times.UtcTime };

    fn value_cmp(&self, other: &UtcTime) -> Ordering {
        Time::UtcTime(*self).value_cmp(&Time::UtcTime(*other))
    }

    ghost ordered = { utc_time_ordered };
}

impl SetOrd for UtcTime {
    ghost set_order = { ⟦<UtcTime as EncodingOrd>⟧.encoding_order };
}

impl SetMember for UtcTime {
    ghost use Rattle.std.specs.Prelude.{refl};

    ghost in_der_order = { refl };
}

impl ValueOrd for GeneralizedTime {
    ghost use Rattle.x509_base.specs.TimeOrder.{as_times, generalized_time_ordered};

    ghost order = { as_times times.GeneralTime };

    fn value_cmp(&self, other: &GeneralizedTime) -> Ordering {
        Time::GeneralTime(*self).value_cmp(&Time::GeneralTime(*other))
    }

    ghost ordered = { generalized_time_ordered };
}

impl SetOrd for GeneralizedTime {
    ghost set_order = { ⟦<GeneralizedTime as EncodingOrd>⟧.encoding_order };
}

impl SetMember for GeneralizedTime {
    ghost use Rattle.std.specs.Prelude.{refl};

    ghost in_der_order = { refl };
}
