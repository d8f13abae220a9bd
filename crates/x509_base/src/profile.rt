//! Which serial numbers a certificate may have, and how its dates are encoded.

use crate::UtcTime;
use crate::time::Time;
use std::fmt::Debug;
use x509_der::{Error, ErrorKind};

/// The rules for serial numbers and validity beyond their grammar. A profile says what its two calls answer by two
/// definitions; no other law is asked of it.
pub trait Profile: PartialEq + Eq + PartialOrd + Ord + Debug + Clone + Copy + Default + 'static {
    ghost use Rattle.std.specs.Prelude.{ℕ, List, Result};
    ghost use Rattle.x509_der.specs.declared.error.ErrorKind.{ErrorKind};
    ghost use Rattle.x509_der.specs.Outcome.{Answers};
    ghost use Rattle.x509_base.specs.declared.time.Time.{Time};

    /// What the check of a serial number's content answers.
    ghost serial_check: { List ℕ → Result Unit ErrorKind };

    /// How a date of a validity is encoded.
    ghost time_of: { Time → Result Time ErrorKind };

    /// Checks that a serial number may have these content octets (RFC 5280 4.1.2.2). Decoding alone calls it.
    ///
    /// # Errors
    ///
    /// The profile's own, which decoding passes on.
    fn check_serial_number(content: &[u8]) -> Result<(), Error>
        ensures { Answers result (serial_check content.now) };

    /// The date as a validity is encoded with it (RFC 5280 4.1.2.5). Encoding alone calls it.
    ///
    /// # Errors
    ///
    /// The profile's own, which encoding passes on.
    fn time_encoding(time: Time) -> Result<Time, Error>
        ensures { Answers result (time_of time) };
}

/// The rules of RFC 5280: a serial number has at most 21 content octets (the 20 of 4.1.2.2, and one in front where
/// their first bit is set), and a date through 2049 is encoded as UTCTime.
#[derive(Clone, Copy, Debug, Default, PartialEq, Eq, PartialOrd, Ord)]
pub struct Rfc5280;

impl Profile for Rfc5280 {
    ghost use Rattle.std.specs.Prelude.{Ok};
    ghost use Rattle.x509_base.specs.Profiles as profiles;

    ghost serial_check = { profiles.rfc5280_serial_number };

    ghost time_of = { λ time. Ok (profiles.rfc5280_time time) };

    fn check_serial_number(content: &[u8]) -> Result<(), Error> {
        if content.len() > 21 {
            return Err(ErrorKind::Malformed.into());
        }
        Ok(())
    }

    fn time_encoding(time: Time) -> Result<Time, Error> {
        match time {
            Time::UtcTime(_) => Ok(time),
            Time::GeneralTime(general) => Ok(Time::from(general.to_date_time())),
        }
    }
}

/// No rules: every serial number is allowed, and dates are encoded as they are.
#[derive(Clone, Copy, Debug, Default, PartialEq, Eq, PartialOrd, Ord)]
pub struct Raw;

impl Profile for Raw {
    ghost use Rattle.std.specs.Prelude.{Ok};

    ghost serial_check = { λ content. Ok tt };

    ghost time_of = { λ time. Ok time };

    fn check_serial_number(_content: &[u8]) -> Result<(), Error> {
        Ok(())
    }

    fn time_encoding(time: Time) -> Result<Time, Error> {
        Ok(time)
    }
}
