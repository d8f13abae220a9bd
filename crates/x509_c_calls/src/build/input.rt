//! What the calls take.

ghost use Rattle.std.specs.Prelude.{◌≡◌, ◌⊎◌, ◌<◌, ◌≤◌, IfErr, OnOk, MatchResult};
ghost use Rattle.x509_base.specs.CivilTime.{last_date_time, unix_seconds};
ghost use Rattle.x509_base.specs.Time.{IsTimeAt};
ghost use Rattle.x509_c_calls.specs.Input.{RefusesEach, RefusesOrder, SpellEach, unless_empty};
ghost use Rattle.x509_c_calls.specs.declared.status.status.Status.TheVariants.{Refused, Repeated};
ghost use Rattle.x509_der.specs.declared.error.ErrorKind.TheVariants.{Memory, Value};
ghost use Rattle.x509_ext.specs.LookUp.{IsRepeated};

use crate::Status;
use std::alloc::Global;
use std::time::Duration;
use x509_base::{DateTime, Time};
use x509_der::{Decode, ErrorKind, read_members};
use x509_ext::{Extension, Extensions, has_repeated_extension};

/// The values whose encodings the bytes are, one after the other.
///
/// # Errors
///
/// `Malformed`, or an error of the type's own, exactly where the bytes are no such encodings. `Memory` when out of
/// memory.
pub(crate) fn read_each<T: Decode + Drop>(alloc: Global, bytes: &[u8]) -> Result<Vec<T>, ErrorKind>
    ensures { MatchResult result (λ values. SpellEach T.form values.items bytes.now) (λ e. (e ≡ Memory) ⊎ RefusesEach T.form T.refuses bytes.now e) }
{
    match read_members::<T>(alloc, bytes) {
        Ok(values) => Ok(values),
        Err(e) => Err(e.kind()),
    }
}

/// The time that many seconds after 1970-01-01T00:00:00Z: a UTCTime through 2049, else a GeneralizedTime (RFC 5280
/// 4.1.2.5).
///
/// # Errors
///
/// `Value` exactly after 9999-12-31T23:59:59Z.
pub(crate) fn time_at(seconds: u64) -> Result<Time, ErrorKind>
    ensures { MatchResult result (λ time. IsTimeAt seconds time) (λ e. (e ≡ Value) × (unix_seconds last_date_time < seconds)) }
{
    match DateTime::from_unix_duration(Duration::from_secs(seconds)) {
        Ok(moment) => Ok(Time::from(moment)),
        Err(e) => Err(e.kind()),
    }
}

/// That the second moment isn't before the first.
///
/// # Errors
///
/// `Value` exactly where it is.
pub(crate) fn check_order(first: u64, second: u64) -> Result<(), ErrorKind>
    ensures { MatchResult result (λ unit. first ≤ second) (λ e. RefusesOrder first second e) }
{
    if second < first {
        return Err(ErrorKind::Value);
    }
    Ok(())
}

/// That no two of the extensions have one OID (RFC 5280 4.2).
///
/// # Errors
///
/// [`Status::Repeated`] exactly where two have. `Memory` when out of memory.
pub(crate) fn check_repeated(alloc: Global, extensions: &[Extension]) -> Result<(), Status>
    ensures ok { OnOk result (¬ IsRepeated extensions.now) }
    ensures err { IfErr result (λ status. (status ≡ Refused Memory) ⊎ ((status ≡ Repeated) × IsRepeated extensions.now)) }
{
    match has_repeated_extension(alloc, extensions) {
        Ok(false) => Ok(()),
        Ok(true) => Err(Status::Repeated),
        Err(e) => Err(e.into()),
    }
}

/// The extensions, unless there are none.
pub(crate) fn unless_empty(members: Vec<Extension>) -> Option<Extensions>
    ensures { result ≡ unless_empty members.items }
{
    if members.is_empty() {
        None
    } else {
        Some(Extensions::from(members))
    }
}
