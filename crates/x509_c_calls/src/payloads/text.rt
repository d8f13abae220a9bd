//! Texts of serial numbers and of times.

ghost use Rattle.std.specs.Prelude.{◌≡◌, ◌≤◌, ◌⊎◌, true, false, IfOk, IfErr};
ghost use Rattle.x509_base.specs.CivilTime.{last_date_time, unix_seconds};
ghost use Rattle.x509_c_calls.specs.Texts.{IsSerialText, IsTimeText, ReadsMoment};
ghost use Rattle.x509_c_calls.specs.Status.{Fills};
ghost use Rattle.x509_c_calls.specs.declared.status.status.Status.TheVariants.{Refused};
ghost use Rattle.x509_der.specs.declared.error.ErrorKind.TheVariants.{Malformed, Memory};
ghost use Rattle.x509_prim.specs.Integer.{is_integer};

use crate::named::text_of;
use crate::{Status, fill};
use std::alloc::Global;
use std::str::FromStr;
use std::time::Duration;
use x509_base::{DateTime, Raw, SerialNumber};
use x509_der::{Decode, ErrorKind, Tag};
use x509_prim::Int;

/// Checks that the octets are the content octets of an INTEGER: else `Malformed`, and `Memory` only where they are.
fn check_integer(alloc: Global, content: &[u8]) -> Result<(), ErrorKind>
    ensures ok { IfOk result (λ done. is_integer content.now ≡ true) }
    ensures err { IfErr result (λ e. ((e ≡ Memory) × (is_integer content.now ≡ true)) ⊎ ((e ≡ Malformed) × (is_integer content.now ≡ false))) }
{
    match Int::new(alloc, content) {
        Ok(_) => Ok(()),
        Err(e) if e.kind() == ErrorKind::Value => Err(ErrorKind::Malformed),
        Err(_) => Err(ErrorKind::Memory),
    }
}

/// The serial number that has these content octets. Refused as by [`check_integer`].
fn serial_number(alloc: Global, content: &[u8]) -> Result<SerialNumber<Raw>, ErrorKind>
    ensures ok { IfOk result (λ serial. (serial ≡ content.now) × (is_integer content.now ≡ true)) }
    ensures err { IfErr result (λ e. ((e ≡ Memory) × (is_integer content.now ≡ true)) ⊎ ((e ≡ Malformed) × (is_integer content.now ≡ false))) }
{
    check_integer(alloc, content)?;
    match <SerialNumber<Raw> as Decode>::read(alloc, Tag::Integer.octet(), content) {
        Ok(serial) => Ok(serial),
        Err(e) => Err(e.kind()),
    }
}

/// Puts the hex text of the serial number that has these content octets at the front of the room, as `12:34:AB`. `Malformed` exactly where they are those of no
/// INTEGER, and `Memory` only where they are those of one.
#[tactic(auto, unfolding(crate::specs::Status::Fills))]
pub fn serial_text(alloc: Global, content: &[u8], room: &mut [u8], written: &mut usize) -> Status
    ensures filled { Fills (λ answer. IsSerialText content.now answer) room.old room.new written.old written.new result }
    ensures memory { result ≡ Refused Memory → is_integer content.now ≡ true }
{
    let serial = match serial_number(alloc, content) {
        Ok(serial) => serial,
        Err(e) => return Status::Refused(e),
    };
    match serial.to_string(alloc) {
        Ok(text) => fill(text.as_str().as_bytes(), room, written),
        Err(_) => Status::Refused(ErrorKind::Memory),
    }
}

/// Puts the text of a moment, in seconds since 1970-01-01T00:00:00Z, at the front of the room, as `2026-01-02T03:04:05Z`. `Value` exactly after
/// 9999-12-31T23:59:59Z, and `Memory` only up to it.
#[tactic(auto, unfolding(crate::specs::Status::Fills))]
pub fn time_text(alloc: Global, moment: u64, room: &mut [u8], written: &mut usize) -> Status
    ensures filled { Fills (λ answer. IsTimeText moment answer) room.old room.new written.old written.new result }
    ensures memory { result ≡ Refused Memory → moment ≤ unix_seconds last_date_time }
{
    let date_time = match DateTime::from_unix_duration(Duration::from_secs(moment)) {
        Ok(date_time) => date_time,
        Err(e) => return e.into(),
    };
    match date_time.to_string(alloc) {
        Ok(text) => fill(text.as_str().as_bytes(), room, written),
        Err(_) => Status::Refused(ErrorKind::Memory),
    }
}

/// Reads the text of a moment, as [`time_text`] writes it, and fills in its seconds since 1970-01-01T00:00:00Z. It takes
/// no memory.
///
/// # Errors
///
/// `Failed` exactly where it is a bad text: that of no moment from 1970 to 9999. `moment` is unchanged then.
#[tactic(auto, unfolding(crate::specs::Texts::ReadsMoment))]
pub fn time_from_text(text: &[u8], moment: &mut u64) -> Status
    ensures { ReadsMoment text.now moment.old moment.new result }
{
    let Some(text) = text_of(text) else {
        return Status::Refused(ErrorKind::Failed);
    };
    match DateTime::from_str(text) {
        Ok(date_time) => {
            *moment = date_time.unix_duration().as_secs();
            Status::Done
        }
        Err(e) => e.into(),
    }
}
