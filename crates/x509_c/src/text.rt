//! Texts of serial numbers and of times, and the version.

ghost use Rattle.std.specs.Prelude.{◌≡◌, ◌≤◌, []};
ghost use Rattle.x509_base.specs.CivilTime.{last_date_time, unix_seconds};
ghost use Rattle.x509_c_calls.specs.Decimals.{IsDecimalText};
ghost use Rattle.x509_c_calls.specs.StatusTexts.{IsStatusText};
ghost use Rattle.x509_c_calls.specs.StringTexts.{IsStringText};
ghost use Rattle.x509_c_calls.specs.Texts.{IsSerialText, IsTimeText, ReadsMoment};
ghost use Rattle.x509_c_calls.specs.Place.{IsAt};
ghost use Rattle.x509_c_calls.specs.Calls.{Reads};
ghost use Rattle.x509_c_calls.specs.Status.{Fills, Tells};
ghost use Rattle.x509_c_calls.specs.declared.status.status.Status.TheVariants.{Refused};
ghost use Rattle.x509_der.specs.declared.error.ErrorKind.TheVariants.{Memory};

use std::alloc::Global;
use x509_base::{Rfc5280, SerialNumber};
use x509_c_calls::{
    Span, content, decimal_text, serial_text, status_text, string_text, time_from_text, time_text,
};
use x509_der::Grammar;

/// Reads a serial number under the rules of RFC 5280, and fills in where its content octets stand.
#[unsafe(no_mangle)]
pub extern "C" fn x509_serial_number(alloc: Global, input: &[u8], found: &mut Span) -> i32
    ensures { Tells (λ status. Reads ⟦<SerialNumber<Rfc5280> as Grammar>⟧.form ⟦<SerialNumber<Rfc5280> as Grammar>⟧.refuses input.now
        (λ serial. IsAt serial [] input.now found.new) (found.new ≡ found.old) status) result }
{
    content::<SerialNumber<Rfc5280>>(alloc, input, found).code()
}

/// Puts the hex text of the serial number with these content octets at the front of the room.
#[unsafe(no_mangle)]
pub extern "C" fn x509_serial_text(
    alloc: Global,
    content: &[u8],
    room: &mut [u8],
    written: &mut usize,
) -> i32
    ensures { Tells (λ status. Fills (λ answer. IsSerialText content.now answer) room.old room.new written.old written.new status) result }
{
    serial_text(alloc, content, room, written).code()
}

/// Puts the whole number of these content octets of an INTEGER in decimal digits at the front of the room. It takes no
/// memory.
#[unsafe(no_mangle)]
pub extern "C" fn x509_serial_decimal(content: &[u8], room: &mut [u8], written: &mut usize) -> i32
    ensures { Tells (λ status. Fills (IsDecimalText content.now) room.old room.new written.old written.new status × (status ≡ Refused Memory → ⊥)) result }
{
    decimal_text(content, room, written).code()
}

/// Puts the text of a moment, in seconds since 1970-01-01T00:00:00Z, at the front of the room.
#[unsafe(no_mangle)]
pub extern "C" fn x509_time_text(
    alloc: Global,
    moment: u64,
    room: &mut [u8],
    written: &mut usize,
) -> i32
    ensures { Tells (λ status. Fills (λ answer. IsTimeText moment answer) room.old room.new written.old written.new status
        × (status ≡ Refused Memory → moment ≤ unix_seconds last_date_time)) result }
{
    time_text(alloc, moment, room, written).code()
}

/// Reads the text of a moment, and fills in its seconds since 1970-01-01T00:00:00Z.
#[unsafe(no_mangle)]
pub extern "C" fn x509_time_from_text(text: &[u8], moment: &mut u64) -> i32
    ensures { Tells (λ status. ReadsMoment text.now moment.old moment.new status) result }
{
    time_from_text(text, moment).code()
}

/// Reads a character string, and puts its text in UTF-8 at the front of the room.
#[unsafe(no_mangle)]
pub extern "C" fn x509_string_text(
    alloc: Global,
    input: &[u8],
    room: &mut [u8],
    written: &mut usize,
) -> i32
    ensures { Tells (λ status. Fills (IsStringText input.now) room.old room.new written.old written.new status) result }
{
    string_text(alloc, input, room, written).code()
}

/// Puts what the status with that number means, in a few words, at the front of the room.
#[unsafe(no_mangle)]
pub extern "C" fn x509_status_text(status: i32, room: &mut [u8], written: &mut usize) -> i32
    ensures { Tells (λ answer. Fills (λ text. IsStatusText status text) room.old room.new written.old written.new answer
        × (answer ≡ Refused Memory → ⊥)) result }
{
    status_text(status, room, written).code()
}

/// The version of the library: 65,536 times the first number, 256 times the second, and the third.
#[unsafe(no_mangle)]
pub extern "C" fn x509_version() -> u32
    ensures { result ≡ 256 }
{
    0x0000_0100
}
