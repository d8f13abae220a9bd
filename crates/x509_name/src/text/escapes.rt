//! Escapes in the text of a value (RFC 4514 section 3).

ghost use Rattle.std.specs.Prelude.{◌≡◌, ◌⊎◌, ℕ, List, IfOk, IfErr};
ghost use Rattle.std.specs.Char.{digit_value};
ghost use Rattle.x509_der.specs.declared.error.ErrorKind.TheVariants.{Failed, Memory};
ghost use Rattle.x509_name.specs.Escapes.{Unescapes, is_special, is_hex};
ghost use Rattle.x509_name.specs.Reading.{step, IsPosition};

use std::alloc::Global;
use x509_der::{Error, ErrorKind};

// Where a reader of a text stands.
#[derive(Clone, Copy)]
enum Position {
    // between two items
    Between,
    // behind the backslash of an item
    Escape,
    // behind a backslash and this hex digit
    Digit(u8),
}

// What the next byte of a text does.
#[derive(Clone, Copy)]
enum Turn {
    // an item goes on
    On(Position),
    // an item ends, and gives this byte
    Gives(u8),
    // it is of no item
    Fails,
}

// Whether a backslash escapes the character itself.
fn is_special(byte: u8) -> bool
    ensures { result ≡ is_special byte }
{
    matches!(
        byte,
        b' ' | b'"' | b'#' | b'=' | b'\\' | b'+' | b',' | b';' | b'<' | b'>'
    )
}

// The value of a digit or an ASCII letter as a digit, and else 36.
fn digit_value(byte: u8) -> u8
    ensures { result ≡ digit_value byte }
{
    match byte {
        b'0'..=b'9' => byte - b'0',
        b'A'..=b'Z' => byte - b'A' + 10,
        b'a'..=b'z' => byte - b'a' + 10,
        _ => 36,
    }
}

fn is_hex(byte: u8) -> bool
    ensures { result ≡ is_hex byte }
{
    digit_value(byte) < 16
}

fn step(position: Position, byte: u8) -> Turn
    requires { IsPosition position }
    ensures { result ≡ step position byte }
{
    match position {
        Position::Between => {
            if byte == b'\\' {
                Turn::On(Position::Escape)
            } else {
                Turn::Gives(byte)
            }
        }
        Position::Escape => {
            if is_special(byte) {
                Turn::Gives(byte)
            } else if is_hex(byte) {
                Turn::On(Position::Digit(byte))
            } else {
                Turn::Fails
            }
        }
        Position::Digit(high) => {
            if is_hex(byte) {
                Turn::Gives(16 * digit_value(high) + digit_value(byte))
            } else {
                Turn::Fails
            }
        }
    }
}

/// The bytes that a text stands for, its escapes resolved.
///
/// # Errors
///
/// `Failed` exactly where the text is a bad one, which stands for no bytes: a backslash stands at its end, or before
/// what is neither a special character nor two hex digits. `Memory` when out of memory.
pub fn unescape(alloc: Global, text: &[u8]) -> Result<Vec<u8>, Error>
    ensures ok { IfOk result (λ bytes. Unescapes text.now bytes.items) }
    ensures err { IfErr result (λ e. (e.kind ≡ Memory)
        ⊎ ((e.kind ≡ Failed) × ((bytes : List ℕ) → Unescapes text.now bytes → ⊥))) }
{
    let mut bytes = Vec::with_capacity(alloc, text.len())?;
    let mut position = Position::Between;
    for byte in text {
        match step(position, *byte) {
            Turn::On(next) => position = next,
            Turn::Gives(byte) => {
                bytes.push_reserved(byte);
                position = Position::Between;
            }
            Turn::Fails => return Err(ErrorKind::Failed.into()),
        }
    }
    match position {
        Position::Between => Ok(bytes),
        _ => Err(ErrorKind::Failed.into()),
    }
}
