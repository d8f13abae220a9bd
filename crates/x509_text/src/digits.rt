//! Octets in hex and the numbers of dates, written digit by digit.

ghost use Rattle.std.specs.Prelude.{◌≡◌, ◌∷◌, ◌++◌, ◌*◌, ◌<◌, length, OnOk, IfOk, string_bytes};
ghost use Rattle.std.specs.Fmt.{digit_glyph};
ghost use Rattle.std.specs.List.{flat_map};
ghost use Rattle.hex.specs.Hex.{encode_lower};
ghost use Rattle.x509_base.specs.Serial.{colon_hex};
ghost use Rattle.x509_base.specs.TimeText.{four_digits, two_digits};
ghost use Rattle.x509_text.specs.ColonHex.{octet_colon};

use std::alloc::{AllocError, Global};

/// The hex digit of a number, 0 to 9 and a to f, or A to F.
// It is computed, so that a compiler can take many octets at once.
fn hex_digit(is_upper: bool, number: u8) -> u8
    requires { number < 16 }
    ensures { result ≡ digit_glyph is_upper number }
{
    if number < 10 {
        b'0' + number
    } else if is_upper {
        b'A' + (number - 10)
    } else {
        b'a' + (number - 10)
    }
}

/// Writes each octet as two hex digits and a colon over three bytes.
fn fill_colon_hex(octets: &[u8], digits: &mut [u8])
    requires { length digits.old ≡ 3 * length octets.now }
    ensures { digits.new ≡ flat_map octet_colon octets.now }
{
    'octets: for i in 0..octets.len() {
        let octet = octets[i];
        digits[3 * i] = hex_digit(true, octet / 16);
        digits[3 * i + 1] = hex_digit(true, octet % 16);
        digits[3 * i + 2] = b':';
    }
}

/// The octets in hex, joined by colons.
pub(crate) fn colon_text(alloc: Global, octets: &[u8]) -> Result<String, AllocError>
    ensures { IfOk result (λ text. string_bytes text ≡ colon_hex octets.now) }
{
    if octets.is_empty() {
        return Ok(String::new(alloc));
    }
    let Some(len) = octets.len().checked_mul(3) else {
        return Err(AllocError);
    };
    let mut digits = vec![in alloc; 0u8; len]?;
    fill_colon_hex(octets, digits.as_mut_slice());
    digits.truncate(len - 1);
    Ok(String::from_utf8(digits).unwrap())
}

/// Writes the octets in hex over as many digits.
fn fill_hex(octets: &[u8], digits: &mut [u8])
    requires { length digits.old ≡ 2 * length octets.now }
    ensures { digits.new ≡ encode_lower octets.now }
{
    'octets: for i in 0..octets.len() {
        let octet = octets[i];
        digits[2 * i] = hex_digit(false, octet / 16);
        digits[2 * i + 1] = hex_digit(false, octet % 16);
    }
}

/// The octets in hex.
pub(crate) fn hex_text(alloc: Global, octets: &[u8]) -> Result<String, AllocError>
    ensures { IfOk result (λ text. string_bytes text ≡ encode_lower octets.now) }
{
    let Some(len) = octets.len().checked_mul(2) else {
        return Err(AllocError);
    };
    let mut digits = vec![in alloc; 0u8; len]?;
    fill_hex(octets, digits.as_mut_slice());
    Ok(String::from_utf8(digits).unwrap())
}

/// Writes a number as two decimal digits.
pub(crate) fn write_two(number: u8, out: &mut String) -> Result<(), AllocError>
    requires { number < 100 }
    ensures { OnOk result (string_bytes out.new ≡ string_bytes out.old ++ two_digits number) }
{
    out.push(char::from(b'0' + number / 10))?;
    out.push(char::from(b'0' + number % 10))
}

/// Writes a number as four decimal digits.
pub(crate) fn write_four(number: u16, out: &mut String) -> Result<(), AllocError>
    requires { number < 10000 }
    ensures { OnOk result (string_bytes out.new ≡ string_bytes out.old ++ four_digits number) }
{
    write_two((number / 100) as u8, out)?;
    write_two((number % 100) as u8, out)
}

/// Writes a character of ASCII, and a number behind it as two decimal digits.
pub(crate) fn write_behind(separator: char, number: u8, out: &mut String) -> Result<(), AllocError>
    requires ascii { separator < 128 }
    requires two { number < 100 }
    ensures { OnOk result (string_bytes out.new ≡ string_bytes out.old ++ (separator ∷ two_digits number)) }
{
    out.push(separator)?;
    write_two(number, out)
}
