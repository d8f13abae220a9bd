//! Elements as hex digits (RFC 4514 section 2.4).

ghost use Rattle.std.specs.Prelude.{◌≡◌, slice_index};
ghost use Rattle.std.specs.Fmt.{WritesOnOk};
ghost use Rattle.hex.specs.Hex.{encode_lower, lower_digits};
ghost use Rattle.x509_der.specs.Element.{header};
ghost use Rattle.x509_name.specs.Attributes.{value_octets};

use std::{fmt, str};
use x509_der::Any;

// How many octets are written at once.
const CHUNK: usize = 64;

// The digit of a number below 16, and a NUL for any other, which no octet has.
fn digit(number: usize) -> char
    ensures { result ≡ slice_index lower_digits number }
{
    match b"0123456789abcdef".get(number) {
        Some(digit) => char::from(*digit),
        None => '\0',
    }
}

// Writes few octets.
fn write_few<W: fmt::Write>(f: &mut fmt::Formatter<W>, octets: &[usize]) -> fmt::Result
    ensures { WritesOnOk W.write_str_gives f.old result (encode_lower octets.now) f.new }
{
    for octet in octets {
        let octet = *octet;
        f.write_char(digit(octet / 16))?;
        f.write_char(digit(octet % 16))?;
    }
    Ok(())
}

// Writes the identifier octet and the length octets.
#[tactic(auto, unfolding(x509_der::specs::Element::length_octets))]
fn write_header<W: fmt::Write>(f: &mut fmt::Formatter<W>, tag: u8, len: usize) -> fmt::Result
    ensures { WritesOnOk W.write_str_gives f.old result (encode_lower (header tag len)) f.new }
{
    let tag = tag as usize;
    let last = len % 256;
    let third = len / 256 % 256;
    let second = len / 65_536 % 256;
    if len < 128 {
        write_few(f, &[tag, len])
    } else if len < 256 {
        write_few(f, &[tag, 0x81, len])
    } else if len < 65_536 {
        write_few(f, &[tag, 0x82, len / 256, last])
    } else if len < 16_777_216 {
        write_few(f, &[tag, 0x83, len / 65_536, third, last])
    } else {
        write_few(f, &[tag, 0x84, len / 16_777_216, second, third, last])
    }
}

// Writes octets, some at a time.
fn write_octets<W: fmt::Write>(f: &mut fmt::Formatter<W>, octets: &[u8]) -> fmt::Result
    ensures { WritesOnOk W.write_str_gives f.old result (encode_lower octets.now) f.new }
{
    let mut digits = [0; 2 * CHUNK];
    let mut rest = octets;
    while !rest.is_empty() {
        let (chunk, others) = rest.split_at(rest.len().min(CHUNK));
        let room = &mut digits[..2 * chunk.len()];
        if hex::encode_to_slice(chunk, room).is_err() {
            return Err(fmt::Error);
        }
        let Ok(text) = str::from_utf8(room) else {
            return Err(fmt::Error);
        };
        f.write_str(text)?;
        rest = others;
    }
    Ok(())
}

/// Writes the octets of the value's element.
pub(crate) fn write_element<W: fmt::Write>(f: &mut fmt::Formatter<W>, value: &Any) -> fmt::Result
    ensures { WritesOnOk W.write_str_gives f.old result (encode_lower (value_octets value.now)) f.new }
{
    let content = value.value();
    write_header(f, value.tag().octet(), content.len())?;
    write_octets(f, content)
}
