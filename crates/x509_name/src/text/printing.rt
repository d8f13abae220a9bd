//! The text that is printed of a value (RFC 4514 section 2.4).

ghost use Rattle.std.specs.Prelude.{◌≡◌, ◌<◌, true, false, not, nat_eq, ◌&&◌, ◌||◌};
ghost use Rattle.std.specs.Bool.{OnTrue};
ghost use Rattle.std.specs.List.{list_all};
ghost use Rattle.std.specs.Fmt.{WritesOnOk, digit_glyph};
ghost use Rattle.x509_name.specs.Escapes.{escaped, is_always_escaped, is_control, item_of, item_text};

use std::fmt;

fn is_control(byte: u8) -> bool
    ensures { result ≡ is_control byte }
{
    byte < 32 || byte == 127
}

// Whether the byte is escaped: anywhere, at the front, or at the end.
fn is_escaped(byte: u8, is_first: bool, is_last: bool) -> bool
    ensures { result ≡ (is_control byte || (is_always_escaped byte
        || ((nat_eq byte 32 && (is_first || is_last)) || (nat_eq byte 35 && is_first)))) }
{
    is_control(byte)
        || matches!(byte, b'"' | b'+' | b',' | b';' | b'<' | b'>' | b'\\')
        || (byte == b' ' && (is_first || is_last))
        || (byte == b'#' && is_first)
}

// A bit for each byte, 64 in a number, the lowest bit first: 1 for those that stand for themselves, the front and the end
// apart.
static PLAIN: [u64; 4] = [
    0xA7FF_E7FB_0000_0000,
    0x7FFF_FFFF_EFFF_FFFF,
    0xFFFF_FFFF_FFFF_FFFF,
    0xFFFF_FFFF_FFFF_FFFF,
];

// Whether a byte stands for itself, the front and the end apart.
#[inline(always)]
fn is_plain(byte: u8) -> bool
    ensures { result ≡ not (is_control byte || is_always_escaped byte) }
{
    (PLAIN[(byte / 64) as usize] >> (byte % 64)) & 1 == 1
}

// Whether each of the bytes does.
fn are_plain(bytes: &[u8]) -> bool
    ensures { result ≡ list_all (λ byte. not (is_control byte || is_always_escaped byte)) bytes.now }
{
    bytes.iter().all(|byte| is_plain(*byte))
}

// Whether no byte of the text is escaped, as in most texts.
fn stands_for_itself(bytes: &[u8]) -> bool
    ensures { OnTrue result (escaped bytes.now ≡ bytes.now) }
{
    let [first, ..] = bytes else {
        return true;
    };
    if *first == b' ' || *first == b'#' || bytes[bytes.len() - 1] == b' ' {
        return false;
    }
    are_plain(bytes)
}

fn hex_digit(value: u8) -> char
    requires { value < 16 }
    ensures { result ≡ digit_glyph false value }
{
    if value < 10 {
        char::from(b'0' + value)
    } else {
        char::from(b'a' + (value - 10))
    }
}

// Writes an ASCII byte behind a backslash, by its digits where it is a control.
fn write_escape<W: fmt::Write>(f: &mut fmt::Formatter<W>, byte: u8) -> fmt::Result
    requires { byte < 128 }
    ensures { WritesOnOk W.write_str_gives f.old result (item_text (item_of true byte)) f.new }
{
    f.write_char('\\')?;
    if is_control(byte) {
        f.write_char(hex_digit(byte / 16))?;
        f.write_char(hex_digit(byte % 16))
    } else {
        f.write_char(char::from(byte))
    }
}

/// Writes a text with escapes, so that it can stand as the value of an attribute.
///
/// # Errors
///
/// The error of the writer, which may have taken a part of the text then.
pub fn write_escaped<W: fmt::Write>(f: &mut fmt::Formatter<W>, text: &str) -> fmt::Result
    ensures { WritesOnOk W.write_str_gives f.old result (escaped text.now) f.new }
{
    let bytes = text.as_bytes();
    if stands_for_itself(bytes) {
        return f.write_str(text);
    }
    // where what isn't written yet starts
    let mut start = 0;
    for (i, byte) in bytes.iter().enumerate() {
        let byte = *byte;
        if is_escaped(byte, i == 0, i + 1 == bytes.len()) {
            f.write_str(&text[start..i])?;
            write_escape(f, byte)?;
            start = i + 1;
        }
    }
    f.write_str(&text[start..])
}
