//! Lines of a document: a label and a text, as a text for people or as JSON.

ghost use Rattle.std.specs.Prelude.{◌≡◌, ◌++◌, ◌<◌, ◌≤◌, ℕ, false, min, length, IfOk, OnOk, slice_index, string_bytes};
ghost use Rattle.std.specs.Bool.{OnTrue};
ghost use Rattle.std.specs.List.{flat_map};
ghost use Rattle.std.specs.Str.{IsUtf8};
ghost use Rattle.x509_text.specs.Lines as lines;
ghost use Rattle.x509_text.specs.Runs as runs;
ghost use Rattle.x509_text.specs.declared.line.Style.TheVariants.{Json};

use crate::digits::hex_text;
use std::alloc::{AllocError, Global};
use std::simd::prelude::*;

/// How a document is printed.
#[derive(Clone, Copy, Debug, PartialEq, Eq)]
pub enum Style {
    /// A text for people: a line for each thing that is said, indented under the line that it belongs to.
    Text,

    /// JSON (RFC 8259): an array with an object for each line, which has its `depth`, its `label` and its `text`.
    Json,
}

/// Under how many others a line stands. Nothing that is printed stands deeper than under five.
#[derive(Clone, Copy, Debug, PartialEq, Eq)]
pub enum Depth {
    /// Under none.
    First,

    /// Under one.
    Second,

    /// Under two.
    Third,

    /// Under three.
    Fourth,

    /// Under four.
    Fifth,

    /// Under five.
    Sixth,
}

impl Depth {
    /// The depth of what belongs to a line at this one.
    fn deeper(self) -> Depth
        ensures { result ≡ lines.deeper self }
    {
        match self {
            Depth::First => Depth::Second,
            Depth::Second => Depth::Third,
            Depth::Third => Depth::Fourth,
            Depth::Fourth => Depth::Fifth,
            Depth::Fifth => Depth::Sixth,
            Depth::Sixth => Depth::Sixth,
        }
    }

    /// The spaces in front of a line.
    fn indent(self) -> &'static str
        ensures { result.now ≡ lines.indent self }
    {
        match self {
            Depth::First => "",
            Depth::Second => "  ",
            Depth::Third => "    ",
            Depth::Fourth => "      ",
            Depth::Fifth => "        ",
            Depth::Sixth => "          ",
        }
    }

    /// The digit that JSON has for it.
    fn digit(self) -> &'static str
        ensures { result.now ≡ lines.digit self }
    {
        match self {
            Depth::First => "0",
            Depth::Second => "1",
            Depth::Third => "2",
            Depth::Fourth => "3",
            Depth::Fifth => "4",
            Depth::Sixth => "5",
        }
    }
}

/// How a line is printed, and how deep it stands.
#[derive(Clone, Copy)]
pub(crate) struct Place {
    pub style: Style,
    pub depth: Depth,
}

impl Place {
    /// The place of what belongs to a line at this one.
    pub(crate) fn below(self) -> Place
        ensures { result ≡ lines.below self }
    {
        Place {
            style: self.style,
            depth: self.depth.deeper(),
        }
    }
}

/// Whether a character may not stand for itself: it could end a line, or turn the order of the characters round.
#[tactic(auto, unfolding(crate::specs::Lines::is_hidden))]
fn is_hidden(code: u32) -> bool
    ensures { result ≡ lines.is_hidden code }
{
    matches!(
        code,
        0..=0x1F | 0x7F..=0x9F | 0x61C | 0x200E..=0x200F | 0x2028..=0x202E | 0x2066..=0x2069
    )
}

/// Writes the byte as a backslash and two hex digits.
fn write_byte(alloc: Global, byte: u8, out: &mut String) -> Result<(), AllocError>
    ensures { OnOk result (string_bytes out.new ≡ string_bytes out.old ++ lines.byte_text byte) }
{
    let octets = [byte];
    let digits = hex_text(alloc, octets.as_slice())?;
    out.push_str("\\")?;
    out.push_str(digits.as_str())
}

/// Writes each of the bytes so.
fn write_bytes(alloc: Global, bytes: &[u8], out: &mut String) -> Result<(), AllocError>
    ensures { OnOk result (string_bytes out.new ≡ string_bytes out.old ++ flat_map lines.byte_text bytes.now) }
{
    for byte in bytes {
        write_byte(alloc, *byte, out)?;
    }
    Ok(())
}

/// Whether a character stands behind a backslash in this style: in JSON a quotation mark or a backslash does.
fn is_quoted(style: Style, code: u32) -> bool
    ensures { result ≡ lines.is_quoted style code }
{
    match style {
        Style::Text => false,
        Style::Json => code == 0x22 || code == 0x5C,
    }
}

/// Writes a hidden character by its bytes, in JSON by its code.
fn write_hidden(alloc: Global, style: Style, c: char, out: &mut String) -> Result<(), AllocError>
    ensures { OnOk result (string_bytes out.new ≡ string_bytes out.old ++ lines.hidden_char style c) }
{
    match style {
        Style::Text => {
            let mut buffer = [0; 4];
            write_bytes(alloc, c.encode_utf8(&mut buffer).as_bytes(), out)
        }
        Style::Json => {
            let code = c as u32;
            let octets = [(code / 256 % 256) as u8, (code % 256) as u8];
            let digits = hex_text(alloc, octets.as_slice())?;
            out.push_str("\\u")?;
            out.push_str(digits.as_str())
        }
    }
}

/// Writes a character so that it stays within its line.
#[tactic(auto, unfolding(crate::specs::Lines::shown_char))]
fn write_char(alloc: Global, style: Style, c: char, out: &mut String) -> Result<(), AllocError>
    ensures { OnOk result (string_bytes out.new ≡ string_bytes out.old ++ lines.shown_char style c) }
{
    if is_hidden(c as u32) {
        return write_hidden(alloc, style, c, out);
    }
    if is_quoted(style, c as u32) {
        out.push('\\')?;
        return out.push(c);
    }
    out.push(c)
}

/// The byte at a place, or 0 behind the last.
fn byte_at(bytes: &[u8], at: usize) -> u8
    ensures { result ≡ slice_index bytes.now at }
{
    match bytes.get(at) {
        Some(byte) => *byte,
        None => 0,
    }
}

/// Whether the UTF-8 of a hidden character begins with a byte beyond ASCII and the bytes after it.
fn begins_hidden(first: u8, after: &[u8]) -> bool
    ensures { result ≡ runs.begins_hidden first (slice_index after.now 0) (slice_index after.now 1) }
{
    match first {
        0xC2 => byte_at(after, 0) < 0xA0,
        0xD8 => byte_at(after, 0) == 0x9C,
        0xE2 => match byte_at(after, 0) {
            0x80 => matches!(byte_at(after, 1), 0x8E..=0x8F | 0xA8..=0xAE),
            0x81 => matches!(byte_at(after, 1), 0xA6..=0xA9),
            _ => false,
        },
        _ => false,
    }
}

/// Whether a character that doesn't stand for itself begins with a byte and the bytes after it.
#[tactic(auto, unfolding(crate::specs::Runs::ends_run))]
fn ends_run(style: Style, first: u8, after: &[u8]) -> bool
    ensures { result ≡ runs.ends_run style first (slice_index after.now 0) (slice_index after.now 1) }
{
    if first < 0x80 {
        is_hidden(u32::from(first)) || is_quoted(style, u32::from(first))
    } else {
        begins_hidden(first, after)
    }
}

/// How many bytes are tested at once.
const BLOCK: usize = 16;

/// Whether the first bytes stand for themselves in each style, all of them in ASCII.
fn is_plain_block(bytes: &[u8]) -> bool
    requires { BLOCK ≤ length bytes.now }
    ensures { OnTrue result ((k : ℕ) → k < BLOCK → runs.is_special (slice_index bytes.now k) ≡ false) }
{
    let block = u8x16::from_slice(bytes);
    let is_outside = block.simd_lt(u8x16::splat(0x20)) | block.simd_gt(u8x16::splat(0x7E));
    let is_quoted = block.simd_eq(u8x16::splat(b'"')) | block.simd_eq(u8x16::splat(b'\\'));
    (is_outside | is_quoted).to_bitmask() == 0
}

/// As [`run_len`], but no more than a block of bytes.
#[tactic(auto, unfolding(crate::specs::Runs::run_len))]
fn run_in_block(style: Style, bytes: &[u8]) -> usize
    ensures { result ≡ min BLOCK (runs.run_len style bytes.now) }
{
    let mut rest = bytes;
    let mut len = 0;
    while len < BLOCK {
        let [first, after @ ..] = rest else {
            return len;
        };
        if ends_run(style, *first, after) {
            return len;
        }
        rest = after;
        len += 1;
    }
    len
}

/// As [`run_in_block`] of at least a block of bytes; where each byte of the block stands for itself, that is told at once.
fn run_in_whole_block(style: Style, bytes: &[u8]) -> usize
    requires { BLOCK ≤ length bytes.now }
    ensures { result ≡ min BLOCK (runs.run_len style bytes.now) }
{
    if is_plain_block(bytes) {
        return BLOCK;
    }
    run_in_block(style, bytes)
}

/// How many bytes of a text lie in front of its first character that doesn't stand for itself.
fn run_len(style: Style, bytes: &[u8]) -> usize
    ensures { result ≡ runs.run_len style bytes.now }
{
    let mut at = 0;
    while bytes.len() - at >= BLOCK {
        let len = run_in_whole_block(style, &bytes[at..]);
        if len < BLOCK {
            return at + len;
        }
        at += BLOCK;
    }
    // The last block may overlap the one before.
    if bytes.len() >= BLOCK && is_plain_block(&bytes[bytes.len() - BLOCK..]) {
        return bytes.len();
    }
    at + run_in_block(style, &bytes[at..])
}

/// How many characters are written one by one before the next run is looked for.
const FEW_CHARS: usize = 16;

/// Writes the first characters of a text one by one, and gives the others.
fn write_few<'a>(
    alloc: Global,
    style: Style,
    text: &'a str,
    out: &mut String,
) -> Result<&'a str, AllocError>
    ensures written { IfOk result (λ others. string_bytes out.new ++ lines.shown style others.now ≡ string_bytes out.old ++ lines.shown style text.now) }
    ensures utf8 { IfOk result (λ others. IsUtf8 others.now) }
    ensures fewer { 0 < length text.now → IfOk result (λ others. length others.now < length text.now) }
{
    let mut rest = text;
    let mut left = FEW_CHARS;
    while left > 0 {
        let mut chars = rest.chars();
        match chars.next() {
            Some(c) => write_char(alloc, style, c, out)?,
            None => return Ok(rest),
        }
        rest = chars.as_str();
        left -= 1;
    }
    Ok(rest)
}

/// Writes a text so that it stays within its line: what stands for itself in runs.
fn write_shown(alloc: Global, style: Style, text: &str, out: &mut String) -> Result<(), AllocError>
    ensures { OnOk result (string_bytes out.new ≡ string_bytes out.old ++ lines.shown style text.now) }
{
    let mut rest = text;
    while !rest.is_empty() {
        let (run, others) = rest.split_at(run_len(style, rest.as_bytes()));
        out.push_str(run)?;
        if others.is_empty() {
            return Ok(());
        }
        // Where one character doesn't stand for itself, others often follow.
        rest = write_few(alloc, style, others, out)?;
    }
    Ok(())
}

/// Writes a text as characters of a string of JSON (RFC 8259 7), without its quotation marks.
///
/// # Errors
///
/// `AllocError` when out of memory, and nothing else.
pub fn write_json_text(alloc: Global, text: &str, out: &mut String) -> Result<(), AllocError>
    ensures { OnOk result (string_bytes out.new ≡ string_bytes out.old ++ lines.shown Json text.now) }
{
    write_shown(alloc, Style::Json, text, out)
}

/// Writes what stands behind a label.
fn write_after_label(alloc: Global, text: &str, out: &mut String) -> Result<(), AllocError>
    ensures { OnOk result (string_bytes out.new ≡ string_bytes out.old ++ lines.after_label text.now) }
{
    if text.is_empty() {
        return Ok(());
    }
    out.push_str(" ")?;
    write_shown(alloc, Style::Text, text, out)
}

/// Writes a line of a text for people.
fn write_text_line(
    alloc: Global,
    depth: Depth,
    label: &str,
    text: &str,
    out: &mut String,
) -> Result<(), AllocError>
    ensures { OnOk result (string_bytes out.new ≡ string_bytes out.old ++ lines.text_line depth label.now text.now) }
{
    out.push_str(depth.indent())?;
    out.push_str(label)?;
    out.push_str(":")?;
    write_after_label(alloc, text, out)?;
    out.push_str("\n")
}

/// Writes an object of JSON.
fn write_entry(
    alloc: Global,
    depth: Depth,
    label: &str,
    text: &str,
    out: &mut String,
) -> Result<(), AllocError>
    ensures { OnOk result (string_bytes out.new ≡ string_bytes out.old ++ lines.json_entry depth label.now text.now) }
{
    out.push_str("{\"depth\": ")?;
    out.push_str(depth.digit())?;
    out.push_str(", \"label\": \"")?;
    out.push_str(label)?;
    out.push_str("\", \"text\": \"")?;
    write_shown(alloc, Style::Json, text, out)?;
    out.push_str("\"}")
}

/// Writes a line.
#[tactic(auto, unfolding(crate::specs::Lines::line))]
pub(crate) fn write_line(
    alloc: Global,
    at: Place,
    label: &str,
    text: &str,
    out: &mut String,
) -> Result<(), AllocError>
    ensures { OnOk result (string_bytes out.new ≡ string_bytes out.old ++ lines.line at label.now text.now) }
{
    match at.style {
        Style::Text => write_text_line(alloc, at.depth, label, text, out),
        Style::Json => {
            out.push_str(",\n")?;
            write_entry(alloc, at.depth, label, text, out)
        }
    }
}

/// Writes a line where it is to be there.
#[tactic(auto, unfolding(crate::specs::Lines::line_where))]
pub(crate) fn write_where(
    alloc: Global,
    at: Place,
    label: &str,
    text: &str,
    is_there: bool,
    out: &mut String,
) -> Result<(), AllocError>
    ensures { OnOk result (string_bytes out.new ≡ string_bytes out.old ++ lines.line_where at label.now text.now is_there) }
{
    if is_there {
        write_line(alloc, at, label, text, out)
    } else {
        Ok(())
    }
}

/// Writes what begins a document: which kind of object it is of.
pub(crate) fn write_opening(
    alloc: Global,
    style: Style,
    kind: &str,
    out: &mut String,
) -> Result<(), AllocError>
    ensures { OnOk result (string_bytes out.new ≡ string_bytes out.old ++ lines.opening style kind.now) }
{
    match style {
        Style::Text => write_text_line(alloc, Depth::First, "type", kind, out),
        Style::Json => {
            out.push_str("[")?;
            write_entry(alloc, Depth::First, "type", kind, out)
        }
    }
}

/// What ends a document.
pub(crate) fn closing(style: Style) -> &'static str
    ensures { result.now ≡ lines.closing style }
{
    match style {
        Style::Text => "",
        Style::Json => "\n]\n",
    }
}
