//! Texts as they are compared (RFC 5280 7.1).

ghost use Rattle.std.specs.Char.{to_ascii_lowercase};
ghost use Rattle.std.specs.List.{list_any};
ghost use Rattle.std.specs.Prelude.{◌≡◌, ◌&&◌, ◌++◌, [], ◌∷◌, if◌then◌else◌, OnOk, chars, encode_utf8_all, IfOk, map, option_map, string_bytes};
ghost use Rattle.x509_match.specs.Prepared as text_form;

use caseless::default_case_fold_str;
use std::alloc::{AllocError, Global};
use ucd_category::{GeneralCategory, GeneralCategoryGroup};
use unicode_normalization::to_nfkc;

/// The characters that are left out, from each first one to its last (RFC 4518 2.2).
const LEFT_OUT: [(u32, u32); 20] = [
    (0x0000, 0x0008),
    (0x000E, 0x001F),
    (0x007F, 0x0084),
    (0x0086, 0x009F),
    (0x00AD, 0x00AD),
    (0x034F, 0x034F),
    (0x06DD, 0x06DD),
    (0x070F, 0x070F),
    (0x1806, 0x1806),
    (0x180B, 0x180E),
    (0x200B, 0x200F),
    (0x202A, 0x202E),
    (0x2060, 0x2063),
    (0x206A, 0x206F),
    (0xFE00, 0xFE0F),
    (0xFEFF, 0xFEFF),
    (0xFFF9, 0xFFFC),
    (0x1D173, 0x1D17A),
    (0xE0001, 0xE0001),
    (0xE0020, 0xE007F),
];

/// The characters that are white space, from each first one to its last (RFC 4518 2.2).
const WHITE_SPACE: [(u32, u32); 10] = [
    (0x0009, 0x000D),
    (0x0020, 0x0020),
    (0x0085, 0x0085),
    (0x00A0, 0x00A0),
    (0x1680, 0x1680),
    (0x2000, 0x200A),
    (0x2028, 0x2029),
    (0x202F, 0x202F),
    (0x205F, 0x205F),
    (0x3000, 0x3000),
];

/// Whether the character is within one of the ranges.
fn is_within(ranges: &[(u32, u32)], c: char) -> bool
    ensures { result ≡ text_form.is_within ranges.now c }
{
    let code = c as u32;
    ranges
        .iter()
        .any(|range| range.0 <= code && code <= range.1)
}

/// Whether the character isn't left out.
#[tactic(auto, unfolding(crate::specs::Prepared::is_kept))]
fn is_kept(c: char) -> bool
    ensures { result ≡ text_form.is_kept c }
{
    !is_within(&LEFT_OUT, c)
}

/// The character, or a space for white space.
#[tactic(auto, unfolding(crate::specs::Prepared::spaced))]
fn spaced(c: char) -> char
    ensures { result ≡ text_form.spaced c }
{
    if is_within(&WHITE_SPACE, c) { ' ' } else { c }
}

/// The text without what is left out, and with spaces for white space.
#[tactic(auto, unfolding(crate::specs::Prepared::mapped))]
fn mapped(alloc: Global, text: &str) -> Result<String, AllocError>
    ensures { IfOk result (λ found. string_bytes found ≡ encode_utf8_all (text_form.mapped (chars text.now))) }
{
    text.chars()
        .filter(|c| is_kept(*c))
        .map(|c| spaced(c))
        .collect(alloc)
}

/// The text in NFKC, its case folded.
fn folded(alloc: Global, text: &str) -> Result<String, AllocError>
    ensures { IfOk result (λ found. string_bytes found ≡ encode_utf8_all (text_form.folded (chars text.now))) }
{
    let first = default_case_fold_str(alloc, text)?;
    let normal = to_nfkc(alloc, first.as_str())?;
    let second = default_case_fold_str(alloc, normal.as_str())?;
    let found = to_nfkc(alloc, second.as_str())?;
    Ok(found)
}

/// Whether the character stands in no text that is compared.
#[tactic(auto, unfolding(crate::specs::Prepared::is_prohibited))]
fn is_prohibited(c: char) -> bool
    ensures { result ≡ text_form.is_prohibited c }
{
    if (c as u32) < 0x80 {
        return false;
    }
    c == '\u{FFFD}'
        || matches!(
            GeneralCategory::for_char(c),
            GeneralCategory::Unassigned | GeneralCategory::PrivateUse | GeneralCategory::Surrogate
        )
}

/// Whether one of the characters is prohibited.
fn has_prohibited(text: &str) -> bool
    ensures { result ≡ list_any text_form.is_prohibited (chars text.now) }
{
    text.chars().any(|c| is_prohibited(c))
}

/// Whether the character is a combining mark.
#[tactic(auto, unfolding(crate::specs::Prepared::is_mark))]
fn is_mark(c: char) -> bool
    ensures { result ≡ text_form.is_mark c }
{
    (c as u32) >= 0x80 && GeneralCategoryGroup::Mark.contains(GeneralCategory::for_char(c))
}

/// Whether the character is a space that no combining mark follows.
fn is_space(c: char, behind: &[char]) -> bool
    ensures { result ≡ text_form.is_space c behind.now }
{
    if c != ' ' {
        return false;
    }
    match behind {
        [next, ..] => !is_mark(*next),
        [] => true,
    }
}

/// Adds the character, behind a space where a gap lies between it and what has begun.
fn push_spaced(out: &mut String, begun: bool, gap: bool, c: char) -> Result<(), AllocError>
    ensures { OnOk result (string_bytes out.new ≡ string_bytes out.old ++ encode_utf8_all ((if begun && gap then 0x20 ∷ [] else []) ++ c ∷ [])) }
{
    if begun && gap {
        out.push(' ')?;
    }
    out.push(c)?;
    Ok(())
}

/// The text without spaces at its ends, and with one for each run of them.
fn squeezed(alloc: Global, text: &[char]) -> Result<String, AllocError>
    ensures { IfOk result (λ found. string_bytes found ≡ encode_utf8_all (text_form.squeezed text.now)) }
{
    let mut out = String::new(alloc);
    let mut begun = false;
    let mut gap = false;
    let mut rest = text;
    while let [c, behind @ ..] = rest {
        if is_space(*c, behind) {
            gap = true;
        } else {
            push_spaced(&mut out, begun, gap, *c)?;
            begun = true;
            gap = false;
        }
        rest = behind;
    }
    Ok(out)
}

/// The characters of the text.
pub(crate) fn characters_of(alloc: Global, text: &str) -> Result<Vec<char>, AllocError>
    ensures { IfOk result (λ found. found.items ≡ chars text.now) }
{
    text.chars().collect(alloc)
}

/// The text as RFC 4518 prepares it for caseIgnoreMatch; `None` exactly where a character is prohibited.
pub(crate) fn prepared(alloc: Global, given: &str) -> Result<Option<String>, AllocError>
    ensures { IfOk result (λ found. option_map string_bytes found ≡ option_map encode_utf8_all (text_form.prepared (chars given.now))) }
{
    let kept = mapped(alloc, given)?;
    let normal = folded(alloc, kept.as_str())?;
    let text = normal.as_str();
    if has_prohibited(text) {
        return Ok(None);
    }
    let characters = characters_of(alloc, text)?;
    let found = squeezed(alloc, characters.as_slice())?;
    Ok(Some(found))
}

/// The text in small ASCII letters.
pub(crate) fn lowercase(alloc: Global, text: &str) -> Result<String, AllocError>
    ensures { IfOk result (λ found. string_bytes found ≡ encode_utf8_all (map to_ascii_lowercase (chars text.now))) }
{
    text.chars().map(|c| c.to_ascii_lowercase()).collect(alloc)
}
