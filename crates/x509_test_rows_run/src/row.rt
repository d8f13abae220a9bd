//! A line and its answer.

ghost use Rattle.std.specs.Prelude.{◌≡◌, ◌⊎◌, ◌<◌, ◌∷◌, ◌++◌, ℕ, List, Ok, Err, length, string_bytes, slice_index, take, MatchOption, MatchResult};
ghost use Rattle.x509_der.specs.declared.error.ErrorKind.TheVariants.{Memory};
ghost use Rattle.x509_tool_run.specs.declared.refusal.Refusal.TheVariants.{Because};
ghost use Rattle.x509_tool_run.specs.Answer.{as_line, IsReencoded};
ghost use Rattle.hex.specs.Hex.{decode_of};
ghost use Rattle.x509_codec.specs.ProfileNames.{profile_of};
ghost use Rattle.x509_codec.specs.declared.profile_name.ProfileName.{ProfileName};
ghost use Rattle.x509_test_rows_run.specs.Row.{Lacks, IsRow, AnswersKept};

use std::alloc::Global;
use x509_codec::{Codec, ProfileName};
use x509_der::ErrorKind;
use x509_tool_run::{Refusal, bytes_of};

/// A line of the form that is asked for.
#[derive(Drop)]
pub(crate) struct Row<'a> {
    name: &'a str,
    profile: ProfileName,
    text: &'a [u8],
}

/// The place of the first such byte.
pub(crate) fn place_of(bytes: &[u8], byte: u8) -> Option<usize>
    ensures { MatchOption result
        (Lacks byte bytes.now)
        (λ at. (at < length bytes.now) × (slice_index bytes.now at ≡ byte) × Lacks byte (take at bytes.now)) }
{
    for at in 0..bytes.len() {
        if bytes[at] == byte {
            return Some(at);
        }
    }
    None
}

/// The bytes before the first space, and those after it.
fn split_at_space(bytes: &[u8]) -> Option<(&[u8], &[u8])>
    ensures { MatchOption result
        (Lacks 32 bytes.now)
        (λ parts. (bytes.now ≡ parts.0.now ++ 32 ∷ parts.1.now) × Lacks 32 parts.0.now) }
{
    let at = place_of(bytes, b' ')?;
    Some((&bytes[..at], &bytes[at + 1..]))
}

/// The profile that a word names.
fn profile_of(word: &[u8]) -> Option<ProfileName>
    ensures { result ≡ profile_of word.now }
{
    if word == b"rfc5280".as_slice() {
        Some(ProfileName::Rfc5280)
    } else if word == b"raw".as_slice() {
        Some(ProfileName::Raw)
    } else {
        None
    }
}

/// The row that a line is.
fn row_of(line: &[u8]) -> Option<Row<'_>>
    ensures { MatchOption result
        ((name : List ℕ) (profile : ProfileName) (text : List ℕ) → IsRow line.now name profile text → ⊥)
        (λ row. IsRow line.now row.name.now row.profile row.text.now) }
{
    let Some((name, rest)) = split_at_space(line) else {
        return None;
    };
    let Some((word, text)) = split_at_space(rest) else {
        return None;
    };
    let Some(profile) = profile_of(word) else {
        return None;
    };
    let Ok(name) = str::from_utf8(name) else {
        return None;
    };
    Some(Row {
        name,
        profile,
        text,
    })
}

/// The answer to a row, and a line feed.
fn reencode_row<C: Codec>(alloc: Global, row: &Row<'_>) -> Result<String, Refusal>
    ensures { MatchResult result
        (λ text. (answer : List ℕ) × IsReencoded (C.reencodes row.now.name.now row.now.profile) (decode_of row.now.text.now) (Ok answer)
        × (string_bytes text ≡ as_line answer))
        (λ refusal. (refusal ≡ Because Memory)
        ⊎ IsReencoded (C.reencodes row.now.name.now row.now.profile) (decode_of row.now.text.now) (Err refusal)) }
{
    let bytes = bytes_of(alloc, row.text)?;
    let encoding = C::reencode(alloc, row.name, row.profile, bytes.as_slice())?;
    let mut text = hex::encode_upper(alloc, encoding.as_slice())?;
    text.push('\n')?;
    Ok(text)
}

/// The answer to a line, and a line feed.
///
/// # Errors
///
/// `Because` of `Failed` where the line is a bad one: no row, or its text is not hex; the codec's errors; `Because` of
/// `Memory` when out of memory.
pub fn answer_row<C: Codec>(alloc: Global, line: &[u8]) -> Result<String, Refusal>
    ensures { MatchResult result
        (λ text. (answer : List ℕ) × AnswersKept C.reencodes line.now (Ok answer)
        × (string_bytes text ≡ as_line answer))
        (λ refusal. (refusal ≡ Because Memory) ⊎ AnswersKept C.reencodes line.now (Err refusal)) }
{
    match row_of(line) {
        Some(row) => reencode_row::<C>(alloc, &row),
        None => Err(Refusal::Because(ErrorKind::Failed)),
    }
}
