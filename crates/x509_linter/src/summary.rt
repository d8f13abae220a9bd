//! A summary: each line of a text without what is seen, once, behind how often it stands there.

ghost use Rattle.std.specs.List.{list_any};
ghost use Rattle.std.specs.Prelude.{◌≡◌, ◌++◌, IfOk, OnOk, bytes_eq, map};
ghost use Rattle.x509_linter.specs.Summary as grammar;

use crate::lines::before;
use std::alloc::{AllocError, Global};

/// Whether two lines are the same.
fn is_same(other: &[u8], line: &[u8]) -> bool
    ensures { result ≡ bytes_eq other.now line.now }
{
    other == line
}

/// Whether a line is among others.
fn is_among(line: &[u8], others: &[&[u8]]) -> bool
    ensures { result ≡ grammar.is_among line.now (map (λ other. other.now) others.now) }
{
    let mut rest = others;
    while let [other, behind @ ..] = rest {
        if is_same(other, line) {
            return true;
        }
        rest = behind;
    }
    false
}

/// How often a line stands among lines.
fn count_of(line: &[u8], lines: &[&[u8]]) -> usize
    ensures { result ≡ grammar.count_of line.now (map (λ other. other.now) lines.now) }
{
    let mut count = 0usize;
    let mut rest = lines;
    while let [other, behind @ ..] = rest {
        if is_same(other, line) {
            count += 1;
        }
        rest = behind;
    }
    count
}

/// Adds a line, unless it is empty.
fn push_unless_empty<'a>(line: &'a [u8], lines: &mut Vec<&'a [u8]>) -> Result<(), AllocError>
    ensures { OnOk result (map (λ line. line.now) lines.new.items ≡ map (λ line. line.now) lines.old.items ++ grammar.unless_empty line.now) }
{
    if !line.is_empty() {
        lines.push(line)?;
    }
    Ok(())
}

/// Adds a line without what is seen, which stands behind a tab, unless it is empty.
fn push_line<'a>(line: &'a [u8], lines: &mut Vec<&'a [u8]>) -> Result<(), AllocError>
    ensures { OnOk result (map (λ line. line.now) lines.new.items ≡ map (λ line. line.now) lines.old.items ++ grammar.whole_line line.now) }
{
    push_unless_empty(before(b'\t', line), lines)
}

/// The lines of a text without what is seen, those that aren't empty.
fn whole_lines(alloc: Global, text: &[u8]) -> Result<Vec<&[u8]>, AllocError>
    ensures { IfOk result (λ lines. map (λ line. line.now) lines.items ≡ grammar.whole_lines text.now) }
{
    let mut lines = Vec::new(alloc);
    for line in text.split(|octet| *octet == b'\n') {
        push_line(line, &mut lines)?;
    }
    Ok(lines)
}

/// Adds a line, behind how often it stands among lines.
fn push_entry(
    alloc: Global,
    line: &[u8],
    lines: &[&[u8]],
    text: &mut Vec<u8>,
) -> Result<(), AllocError>
    ensures { OnOk result (text.new.items ≡ text.old.items ++ grammar.entry line.now (map (λ line. line.now) lines.now)) }
{
    let count = count_of(line, lines);
    let count = format!(in alloc; "{count} ")?;
    text.extend_from_slice(count.as_str().as_bytes())?;
    text.extend_from_slice(line)?;
    text.push(b'\n')?;
    Ok(())
}

/// Adds a line so that isn't among those that are told.
fn tell<'a>(
    alloc: Global,
    line: &'a [u8],
    lines: &[&[u8]],
    told: &mut Vec<&'a [u8]>,
    text: &mut Vec<u8>,
) -> Result<(), AllocError>
    ensures text { OnOk result (text.new.items
        ≡ text.old.items ++ grammar.entry_for (map (λ line. line.now) lines.now) (map (λ line. line.now) told.old.items) line.now) }
    ensures told { OnOk result (map (λ line. line.now) told.new.items ≡ grammar.told_with (map (λ line. line.now) told.old.items) line.now) }
{
    if !is_among(line, told.as_slice()) {
        push_entry(alloc, line, lines, text)?;
        told.push(line)?;
    }
    Ok(())
}

/// A summary of lines.
fn tally(alloc: Global, lines: &[&[u8]]) -> Result<Vec<u8>, AllocError>
    ensures { IfOk result (λ text. text.items ≡ grammar.tally (map (λ line. line.now) lines.now)) }
{
    let mut told = Vec::new(alloc);
    let mut text = Vec::new(alloc);
    for line in lines {
        tell(alloc, line, lines, &mut told, &mut text)?;
    }
    Ok(text)
}

/// A summary of a text.
///
/// # Errors
///
/// `AllocError` when out of memory.
pub(crate) fn summary_of(alloc: Global, text: &[u8]) -> Result<Vec<u8>, AllocError>
    ensures { IfOk result (λ summed. summed.items ≡ grammar.summary text.now) }
{
    let lines = whole_lines(alloc, text)?;
    tally(alloc, lines.as_slice())
}
