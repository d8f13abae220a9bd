//! Lines of findings: of which rule each is, how bad it is, and which of them are reported.

ghost use Rattle.std.specs.List.{list_any, position};
ghost use Rattle.std.specs.Prelude.{◌≡◌, ◌&&◌, ◌==◌, ◌++◌, IfOk, OnOk, drop, map, not};
ghost use Rattle.x509_linter.specs.Choice.{is_picked};
ghost use Rattle.x509_linter.specs.Lines as grammar;

use crate::choice::{is_counted, is_picked};
use std::alloc::{AllocError, Global};

/// The severity of a finding with what stands behind it, and the name of its rule.
#[derive(Clone, Copy)]
struct Told<'a> {
    severity: &'a [u8],
    name: &'a [u8],
}

/// The place of the first such mark.
fn place_of(mark: u8, text: &[u8]) -> Option<usize>
    ensures { result ≡ position (λ octet. octet == mark) text.now }
{
    text.iter().position(|octet| *octet == mark)
}

/// What stands before the first such mark, or the whole.
pub(crate) fn before(mark: u8, text: &[u8]) -> &[u8]
    ensures { result.now ≡ grammar.before mark text.now }
{
    match place_of(mark, text) {
        Some(at) => &text[..at],
        None => text,
    }
}

/// What stands behind the first such mark, or nothing.
fn behind(mark: u8, mut text: &[u8]) -> &[u8]
    ensures { result.now ≡ grammar.behind mark text.entry.now }
{
    while let [first, rest @ ..] = text {
        if *first == mark {
            return rest;
        }
        text = rest;
    }
    text
}

fn behind_two(mark: u8, text: &[u8]) -> &[u8]
    ensures { result.now ≡ grammar.behind_two mark text.now }
{
    behind(mark, behind(mark, text))
}

/// What `error NAME (..` or `not judged NAME (..` tells.
fn told_behind(severity: &[u8]) -> Told<'_>
    ensures severity { result.severity.now ≡ (grammar.told_behind severity.now).severity }
    ensures name { result.name.now ≡ (grammar.told_behind severity.now).name }
{
    if severity.starts_with(b"not ") {
        Told {
            severity,
            name: before(b' ', behind_two(b' ', severity)),
        }
    } else {
        Told {
            severity,
            name: before(b' ', behind(b' ', severity)),
        }
    }
}

/// What a line for people tells, as `certificate: error NAME (RFC 5280 4.1.2.2)`.
fn text_told(line: &[u8]) -> Told<'_>
    ensures severity { result.severity.now ≡ (grammar.text_told line.now).severity }
    ensures name { result.name.now ≡ (grammar.text_told line.now).name }
{
    told_behind(behind(b' ', line))
}

/// What `NAME", "severity": "error", ..` tells.
fn json_told_behind(rule: &[u8]) -> Told<'_>
    ensures severity { result.severity.now ≡ (grammar.json_told_behind rule.now).severity }
    ensures name { result.name.now ≡ (grammar.json_told_behind rule.now).name }
{
    Told {
        severity: behind_two(b'"', behind_two(b'"', rule)),
        name: before(b'"', rule),
    }
}

/// What an object of JSON tells, behind the members in front: `"object": "certificate", "rule": "NAME", "severity": "error", ..`.
fn json_told(members: &[u8]) -> Told<'_>
    ensures severity { result.severity.now ≡ (grammar.json_told members.now).severity }
    ensures name { result.name.now ≡ (grammar.json_told members.now).name }
{
    let word = behind_two(b'"', behind_two(b'"', members));
    json_told_behind(behind(b'"', behind_two(b'"', word)))
}

/// What stands behind the first octets, or nothing.
fn behind_count(count: usize, line: &[u8]) -> &[u8]
    ensures { result.now ≡ drop count line.now }
{
    if count <= line.len() {
        &line[count..]
    } else {
        &[]
    }
}

/// What a line tells, in front of whose members as many octets stand; `None` for a text.
fn told_of(front: Option<usize>, line: &[u8]) -> Told<'_>
    ensures severity { result.severity.now ≡ (grammar.told_of front line.now).severity }
    ensures name { result.name.now ≡ (grammar.told_of front line.now).name }
{
    match front {
        None => text_told(line),
        Some(count) => json_told(behind_count(count, line)),
    }
}

fn is_picked_told(options: &[&str], told: Told<'_>, line: &[u8]) -> bool
    ensures { result ≡ (not (grammar.is_empty line.now) && is_picked (map (λ option. option.now) options.now) told.entry.name.now) }
{
    !line.is_empty() && is_picked(options, told.name)
}

/// Whether a line is a finding that is reported.
fn is_kept(options: &[&str], front: Option<usize>, line: &[u8]) -> bool
    ensures { result ≡ grammar.is_kept (map (λ option. option.now) options.now) front line.now }
{
    let told = told_of(front, line);
    is_picked_told(options, told, line)
}

/// Whether a line is a finding that is reported, and counts.
fn counts(options: &[&str], front: Option<usize>, line: &[u8]) -> bool
    ensures { result ≡ grammar.counts (map (λ option. option.now) options.now) front line.now }
{
    let told = told_of(front, line);
    is_kept(options, front, line) && is_counted(options, told.severity)
}

/// Adds a line, where it is reported.
fn push_kept(
    options: &[&str],
    front: Option<usize>,
    line: &[u8],
    kept: &mut Vec<u8>,
) -> Result<(), AllocError>
    ensures { OnOk result (kept.new.items ≡ kept.old.items ++ grammar.kept_line (map (λ option. option.now) options.now) front line.now) }
{
    if is_kept(options, front, line) {
        kept.extend_from_slice(line)?;
        kept.push(b'\n')?;
    }
    Ok(())
}

/// The lines of a text that are reported.
pub(crate) fn kept_text(
    alloc: Global,
    options: &[&str],
    front: Option<usize>,
    text: &[u8],
) -> Result<Vec<u8>, AllocError>
    ensures { IfOk result (λ kept. kept.items ≡ grammar.kept_text (map (λ option. option.now) options.now) front text.now) }
{
    let mut kept = Vec::new(alloc);
    for line in text.split(|octet| *octet == b'\n') {
        push_kept(options, front, line, &mut kept)?;
    }
    Ok(kept)
}

/// Whether one of the lines that are reported counts.
pub(crate) fn has_counted(options: &[&str], front: Option<usize>, text: &[u8]) -> bool
    ensures { result ≡ grammar.has_counted (map (λ option. option.now) options.now) front text.now }
{
    text.split(|octet| *octet == b'\n')
        .any(|line| counts(options, front, line))
}
