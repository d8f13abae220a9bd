//! A walk over findings in lines of JSON, one a call. It takes no memory.

ghost use Rattle.std.specs.Prelude.{◌≡◌, ◌≤◌, ◌+◌, ◌++◌, ◌∷◌, List, ℕ, drop, take, length, MatchOption};
ghost use Rattle.x509_c_lint.specs.FindingLines.{FindsTold, IsFinding, IsText, IsUnquoted, StandsAt, StepsFinding, Texts};

use x509_c_calls::{Span, Status};
use x509_der::ErrorKind;

/// The texts of a finding, by their places.
#[derive(Clone, Copy)]
#[repr(C)]
pub struct FindingView {
    /// What the object is called.
    pub object: Span,

    /// The name of the rule.
    pub rule: Span,

    /// How bad it is to break the rule: `error`, `warning` or `not judged`.
    pub severity: Span,

    /// The standard and the section that have the rule.
    pub section: Span,

    /// Where in the object the rule is broken.
    pub place: Span,

    /// What is seen there; empty where nothing is told.
    pub seen: Span,
}

/// What stands behind the front at the place; `None` where the front doesn't stand there.
fn behind_front<'a>(lines: &'a [u8], at: usize, front: &[u8]) -> Option<&'a [u8]>
    requires { at ≤ length lines.now }
    ensures { MatchOption result ((more : List ℕ) → drop at lines.now ≡ front.now ++ more → ⊥) (λ more. drop at lines.now ≡ front.now ++ more.now) }
{
    let (_passed, rest) = lines.split_at(at);
    if rest.len() < front.len() {
        return None;
    }
    let (begin, more) = rest.split_at(front.len());
    if begin == front { Some(more) } else { None }
}

/// How many octets stand in front of the first quotation mark.
fn quote_in(octets: &[u8]) -> Option<usize>
    ensures { MatchOption result (IsUnquoted octets.now) (λ len. IsUnquoted (take len octets.now) × (drop len octets.now ≡ 34 ∷ drop (len + 1) octets.now)) }
{
    for (place, octet) in octets.iter().enumerate() {
        if *octet == b'"' {
            return Some(place);
        }
    }
    None
}

/// Where the text stands that begins behind the front at the place, and ends at the next quotation mark; `None` where there is none.
fn text_at(lines: &[u8], at: usize, front: &[u8]) -> Option<Span>
    requires { at ≤ length lines.now }
    ensures { MatchOption result
        ((text more : List ℕ) → IsUnquoted text → drop at lines.now ≡ front.now ++ (text ++ 34 ∷ more) → ⊥)
        (λ span. (text : List ℕ) × (more : List ℕ) × IsText lines.now at front.now text more span) }
{
    let Some(rest) = behind_front(lines, at, front) else {
        return None;
    };
    let Some(len) = quote_in(rest) else {
        return None;
    };
    Some(Span {
        place: lines.len() - rest.len(),
        len,
    })
}

/// Where the texts of the finding stand whose line stands at the place, and the place behind that line; `None` where no such line stands there.
fn finding_at(lines: &[u8], at: usize) -> Option<(FindingView, usize)>
    requires { at ≤ length lines.now }
    ensures { MatchOption result ((t : Texts) (more : List ℕ) → StandsAt lines.now at t more → ⊥)
        (λ found. (t : Texts) × (more : List ℕ) × IsFinding lines.now at found.1 t more found.0) }
{
    let Some(object) = text_at(lines, at, b"{\"object\": \"") else {
        return None;
    };
    let Some(rule) = text_at(lines, object.place + object.len, b"\", \"rule\": \"") else {
        return None;
    };
    let Some(severity) = text_at(lines, rule.place + rule.len, b"\", \"severity\": \"") else {
        return None;
    };
    let Some(section) = text_at(lines, severity.place + severity.len, b"\", \"section\": \"") else {
        return None;
    };
    let Some(place) = text_at(lines, section.place + section.len, b"\", \"place\": \"") else {
        return None;
    };
    let Some(seen) = text_at(lines, place.place + place.len, b"\", \"seen\": \"") else {
        return None;
    };
    let Some(more) = behind_front(lines, seen.place + seen.len, b"\"}\n") else {
        return None;
    };
    Some((
        FindingView {
            object,
            rule,
            severity,
            section,
            place,
            seen,
        },
        lines.len() - more.len(),
    ))
}

/// Fills in where the texts of the next finding stand in lines as [`crate::lint_object`] puts them, and moves the place behind its line. The place is 0 to
/// begin. It takes no memory.
///
/// # Errors
///
/// [`Status::Absent`] at the end of the lines. `Malformed` exactly where no such line stands at the place, and it isn't the end. `at` and `found` are
/// unchanged then.
#[tactic(auto, unfolding(crate::specs::FindingLines::StepsFinding))]
pub fn finding_next(lines: &[u8], at: &mut usize, found: &mut FindingView) -> Status
    ensures found { StepsFinding lines.now at.old at.new found.old found.new result }
    ensures told { FindsTold lines.now at.old at.new found.new result }
{
    if *at == lines.len() {
        return Status::Absent;
    }
    if *at > lines.len() {
        return Status::Refused(ErrorKind::Malformed);
    }
    match finding_at(lines, *at) {
        Some((finding, end)) => {
            *found = finding;
            *at = end;
            Status::Done
        }
        None => Status::Refused(ErrorKind::Malformed),
    }
}
