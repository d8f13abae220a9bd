//! Where bytes stop being what is asked for.

ghost use Rattle.std.specs.Prelude.{◌≡◌, IfOk, string_bytes};
ghost use Rattle.x509_linter.specs.Wrong.{fault_members, members_at, place_members, refusal_for, wrong};

use std::alloc::{AllocError, Global};
use x509_lint::Kind;
use x509_object_run::{Fault, is_whole};
use x509_refusal::{Refusal, farthest, refusal_as, wrong_words};

/// Where bytes stop being an object of the kind that is asked for, or of the one that they are most like; `None` of a trust anchor.
fn refusal_for(kind: Option<Kind>, bytes: &[u8]) -> Option<Refusal>
    ensures { result ≡ refusal_for kind bytes.now }
{
    match kind {
        None => farthest(bytes),
        Some(Kind::Certificate) => refusal_as(x509_refusal::Kind::Certificate, bytes),
        Some(Kind::Crl) => refusal_as(x509_refusal::Kind::Crl, bytes),
        Some(Kind::Csr) => refusal_as(x509_refusal::Kind::Csr, bytes),
        Some(Kind::Anchor) => None,
    }
}

/// What in bytes is wrong, in words.
pub(crate) fn wrong_in(
    alloc: Global,
    kind: Option<Kind>,
    bytes: &[u8],
) -> Result<String, AllocError>
    ensures { IfOk result (λ text. string_bytes text ≡ wrong kind bytes.now) }
{
    wrong_words(alloc, refusal_for(kind, bytes))
}

/// The members of JSON of a path of fields and a byte offset.
fn members_at(alloc: Global, path: &str, offset: usize) -> Result<String, AllocError>
    ensures { IfOk result (λ text. string_bytes text ≡ members_at path.now offset) }
{
    format!(in alloc; ", \"place\": \"{path}\", \"offset\": {offset}")
}

/// Those that say where bytes stop being an object, where it is known.
fn place_members(alloc: Global, refusal: Option<Refusal>) -> Result<String, AllocError>
    ensures { IfOk result (λ text. string_bytes text ≡ place_members refusal) }
{
    match refusal {
        Some(refusal) => members_at(alloc, refusal.place.field.path(), refusal.place.offset),
        None => Ok(String::new(alloc)),
    }
}

/// Those of bytes that are one SEQUENCE; none of others.
pub(crate) fn fault_members(
    alloc: Global,
    kind: Option<Kind>,
    bytes: &[u8],
    fault: Fault,
) -> Result<String, AllocError>
    ensures { IfOk result (λ text. string_bytes text ≡ fault_members kind bytes.now fault) }
{
    if is_whole(fault) {
        place_members(alloc, refusal_for(kind, bytes))
    } else {
        Ok(String::new(alloc))
    }
}
