//! Where bytes stop being an object, in words.

ghost use Rattle.std.specs.Prelude.{◌≡◌, IfOk, false, string_bytes, true};
ghost use Rattle.x509_refusal.specs.Words.{kind_text, place_text, refusal_text, wrong_text};

use crate::place::{Kind, Refusal};
use std::alloc::{AllocError, Global};

/// What a kind is called.
fn kind_words(kind: Kind) -> &'static str
    ensures { result.now ≡ kind_text kind }
{
    match kind {
        Kind::Certificate => "a certificate",
        Kind::Crl => "a CRL",
        Kind::Csr => "a CSR",
    }
}

/// How octets at an offset are told of that stand behind the last field of one, in an object of a kind.
fn behind_words(alloc: Global, path: &str, offset: usize, kind: &str) -> Result<String, AllocError>
    ensures { IfOk result (λ text. string_bytes text ≡ place_text true path.now offset kind.now) }
{
    format!(in alloc;
        "behind the last field of {path}, at offset {offset}, stand octets that {kind} hasn't there"
    )
}

/// How a field at an offset is told of that can't be read, in an object of a kind.
fn unread_words(alloc: Global, path: &str, offset: usize, kind: &str) -> Result<String, AllocError>
    ensures { IfOk result (λ text. string_bytes text ≡ place_text false path.now offset kind.now) }
{
    format!(in alloc; "{path}, at offset {offset}, isn't what {kind} has there")
}

/// Where bytes stop being an object, in words, as `tbsCertificate.validity, at offset 85, isn't what a certificate has there`.
///
/// # Errors
///
/// `AllocError` when out of memory.
pub fn refusal_words(alloc: Global, refusal: Refusal) -> Result<String, AllocError>
    ensures { IfOk result (λ text. string_bytes text ≡ refusal_text refusal) }
{
    let path = refusal.place.field.path();
    let offset = refusal.place.offset;
    let kind = kind_words(refusal.kind);
    if refusal.place.is_behind {
        behind_words(alloc, path, offset, kind)
    } else {
        unread_words(alloc, path, offset, kind)
    }
}

/// What in bytes is wrong, in words, where it is known where they stop being an object, or isn't.
///
/// # Errors
///
/// `AllocError` when out of memory.
pub fn wrong_words(alloc: Global, refusal: Option<Refusal>) -> Result<String, AllocError>
    ensures { IfOk result (λ text. string_bytes text ≡ wrong_text refusal) }
{
    match refusal {
        Some(refusal) => refusal_words(alloc, refusal),
        None => String::from_str(alloc, "something in it is wrong"),
    }
}
