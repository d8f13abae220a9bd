//! Bytes that are cut into pieces.

ghost use Rattle.std.specs.Prelude.{List, ℕ, map, IfOk, MatchOption};
ghost use Rattle.x509_c_calls.specs.Pieces.{AreCut};

use std::alloc::{AllocError, Global};

/// The pieces of these lengths into which the bytes are cut; `None` where the lengths don't add up to theirs.
pub(crate) fn cut<'a>(
    alloc: Global,
    bytes: &'a [u8],
    lens: &[usize],
) -> Result<Option<Vec<&'a [u8]>>, AllocError>
    ensures { IfOk result (λ found. MatchOption found
        ((pieces : List (List ℕ)) → AreCut bytes.now lens.now pieces → ⊥)
        (λ pieces. AreCut bytes.now lens.now (map (λ piece. piece.now) pieces.items))) }
{
    let mut pieces = Vec::new(alloc);
    let mut rest = bytes;
    for len in lens {
        if rest.len() < *len {
            return Ok(None);
        }
        pieces.push(&rest[..*len])?;
        rest = &rest[*len..];
    }
    if rest.is_empty() {
        Ok(Some(pieces))
    } else {
        Ok(None)
    }
}
