//! Elements, by how long they are.

ghost use Rattle.std.specs.Prelude.{◌≡◌, ◌+◌, ◌<◌, true, length, List, ℕ, IfOk, IfErr};
ghost use Rattle.x509_der.specs.Element.{element, is_identifier};
ghost use Rattle.x509_der.specs.ElementReading.{piece_at};
ghost use Rattle.x509_der.specs.Outcome.{GivesBy};
ghost use Rattle.x509_der.specs.declared.error.ErrorKind.TheVariants.{Malformed};

use x509_der::{Error, Piece, Tag, split_usual};

/// As [`split_usual`]; its content and what follows it are shorter than the bytes.
///
/// # Errors
///
/// `Malformed` exactly where the bytes begin with no element.
#[tactic(auto, using(crate::proofs::Checks::piece_within))]
#[inline(always)]
pub(crate) fn next_element(bytes: &[u8], usual: Tag) -> Result<Piece<'_>, Error>
    ensures exact { GivesBy (λ x. record { tag = x.tag; content = x.content.now; rest = x.rest.now }) result (piece_at bytes.now) }
    ensures within { IfOk result (λ x. length x.content.now + length x.rest.now < length bytes.now) }
    ensures err { IfErr result (λ e. e.kind ≡ Malformed) }
{
    let piece = split_usual(bytes, usual)?;
    Ok(piece)
}

/// The content of the element that the bytes are.
pub(crate) fn content_of(bytes: &[u8]) -> &[u8]
    ensures { (tag : ℕ) (content : List ℕ) → is_identifier tag ≡ true → bytes.now ≡ element tag content → result.now ≡ content }
{
    match next_element(bytes, Tag::Sequence) {
        Ok(piece) => piece.content,
        Err(_) => &[],
    }
}
