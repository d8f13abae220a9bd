//! Where the signed part stands.

ghost use Rattle.std.specs.Prelude.{◌≡◌, ◌++◌, List, ℕ, IfNone, IfSome, MatchOption};
ghost use Rattle.x509_c_calls.specs.Place.{IsAt};
ghost use Rattle.x509_c_calls.specs.SignedPlace.{IsSignedAt};
ghost use Rattle.x509_cert.specs.Signed.{IsSignedPart};
ghost use Rattle.x509_der.specs.Element.{element};

use crate::Status;
use crate::place::span::Span;
use x509_der::{ErrorKind, Length, Tag, split_element};

/// The content of the SEQUENCE at the front, and what follows it; `None` where the bytes begin with none.
#[inline(always)]
fn take_sequence(bytes: &[u8]) -> Option<(&[u8], &[u8])>
    ensures some { IfSome result (λ found. bytes.now ≡ element 48 found.0.now ++ found.1.now) }
    ensures none { IfNone result ((content rest : List ℕ) → bytes.now ≡ element 48 content ++ rest → ⊥) }
{
    match split_element(bytes) {
        Ok(piece) => {
            if piece.tag != Tag::Sequence.octet() {
                return None;
            }
            Some((piece.content, piece.rest))
        }
        Err(_) => None,
    }
}

/// Where the bytes stand that the signature of a certificate, of a CRL or of a CSR is over (RFC 5280 4.1.1.3, 5.1.1.3,
/// RFC 2986 4.2).
pub fn signed_span(input: &[u8]) -> Option<Span>
    ensures { MatchOption result ((signed : List ℕ) → IsSignedPart input.now signed → ⊥) (λ span. (signed : List ℕ) × (part : IsSignedPart input.now signed)
        × IsAt signed part.behind input.now span) }
{
    if input.len() > Length::MAX.as_u32() as usize {
        return None;
    }
    let Some((content, after)) = take_sequence(input) else {
        return None;
    };
    if !after.is_empty() {
        return None;
    }
    let Some((_, behind)) = take_sequence(content) else {
        return None;
    };
    Some(Span {
        place: input.len() - content.len(),
        len: content.len() - behind.len(),
    })
}

/// [`signed_span`] as a call that fills in the span. It takes no memory.
///
/// # Errors
///
/// `Malformed` exactly where there are no signed bytes; the span is unchanged then.
#[tactic(auto, unfolding(crate::specs::SignedPlace::IsSignedAt))]
pub fn signed_place(input: &[u8], span: &mut Span) -> Status
    ensures { IsSignedAt input.now span.old span.new result }
{
    match signed_span(input) {
        Some(found) => {
            *span = found;
            Status::Done
        }
        None => Status::Refused(ErrorKind::Malformed),
    }
}
