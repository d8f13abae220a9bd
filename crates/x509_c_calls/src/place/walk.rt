//! Steps over elements that stand one behind the other, or one in the other. Each says where an element stands; where none stands at the
//! place, it stays there and answers no octets.

ghost use Rattle.std.specs.Prelude.{◌≡◌, ◌<◌, ◌≤◌, ◌+◌, ◌++◌, true, drop, length, List, ℕ};
ghost use Rattle.x509_c_calls.specs.Place.{IsAt, IsField};
ghost use Rattle.x509_der.specs.Element.{element, is_identifier};

use crate::place::span::Span;
use x509_der::split_element;

/// Where the content of the element at the place begins and ends; the place itself where none stands there.
fn content_of(input: &[u8], place: usize) -> (usize, usize)
    requires { place ≤ length input.now }
    ensures ordered { (place ≤ result.0) × (result.0 ≤ result.1) × (result.1 ≤ length input.now) }
    ensures stands { (tag : ℕ) (content more : List ℕ) → is_identifier tag ≡ true → drop place input.now ≡ element tag content ++ more
        → (drop result.0 input.now ≡ content ++ more) × (drop result.1 input.now ≡ more)
        × (result.0 + length content ≡ result.1) × (place + length (element tag content) ≡ result.1) }
    ensures nothing { ((tag : ℕ) (content more : List ℕ) → is_identifier tag ≡ true → drop place input.now ≡ element tag content ++ more → ⊥)
        → (result.0 ≡ place) × (result.1 ≡ place) }
{
    let (_, rest) = input.split_at(place);
    match split_element(rest) {
        Ok(piece) => {
            let end = input.len() - piece.rest.len();
            (end - piece.content.len(), end)
        }
        Err(_) => (place, place),
    }
}

/// Steps over a field that is there, or over none, and answers where it stands.
pub fn step(input: &[u8], at: &mut usize, is_there: bool) -> Span
    requires { at.old ≤ length input.now }
    ensures within { at.new ≤ length input.now }
    ensures stands { (text more : List ℕ) → IsField is_there text → drop at.old input.now ≡ text ++ more → IsAt text more input.now result
        × (drop at.new input.now ≡ more) }
    ensures nothing { ((text more : List ℕ) → IsField is_there text → drop at.old input.now ≡ text ++ more → ⊥) → (at.new ≡ at.old)
        × (result ≡ record { place = at.old; len = 0 }) }
{
    let place = *at;
    if is_there {
        *at = content_of(input, place).1;
    }
    Span {
        place,
        len: *at - place,
    }
}

/// Steps into an element, and answers where its content stands.
pub fn enter(input: &[u8], at: &mut usize) -> Span
    requires { at.old ≤ length input.now }
    ensures within { at.new ≤ length input.now }
    ensures stands { (tag : ℕ) (content more : List ℕ) → is_identifier tag ≡ true → drop at.old input.now ≡ element tag content ++ more
        → IsAt content more input.now result × (drop at.new input.now ≡ content ++ more) }
    ensures nothing { ((tag : ℕ) (content more : List ℕ) → is_identifier tag ≡ true → drop at.old input.now ≡ element tag content ++ more → ⊥)
        → (at.new ≡ at.old) × (result ≡ record { place = at.old; len = 0 }) }
{
    let (begin, end) = content_of(input, *at);
    *at = begin;
    Span {
        place: begin,
        len: end - begin,
    }
}

/// Steps over a part that is so long, and answers where it stands; where fewer octets are left, it stays there and answers none.
pub fn pass(input: &[u8], at: &mut usize, len: usize) -> Span
    requires { at.old ≤ length input.now }
    ensures within { at.new ≤ length input.now }
    ensures stands { (text more : List ℕ) → len ≡ length text → drop at.old input.now ≡ text ++ more → IsAt text more input.now result
        × (drop at.new input.now ≡ more) }
    ensures nothing { length input.now < at.old + len → (at.new ≡ at.old) × (result ≡ record { place = at.old; len = 0 }) }
{
    let place = *at;
    if input.len() - place < len {
        return Span { place, len: 0 };
    }
    *at = place + len;
    Span { place, len }
}
