//! Steps over elements of which the contents are known.

ghost use Rattle.std.specs.Prelude.{◌≡◌, ◌≤◌, ◌∷◌, ◌++◌, true, false, drop, length, List, ℕ};
ghost use Rattle.x509_c_calls.specs.Optional.{IsNowhere};
ghost use Rattle.x509_c_calls.specs.Place.{IsAt};
ghost use Rattle.x509_der.specs.Element.{element, is_identifier};

use crate::{Span, enter, step};

/// The span of an absent part: offset 0 and length 0.
pub const NOWHERE: Span = Span { place: 0, len: 0 };

/// Steps over an element, and answers where its content stands.
pub fn step_content(input: &[u8], at: &mut usize) -> Span
    requires { at.old ≤ length input.now }
    ensures within { at.new ≤ length input.now }
    ensures stands { (tag : ℕ) (content more : List ℕ) → is_identifier tag ≡ true → drop at.old input.now ≡ element tag content ++ more
        → IsAt content more input.now result × (drop at.new input.now ≡ more) }
{
    let mut inside = *at;
    let content = enter(input, &mut inside);
    step(input, at, true);
    content
}

/// Where the content stands of the element that stands at the place.
pub fn content_at(input: &[u8], place: usize) -> Span
    requires { place ≤ length input.now }
    ensures stands { (tag : ℕ) (content more : List ℕ) → is_identifier tag ≡ true → drop place input.now ≡ element tag content ++ more
        → IsAt content more input.now result }
    ensures within { result.place ≤ length input.now }
{
    let mut at = place;
    enter(input, &mut at)
}

/// Where the octets stand that hold the bits of a BIT STRING, which stands at the place: its content but for the first octet (X.690 8.6.2.2).
pub fn bits_at(input: &[u8], place: usize) -> Span
    requires { place ≤ length input.now }
    ensures { (tag unused : ℕ) (octets more : List ℕ) → is_identifier tag ≡ true → drop place input.now ≡ element tag (unused ∷ octets) ++ more
        → IsAt octets more input.now result }
{
    let content = content_at(input, place);
    if content.len == 0 {
        return content;
    }
    Span {
        place: content.place + 1,
        len: content.len - 1,
    }
}

/// How many bits of its last octet are unused of a BIT STRING, which stands at the place: its first content octet (X.690 8.6.2.2).
pub fn unused_at(input: &[u8], place: usize) -> u32
    requires { place ≤ length input.now }
    ensures { (tag unused : ℕ) (octets more : List ℕ) → is_identifier tag ≡ true → drop place input.now ≡ element tag (unused ∷ octets) ++ more
        → result ≡ unused }
{
    match input.get(content_at(input, place).place) {
        Some(unused) => u32::from(*unused),
        None => 0,
    }
}

/// Steps over an element that may be left out, and answers where it stands; nowhere where it is left out.
pub fn step_optional(input: &[u8], at: &mut usize, is_there: bool) -> Span
    requires { at.old ≤ length input.now }
    ensures within { at.new ≤ length input.now }
    ensures there { is_there ≡ true → (tag : ℕ) (content more : List ℕ) → is_identifier tag ≡ true → drop at.old input.now ≡ element tag content ++ more
        → IsAt (element tag content) more input.now result × (drop at.new input.now ≡ more) }
    ensures absent { is_there ≡ false → IsNowhere result × (at.new ≡ at.old) }
{
    if !is_there {
        return NOWHERE;
    }
    step(input, at, true)
}

/// Steps over an element that may be left out, and answers where its content octets stand; nowhere where it is left out.
pub fn step_optional_content(input: &[u8], at: &mut usize, is_there: bool) -> Span
    requires { at.old ≤ length input.now }
    ensures within { at.new ≤ length input.now }
    ensures there { is_there ≡ true → (tag : ℕ) (content more : List ℕ) → is_identifier tag ≡ true → drop at.old input.now ≡ element tag content ++ more
        → IsAt content more input.now result × (drop at.new input.now ≡ more) }
    ensures absent { is_there ≡ false → IsNowhere result × (at.new ≡ at.old) }
{
    if !is_there {
        return NOWHERE;
    }
    step_content(input, at)
}
