//! Arcs and subidentifiers, with no allocation.

ghost use Rattle.std.specs.Prelude.{◌≡◌, ℕ, ◌^◌, ◌<◌, ◌≤◌, List, [], ◌∷◌, ◌++◌, length, take, Some, IfSome, true, IsTrue, ◌↔◌};
ghost use Rattle.std.specs.Fmt.{decimal};
ghost use Rattle.x509_der.specs.Arcs.{AreSmall, dotted};
ghost use Rattle.x509_der.specs.ObjectIdentifier.{is_object_identifier, subidentifiers_in};

use std::marker::Model;

// As many arcs as the most content octets can say: one for each octet, and one more for the first.
const MAX_NUMBERS: usize = 40;

/// Up to 40 numbers in their order.
#[derive(Drop)]
pub struct Numbers {
    len: usize,
    numbers: [u32; MAX_NUMBERS],
}

impl Model for Numbers {
    ghost Value = { List ℕ };

    ghost view = { λ a. take a.len a.numbers };

    ghost invariant = { λ a. a.len ≤ 40 };
}

impl Numbers {
    fn new() -> Numbers
        ensures { result ≡ [] }
    {
        Numbers {
            len: 0,
            numbers: [0; MAX_NUMBERS],
        }
    }

    // Whether there is no room for one more.
    fn is_full(&self) -> bool
        ensures { IsTrue result ↔ (length self.now ≡ 40) }
    {
        self.len == MAX_NUMBERS
    }

    fn push(&mut self, number: u32)
        requires { length self.old < 40 }
        ensures { self.new ≡ self.old ++ number ∷ [] }
    {
        self.numbers[self.len] = number;
        self.len += 1;
    }

    /// The numbers.
    pub fn as_slice(&self) -> &[u32]
        ensures { result.now ≡ self.now }
    {
        &self.numbers[..self.len]
    }

    /// The arcs that a dotted text says.
    pub fn arcs_in(text: &str) -> Option<Numbers>
        ensures found { IfSome result (λ arcs.
            (0 < length arcs) × AreSmall arcs × (text.now ≡ dotted arcs)) }
        ensures only { (arcs : List ℕ) → 0 < length arcs → length arcs ≤ 40 → AreSmall arcs
            → text.now ≡ dotted arcs → result ≡ Some arcs }
    {
        let mut numbers = Numbers::new();
        for part in text.split('.') {
            if numbers.is_full() {
                return None;
            }
            numbers.push(arc_in(part)?);
        }
        Some(numbers)
    }

    /// The subidentifiers in the content octets of an object identifier.
    pub fn subidentifiers_in(content: &[u8]) -> Numbers
        requires { is_object_identifier content.now ≡ true }
        ensures numbers { result ≡ subidentifiers_in 0 content.now }
        ensures some { 0 < length result }
    {
        let mut numbers = Numbers::new();
        let mut high: u32 = 0;
        for octet in content {
            let octet = *octet;
            if octet < 128 {
                numbers.push(128 * high + octet as u32);
                high = 0;
            } else {
                high = 128 * high + (octet - 128) as u32;
            }
        }
        numbers
    }
}

// The least octet with which two or more digits begin.
const LEAST_FIRST_DIGIT: u8 = b'1';

// The arc that a text says: decimal digits without leading zeros.
fn arc_in(text: &str) -> Option<u32>
    ensures found { IfSome result (λ arc. text.now ≡ decimal arc) }
    ensures only { (arc : ℕ) → arc < 2 ^ 32 → text.now ≡ decimal arc → result ≡ Some arc }
{
    // Below it are the sign and the leading zero, which `parse` would take.
    if text.len() > 1 && text.as_bytes()[0] < LEAST_FIRST_DIGIT {
        return None;
    }
    text.parse::<u32>().ok()
}
