//! Content octets of OIDs that are made of arcs, without allocation.

ghost use Rattle.std.specs.Prelude.{◌≡◌, ℕ, ◌+◌, ◌<◌, ◌≤◌, List, [], ◌∷◌, ◌++◌, length, take, Some, IfSome, IfNone, OnSome};
ghost use Rattle.std.specs.List.{flat_map};
ghost use Rattle.std.specs.Int.Digits.{digits_of};
ghost use Rattle.x509_der.specs.Arcs.{AreArcs, content_limit, content_of, high_octets, subidentifier};

use std::marker::Model;

/// The most content octets that an OID has here.
pub const MAX_OCTETS: usize = 39;

/// Up to [`MAX_OCTETS`] octets.
#[derive(Drop)]
pub struct ContentOctets {
    len: usize,
    octets: [u8; MAX_OCTETS],
}

impl Model for ContentOctets {
    ghost Value = { List ℕ };

    ghost view = { λ c. take c.len c.octets };

    ghost invariant = { λ c. c.len ≤ content_limit };
}

impl ContentOctets {
    /// The content octets of arcs, where they are within the limits.
    pub fn of_arcs(arcs: &[u32]) -> Option<ContentOctets>
        ensures found { IfSome result (λ content. AreArcs arcs.now × (content ≡ content_of arcs.now)) }
        ensures only { AreArcs arcs.now → result ≡ Some (content_of arcs.now) }
    {
        let [first, second, others @ ..] = arcs else {
            return None;
        };
        if *first > 2 || (*first < 2 && *second > 39) {
            return None;
        }
        let mut content = ContentOctets::new();
        content.push(second.checked_add(40 * *first)?)?;
        content.push_all(others)?;
        // Of every value, and what the clauses want of this one.
        prove!(content.len <= MAX_OCTETS);
        Some(content)
    }

    fn new() -> ContentOctets
        ensures { result ≡ [] }
    {
        ContentOctets {
            len: 0,
            octets: [0; MAX_OCTETS],
        }
    }

    /// The octets.
    pub fn as_slice(&self) -> &[u8]
        ensures { result.now ≡ self.now }
    {
        &self.octets[..self.len]
    }

    // Puts a subidentifier at the end, or answers `None` where there is no room for it.
    fn push(&mut self, n: u32) -> Option<()>
        ensures some { OnSome result (self.new ≡ self.old ++ subidentifier n) }
        ensures none { IfNone result (content_limit < length self.old + length (subidentifier n)) }
    {
        self.push_high(n / 128)?;
        self.push_octet((n % 128) as u8)
    }

    // Puts subidentifiers at the end, or answers `None` where there is no room for them.
    fn push_all(&mut self, numbers: &[u32]) -> Option<()>
        ensures some { OnSome result (self.new ≡ self.old ++ flat_map subidentifier numbers.now) }
        ensures none { IfNone result (content_limit < length self.old + length (flat_map subidentifier numbers.now)) }
    {
        for number in numbers {
            self.push(*number)?;
        }
        Some(())
    }

    // The digits of n in base 128, each with the high bit set.
    fn push_high(&mut self, n: u32) -> Option<()>
        ensures some { OnSome result (self.new ≡ self.old ++ high_octets (digits_of 128 n)) }
        ensures none { IfNone result (content_limit < length self.old + length (digits_of 128 n)) }
    {
        if n == 0 {
            return Some(());
        }
        self.push_high(n / 128)?;
        self.push_octet(128 + (n % 128) as u8)
    }

    fn push_octet(&mut self, octet: u8) -> Option<()>
        ensures some { OnSome result (self.new ≡ self.old ++ octet ∷ []) }
        ensures none { IfNone result (length self.old ≡ content_limit) }
    {
        if self.len == MAX_OCTETS {
            return None;
        }
        self.octets[self.len] = octet;
        self.len += 1;
        Some(())
    }
}
