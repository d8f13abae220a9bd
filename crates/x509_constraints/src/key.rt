//! Keys, of which one may begin with another.

ghost use Rattle.std.specs.Prelude.{◌≡◌, ◌++◌, ◌∷◌, [], List, ℕ, IfOk, OnOk, bytes_eq};
ghost use Rattle.std.specs.Cmp.{partial_equiv_from_equiv, po};
ghost use Rattle.std.specs.Cmp.Lexicographic.{nat_list_eq_equiv, slice_cmp};
ghost use Rattle.std.specs.Ordering.{as_partial_cmp, nat_cmp};
ghost use Rattle.x509_constraints.specs.Prefixes.{begins, upto};

use std::alloc::{AllocError, Global};
use std::cmp::Ordering;
use std::marker::Model;

/// Symbols by which a name is looked up: octets, or numbers past them. Contracts see their list.
#[derive(Drop)]
pub struct Key {
    symbols: Vec<u16>,
}

impl Model for Key {
    ghost Value = { List ℕ };

    ghost view = { λ key. key.symbols.items };
}

impl Key {
    /// A key without symbols.
    pub fn new(alloc: Global) -> Key
        ensures { result ≡ [] }
    {
        Key {
            symbols: Vec::new(alloc),
        }
    }

    /// A key of the form, behind which a name's own symbols stand.
    pub(crate) fn of_form(alloc: Global, form: u16) -> Result<Key, AllocError>
        ensures { IfOk result (λ key. key ≡ form ∷ []) }
    {
        let mut key = Key::new(alloc);
        key.push(form)?;
        Ok(key)
    }

    /// Adds a symbol at the end.
    ///
    /// # Errors
    ///
    /// When out of memory.
    pub fn push(&mut self, symbol: u16) -> Result<(), AllocError>
        ensures { OnOk result (self.new ≡ self.old ++ symbol ∷ []) }
    {
        self.symbols.push(symbol)?;
        Ok(())
    }

    /// Whether the other key is a prefix of this one.
    pub fn begins_with(&self, other: &Key) -> bool
        ensures { result ≡ begins self.now other.now }
    {
        self.symbols
            .as_slice()
            .starts_with(other.symbols.as_slice())
    }

    /// Whether the key is at or before the other in the order.
    pub(crate) fn is_at_most(&self, other: &Key) -> bool
        ensures { result ≡ upto self.now other.now }
    {
        self.cmp(other).is_le()
    }
}

impl PartialEq for Key {
    ghost eq = { bytes_eq };

    ghost laws = { partial_equiv_from_equiv nat_list_eq_equiv };

    fn eq(&self, other: &Key) -> bool {
        self.symbols.as_slice() == other.symbols.as_slice()
    }
}

impl Eq for Key {
    ghost laws = { nat_list_eq_equiv };
}

/// As words in a dictionary.
impl Ord for Key {
    ghost use Rattle.std.specs.Prelude.{refl};
    ghost use Rattle.x509_constraints.specs.KeyOrder.{key_ties, key_total};

    ghost cmp = { slice_cmp nat_cmp };

    ghost total = { key_total };

    ghost matches_partial_cmp = { λ x y. refl };

    ghost matches_eq = { key_ties };

    fn cmp(&self, other: &Key) -> Ordering {
        self.symbols.as_slice().cmp(other.symbols.as_slice())
    }
}

impl PartialOrd for Key {
    ghost use Rattle.x509_constraints.specs.KeyOrder.{key_ties, key_total};

    ghost partial_cmp = { as_partial_cmp (slice_cmp nat_cmp) };

    ghost laws = { po key_total key_ties };

    fn partial_cmp(&self, other: &Key) -> Option<Ordering> {
        Some(self.cmp(other))
    }
}
