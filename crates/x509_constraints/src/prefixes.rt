//! Sets of keys, asked whether a key begins with one of them.

ghost use Rattle.std.specs.Prelude.{◌≡◌, ◌-◌, List, ℕ, IfOk, length, slice_get};
ghost use Rattle.std.specs.Ordering.{nat_cmp};
ghost use Rattle.std.specs.Cmp.Lexicographic.{slice_cmp};
ghost use Rattle.std.specs.List.Sorted.{IsSorted};
ghost use Rattle.x509_constraints.specs.Prefixes.{AreApart, begins_one, has_prefix};

use crate::key::Key;
use std::alloc::{AllocError, Global};
use std::marker::Model;

/// Keys in ascending order, none of which begins with another. Contracts see their list.
#[derive(Drop)]
pub struct Prefixes {
    pub(crate) keys: Vec<Key>,
}

impl Model for Prefixes {
    ghost Value = { List (List ℕ) };

    ghost view = { λ set. set.keys.items };

    ghost invariant = { λ set. AreApart set.keys.items };
}

/// Whether there is a last key, and this one begins with it.
pub(crate) fn begins_with_last(kept: &[Key], key: &Key) -> bool
    ensures { result ≡ begins_one key.now (slice_get kept.now (length kept.now - 1)) }
{
    match kept.last() {
        Some(last) => key.begins_with(last),
        None => false,
    }
}

/// The first of each run of keys that begin with it, of keys in ascending order.
fn shortest(alloc: Global, keys: Vec<Key>) -> Result<Prefixes, AllocError>
    requires { IsSorted (slice_cmp nat_cmp) keys.items }
    ensures { IfOk result (λ set. (key : List ℕ) → has_prefix set key ≡ has_prefix keys.items key) }
{
    let mut kept: Vec<Key> = Vec::new(alloc);
    let mut rest = keys.into_iter();
    while let Some(key) = rest.next() {
        if !begins_with_last(&kept, &key) {
            kept.push(key)?;
        }
    }
    Ok(Prefixes { keys: kept })
}

impl Prefixes {
    /// The set that has the same prefixes as these keys.
    ///
    /// # Errors
    ///
    /// When out of memory.
    pub fn new(alloc: Global, keys: Vec<Key>) -> Result<Prefixes, AllocError>
        ensures { IfOk result (λ set. (key : List ℕ) → has_prefix set key ≡ has_prefix keys.items key) }
    {
        let mut sorted = keys;
        sorted.sort()?;
        shortest(alloc, sorted)
    }

    /// Whether the key begins with one of the set, in time that grows with the logarithm of how many there are.
    pub fn has_prefix_of(&self, key: &Key) -> bool
        ensures { result ≡ has_prefix self.now key.now }
    {
        // A key of the set with which this one begins stands neither before `low` nor at `high` or behind it.
        let mut low = 0;
        let mut high = self.keys.len();
        while high - low > 1 {
            let middle = low + (high - low) / 2;
            if self.keys[middle].is_at_most(key) {
                low = middle;
            } else {
                high = middle;
            }
        }
        low < high && key.begins_with(&self.keys[low])
    }
}
