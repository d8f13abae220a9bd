//! Sets of keys that answer as two do.

ghost use Rattle.std.specs.Prelude.{◌≡◌, ◌∷◌, ◌&&◌, ◌||◌, not, [], List, ℕ, IfOk, MatchOption, filter, slice_get};
ghost use Rattle.std.specs.Option.{option_copied};
ghost use Rattle.x509_constraints.specs.Merging as merging;
ghost use Rattle.x509_constraints.specs.Merging.{merge};
ghost use Rattle.x509_constraints.specs.Prefixes.{AreApart, has_prefix};

use crate::key::Key;
use crate::prefixes::{Prefixes, begins_with_last};
use std::alloc::{AllocError, Global};
use std::collections::VecDeque;

/// Whether the first key is the next of both.
fn is_first(left: Option<&Key>, right: Option<&Key>) -> bool
    ensures { result ≡ merging.is_first (option_copied left.entry) (option_copied right.entry) }
{
    match (left, right) {
        (Some(x), Some(y)) => x.is_at_most(y),
        (Some(_), None) => true,
        (None, _) => false,
    }
}

/// Takes the lesser of the first keys.
fn pop_lesser(left: &mut VecDeque<Key>, right: &mut VecDeque<Key>) -> Option<Key>
    ensures { MatchOption result (merge left.old.items right.old.items ≡ [])
        (λ key. merge left.old.items right.old.items ≡ key ∷ merge left.new.items right.new.items) }
{
    if is_first(left.front(), right.front()) {
        left.pop_front()
    } else {
        right.pop_front()
    }
}

/// The keys of both, without those that begin with another.
fn swept(alloc: Global, left: Vec<Key>, right: Vec<Key>) -> Result<Prefixes, AllocError>
    requires left { AreApart left.items }
    requires right { AreApart right.items }
    ensures { IfOk result (λ set. (key : List ℕ) → has_prefix set key ≡ has_prefix (merge left.items right.items) key) }
{
    let mut kept: Vec<Key> = Vec::new(alloc);
    let mut lefts = VecDeque::from(left);
    let mut rights = VecDeque::from(right);
    while let Some(key) = pop_lesser(&mut lefts, &mut rights) {
        if !begins_with_last(&kept, &key) {
            kept.push(key)?;
        }
    }
    Ok(Prefixes { keys: kept })
}

/// The keys that begin with one of the set, and the others.
fn parted(alloc: Global, keys: Vec<Key>, set: &Prefixes) -> Result<(Vec<Key>, Vec<Key>), AllocError>
    ensures { IfOk result (λ parts. (parts.0.items ≡ filter (λ key. has_prefix set.now key) keys.items)
        × (parts.1.items ≡ filter (λ key. not (has_prefix set.now key)) keys.items)) }
{
    let mut within: Vec<Key> = Vec::new(alloc);
    let mut outside: Vec<Key> = Vec::new(alloc);
    let mut rest = keys.into_iter();
    while let Some(key) = rest.next() {
        if set.has_prefix_of(&key) {
            within.push(key)?;
        } else {
            outside.push(key)?;
        }
    }
    Ok((within, outside))
}

impl Prefixes {
    /// The set that has the prefixes of either.
    ///
    /// # Errors
    ///
    /// When out of memory.
    pub fn union(self, alloc: Global, other: Prefixes) -> Result<Prefixes, AllocError>
        ensures { IfOk result (λ set. (key : List ℕ) → has_prefix set key ≡ (has_prefix self key || has_prefix other key)) }
    {
        let Prefixes { keys: left } = self;
        let Prefixes { keys: right } = other;
        swept(alloc, left, right)
    }

    /// The set that has a prefix of a key where both have one.
    ///
    /// # Errors
    ///
    /// When out of memory.
    pub fn intersection(self, alloc: Global, other: Prefixes) -> Result<Prefixes, AllocError>
        ensures { IfOk result (λ set. (key : List ℕ) → has_prefix set key ≡ (has_prefix self key && has_prefix other key)) }
    {
        let Prefixes { keys } = self;
        let (within, outside) = parted(alloc, keys, &other)?;
        let outside = Prefixes { keys: outside };
        let Prefixes { keys: others } = other;
        let (under, _) = parted(alloc, others, &outside)?;
        swept(alloc, within, under)
    }

    /// How many keys there are.
    pub(crate) fn len(&self) -> usize {
        self.keys.len()
    }
}
