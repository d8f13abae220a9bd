//! The sets of subtrees that apply to a certificate.

ghost use Rattle.std.specs.Prelude.{◌≡◌, ◌++◌, ◌&&◌, ◌||◌, ◌<◌, List, ℕ, IfOk, OnOk, OnSome, length};
ghost use Rattle.std.specs.Option.{option_to_list};
ghost use Rattle.x509_constraints.specs.Prefixes.{has_prefix};
ghost use Rattle.x509_constraints.specs.Stacks as stacks;

use crate::key::Key;
use crate::prefixes::Prefixes;
use std::alloc::{AllocError, Global};

/// Whether the key begins with one of each set.
pub(crate) fn in_all(sets: &[Prefixes], key: &Key) -> bool
    ensures { result ≡ stacks.in_all sets.now key.now }
{
    sets.iter().all(|set| set.has_prefix_of(key))
}

/// Whether the key begins with one of some set.
pub(crate) fn in_some(sets: &[Prefixes], key: &Key) -> bool
    ensures { result ≡ stacks.in_some sets.now key.now }
{
    sets.iter().any(|set| set.has_prefix_of(key))
}

/// Takes the last set if it is at most about twice as large.
fn pop_small(sets: &mut Vec<Prefixes>, len: usize) -> Option<Prefixes>
    ensures items { sets.old.items ≡ sets.new.items ++ option_to_list result }
    ensures fewer { OnSome result (length sets.new.items < length sets.old.items) }
{
    match sets.last() {
        Some(below) if below.len() / 2 <= len => sets.pop(),
        _ => None,
    }
}

/// Adds a set to those that all have to have a prefix of a key. Each is less than half as large as the one below it, so
/// there are few, and a key is moved few times.
pub(crate) fn push_required(
    alloc: Global,
    sets: &mut Vec<Prefixes>,
    set: Prefixes,
) -> Result<(), AllocError>
    ensures { OnOk result ((key : List ℕ) → stacks.in_all sets.new.items key ≡ (stacks.in_all sets.old.items key && has_prefix set key)) }
{
    let mut top = set;
    while let Some(below) = pop_small(sets, top.len()) {
        top = below.intersection(alloc, top)?;
    }
    sets.push(top)?;
    Ok(())
}

/// Adds a set to those of which one has to have a prefix of a key, in the same way.
pub(crate) fn push_alternative(
    alloc: Global,
    sets: &mut Vec<Prefixes>,
    set: Prefixes,
) -> Result<(), AllocError>
    ensures { OnOk result ((key : List ℕ) → stacks.in_some sets.new.items key ≡ (stacks.in_some sets.old.items key || has_prefix set key)) }
{
    let mut top = set;
    while let Some(below) = pop_small(sets, top.len()) {
        top = below.union(alloc, top)?;
    }
    sets.push(top)?;
    Ok(())
}
