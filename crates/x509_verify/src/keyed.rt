//! Entries in the order of their keys.

ghost use Rattle.std.specs.Prelude.{◌≡◌, Contains, IfOk, IsPermutation, filter, true};
ghost use Rattle.x509_verify.specs.Keyed.{IsInOrder};

use std::alloc::AllocError;

/// A value under a key.
#[derive(Debug, Drop)]
pub(crate) struct Keyed<K, V> {
    /// The key.
    pub(crate) key: K,

    /// The value.
    pub(crate) value: V,
}

/// The entries in the order of their keys.
pub(crate) fn in_order<K: Ord + Drop, V: Drop>(
    entries: Vec<Keyed<K, V>>,
) -> Result<Vec<Keyed<K, V>>, AllocError>
    ensures same { IfOk result (λ sorted. IsPermutation entries.items sorted.items) }
    ensures order { IfOk result (λ sorted. IsInOrder K.cmp sorted.items) }
{
    let mut sorted = entries;
    sorted.sort_by(|a, b| a.key.cmp(&b.key))?;
    Ok(sorted)
}

/// The entries whose keys are equal to that one, of entries in the order of their keys.
pub(crate) fn under_key<'s, K: Ord, V>(entries: &'s [Keyed<K, V>], key: &K) -> &'s [Keyed<K, V>]
    requires { IsInOrder K.cmp entries.now }
    ensures all { result.now ≡ filter (λ entry. K.eq entry.key key.now) entries.now }
    ensures every { (entry : Keyed K V) → Contains entries.now entry → K.eq entry.key key.now ≡ true → Contains result.now entry }
    ensures some { (entry : Keyed K V) → Contains result.now entry → Contains entries.now entry }
{
    let low = entries.partition_point(|entry| entry.key.cmp(key).is_lt());
    let (_, rest) = entries.split_at(low);
    let count = rest.partition_point(|entry| entry.key.cmp(key).is_le());
    let (found, _) = rest.split_at(count);
    found
}
