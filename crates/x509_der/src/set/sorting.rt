//! Items in the byte order of their encodings, without memory.

ghost use Rattle.std.specs.List.{All, sum};
ghost use Rattle.std.specs.Prelude.{◌≡◌, ◌<◌, ◌≤◌, ◌^◌, IfSome, IsTrue, length, false};
ghost use Rattle.std.specs.List.Sorted.{IsPermutation, IsStrictlySortedBy};
ghost use Rattle.x509_der.specs.Writing.{writes};
ghost use Rattle.x509_der.specs.Order.{der_order};
ghost use Rattle.x509_der.specs.Set.{AreDistinct, is_rising};

use crate::DerOrd;
use crate::order::counted_len;
use crate::set::places::is_rising;
use std::cmp::Ordering;

/// Up to so many items are sorted by comparisons alone.
const MAX_COMPARED: usize = 24;

/// How many content lengths are told apart; longer contents count as of the last.
const LENGTHS: usize = 256;

/// Sorts the items in the byte order of their encodings, in O(n log n) comparisons and without memory. Whether no two
/// are equal.
pub(crate) fn sort<T: DerOrd>(items: &mut [T]) -> bool
    ensures permutation { IsPermutation items.old items.new }
    ensures distinct { IsTrue result → IsStrictlySortedBy (der_order T.form (writes T.writing) T.order) items.new }
    ensures equal { result ≡ false → ¬ AreDistinct items.old }
{
    if items.len() > MAX_COMPARED && rise(items) {
        return true;
    }
    items.sort_unstable_by(|a, b| a.der_cmp(b));
    is_rising(items)
}

/// Whether each item is below the next, as they stand, or else turned round or arranged.
fn rise<T: DerOrd>(items: &mut [T]) -> bool
    ensures permutation { IsPermutation items.old items.new }
    ensures rising { result ≡ is_rising (der_order T.form (writes T.writing) T.order) items.new }
{
    if is_rising(items) {
        return true;
    }
    if is_falling(items) {
        items.reverse();
    } else {
        arrange(items);
    }
    is_rising(items)
}

/// Whether no item is below the next.
fn is_falling<T: DerOrd>(items: &[T]) -> bool {
    items.is_sorted_by(|a, b| a.der_cmp(b).is_ge())
}

/// Brings items of one identifier into the byte order of their encodings: shorter contents before longer ones, and
/// those of one length by their octets. The length of each is told twice, where a comparison tells it of both sides.
/// Items of several identifiers stay as they are.
#[inline(never)]
fn arrange<T: DerOrd>(items: &mut [T])
    ensures { IsPermutation items.old items.new }
{
    if let Some(counts) = count_lengths(items) {
        fill_runs(items, &counts);
        sort_runs(items, &counts);
    }
}

/// How many items have each length; `None` where there are none, or several identifiers.
fn count_lengths<T: DerOrd>(items: &[T]) -> Option<[usize; LENGTHS]>
    ensures { IfSome result (λ counts. sum counts ≡ length items.now) }
{
    let identifier = items.first()?.identifier().octet();
    let mut counts = [0_usize; LENGTHS];
    for item in items {
        if item.identifier().octet() != identifier {
            return None;
        }
        counts[length_of(item)] += 1;
    }
    Some(counts)
}

/// Where the run of each length ends.
fn ends_of(counts: &[usize; LENGTHS]) -> [usize; LENGTHS]
    requires { sum counts.now < 2 ^ 64 }
    ensures { All (λ end. end ≤ sum counts.now) result }
{
    let mut ends = [0_usize; LENGTHS];
    let mut end = 0;
    for len in 0..LENGTHS {
        end += counts[len];
        ends[len] = end;
    }
    ends
}

/// Moves each item into the run of its length, from the end of that run on, by exchanges.
fn fill_runs<T: DerOrd>(items: &mut [T], counts: &[usize; LENGTHS])
    requires { sum counts.now ≡ length items.now }
    ensures { IsPermutation items.old items.new }
{
    let mut ends = ends_of(counts);
    let mut start = 0;
    for len in 0..LENGTHS {
        while start < ends[len] {
            let own = length_of(&items[start]);
            let Some(goal) = ends[own].checked_sub(1) else {
                return;
            };
            items.swap(start, goal);
            ends[own] = goal;
        }
        start += counts[len];
    }
}

/// Sorts the run of each length by the contents.
fn sort_runs<T: DerOrd>(items: &mut [T], counts: &[usize; LENGTHS])
    requires { sum counts.now ≡ length items.now }
    ensures { IsPermutation items.old items.new }
{
    let mut start = 0;
    for len in 0..LENGTHS {
        let end = start + counts[len];
        items[start..end].sort_unstable_by(|a, b| compare(len, a, b));
        start = end;
    }
}

/// The length of the content of an item; the last one that is told apart for all longer contents.
fn length_of<T: DerOrd>(item: &T) -> usize
    ensures { result < LENGTHS }
{
    (counted_len(item) as usize).min(LENGTHS - 1)
}

/// The order of two items whose contents have that length.
fn compare<T: DerOrd>(len: usize, a: &T, b: &T) -> Ordering {
    if len < LENGTHS - 1 {
        a.value_cmp(b)
    } else {
        a.der_cmp(b)
    }
}
