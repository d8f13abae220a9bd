//! The places of entries: found, put in order, and looked up.

ghost use Rattle.std.specs.Prelude.{◌≡◌, ◌≤◌, IfSome, length};
ghost use Rattle.std.specs.List.Sorted.{IsPermutation, IsSortedByKey};
ghost use Rattle.x509_crl_index.specs.Places.{FindsPlace, IsIndex, key_at, key_cmp, places_in};
ghost use Rattle.x509_crl_index.specs.Places as specs;
ghost use Rattle.x509_der.specs.Element.{limit};

use crate::number::number_at;
use x509_der::{Tag, split_usual};

/// Puts in each place where the element of its number begins, of elements that stand one after the other.
fn put_places(octets: &[u8], places: &mut [u32])
    requires within { length octets.now ≤ limit }
    requires room { length places.old ≡ length (places_in octets.now) }
    ensures { places.new ≡ places_in octets.now }
{
    let mut rest = octets;
    for place in places.iter_mut() {
        *place = (octets.len() - rest.len()) as u32;
        if let Ok(piece) = split_usual(rest, Tag::Sequence) {
            rest = piece.rest;
        }
    }
}

/// The places in the order of an index.
fn sort_places(octets: &[u8], places: &mut [u32])
    ensures same { IsPermutation places.old places.new }
    ensures order { IsSortedByKey (key_at octets.now) key_cmp places.new }
{
    places.sort_unstable_by(|a, b| number_at(octets, *a)
        .cmp(number_at(octets, *b))
        .then(a.cmp(b)));
}

/// How many places an index of the octets has ([`index_places`]): one for each of the elements that they are, one after the other.
pub fn place_count(octets: &[u8]) -> usize
    ensures { result ≡ length (places_in octets.now) }
{
    let mut count = 0;
    let mut rest = octets;
    while let Ok(piece) = split_usual(rest, Tag::Sequence) {
        count += 1;
        rest = piece.rest;
    }
    count
}

/// Makes the index of the entries of which the octets are the elements, one after the other. The steps grow with n log n for n
/// entries.
pub fn index_places(octets: &[u8], places: &mut [u32])
    requires within { length octets.now ≤ limit }
    requires room { length places.old ≡ length (places_in octets.now) }
    ensures { IsIndex octets.now places.new }
{
    put_places(octets, places);
    sort_places(octets, places);
}

/// The place of the first entry whose serial number has these content octets, by an index ([`index_places`]); `None` where no entry
/// has it. Of any other places it is one where an element with that number in front stands, or none.
pub fn place_of(octets: &[u8], places: &[u32], number: &[u8]) -> Option<u32>
    ensures number { IfSome result (λ place. specs.number_at octets.now place ≡ number.now) }
    ensures first { IsIndex octets.now places.now → FindsPlace octets.now number.now (places_in octets.now) result }
{
    let low = places.partition_point(|place| number_at(octets, *place).cmp(number).is_lt());
    if low < places.len() && number_at(octets, places[low]) == number {
        return Some(places[low]);
    }
    None
}
