//! Places in lists, by what stands there.

ghost use Rattle.std.specs.List.{All};
ghost use Rattle.std.specs.Prelude.{◌≡◌, map, IfOk, MatchOption};
ghost use Rattle.x509_c_calls.specs.PathFinding.{SomeOutside, first_place, first_trust, parts, same_octets, same_option, same_trust};
ghost use Rattle.x509_c_calls.specs.RevocationStatus.{IsWithin};
ghost use Rattle.x509_c_calls.specs.Status.{IsPut};
ghost use Rattle.x509_verify.specs.Found.{octets};

use crate::Span;
use crate::revocation::part_of;
use std::alloc::{AllocError, Global};
use x509_validation::Trusted;

/// The parts of the bytes that stand there; `None` where one isn't within them.
pub(crate) fn parts_of<'a>(
    alloc: Global,
    bytes: &'a [u8],
    spans: &[Span],
) -> Result<Option<Vec<&'a [u8]>>, AllocError>
    ensures { IfOk result (λ found. MatchOption found (SomeOutside bytes.now spans.now)
        (λ lent. All (IsWithin bytes.now) spans.now × (octets lent.items ≡ parts bytes.now spans.now))) }
{
    let mut lent = Vec::new(alloc);
    for span in spans {
        match part_of(bytes, *span) {
            Some(part) => lent.push(part)?,
            None => return Ok(None),
        }
    }
    Ok(Some(lent))
}

/// The place of the first that is these bytes; how many there are where none is.
fn place_of(all: &[&[u8]], bytes: &[u8]) -> usize
    ensures { result ≡ first_place (octets all.now) bytes.now }
{
    for (place, one) in all.iter().enumerate() {
        if *one == bytes {
            return place;
        }
    }
    all.len()
}

/// The place of each of these among all.
pub(crate) fn places_of(
    alloc: Global,
    all: &[&[u8]],
    some: &[&[u8]],
) -> Result<Vec<usize>, AllocError>
    ensures { IfOk result (λ places. places.items ≡ map (first_place (octets all.now)) (octets some.now)) }
{
    let mut places = Vec::new(alloc);
    for bytes in some {
        places.push(place_of(all, bytes))?;
    }
    Ok(places)
}

/// Puts the places at the front of the buffer `room`, where they fit; else it is unchanged.
pub(crate) fn put_places(places: &[usize], room: &mut [usize])
    ensures { IsPut places.now room.old room.new }
{
    if places.len() <= room.len() {
        room[..places.len()].copy_from_slice(places);
    }
}

/// Whether both are there and the same, or neither is there.
fn is_same_part(one: Option<&[u8]>, other: Option<&[u8]>) -> bool
    ensures { result ≡ same_option (λ a b. same_octets a.now b.now) one.entry other.entry }
{
    match (one, other) {
        (Some(one), Some(other)) => one == other,
        (None, None) => true,
        _ => false,
    }
}

/// Whether the same is trusted: a name and a key, and for which paths.
fn is_same_trust(one: &Trusted<'_>, other: &Trusted<'_>) -> bool
    ensures { result ≡ same_trust one.now other.now }
{
    one.anchor.name == other.anchor.name
        && one.anchor.key == other.anchor.key
        && is_same_part(one.name_constraints, other.name_constraints)
        && one.max_path_length == other.max_path_length
        && is_same_part(one.policies, other.policies)
        && one.policy_flags == other.policy_flags
}

/// The place of the first that is the same trust; how many there are where none is.
pub(crate) fn place_of_trust(all: &[Trusted<'_>], one: &Trusted<'_>) -> usize
    ensures { result ≡ first_trust all.now one.now }
{
    for (place, other) in all.iter().enumerate() {
        if is_same_trust(other, one) {
            return place;
        }
    }
    all.len()
}
