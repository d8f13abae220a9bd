//! Whether attributes, RDNs and names match (RFC 5280 7.1).

ghost use Rattle.std.specs.List.{AllByRecursion};
ghost use Rattle.std.specs.Prelude.{◌≡◌, ◌↔◌, ◌≤◌, ◌+◌, ◌<◌, ◌^◌, if◌then◌else◌, IfOk, IsOk, IsTrue, length, map, true};
ghost use Rattle.x509_match.specs.Keys.{attribute_key};
ghost use Rattle.x509_match.specs.Matching.{NamesMatch, RdnsMatch};
ghost use Rattle.x509_match.specs.Plain.{ArePlain, IsPlainRdn, IsPlainName, IsPlainValue, tally};

use crate::attribute::values_match;
use crate::key::RdnKey;
use std::alloc::{AllocError, Global};
use x509_name::attr::AttributeTypeAndValue;
use x509_name::name::{Name, RelativeDistinguishedName};

/// Up to how many attributes an RDN is compared without memory.
pub const MAX_IN_PLACE: usize = 16;

/// Whether the attributes match: they are of one type, and have the same element or texts of which the same is compared
/// (RFC 5280 7.1).
///
/// # Errors
///
/// When out of memory, only where one is a BMPString, a UniversalString or a UTF8String beyond ASCII.
pub fn attributes_match(
    alloc: Global,
    a: &AttributeTypeAndValue,
    b: &AttributeTypeAndValue,
) -> Result<bool, AllocError>
    ensures same { IfOk result (λ same. IsTrue same ↔ (attribute_key a.now ≡ attribute_key b.now)) }
    ensures plain { IsPlainValue a.now → IsPlainValue b.now → IsOk result }
{
    if a.oid != b.oid {
        return Ok(false);
    }
    values_match(
        alloc,
        a.oid.as_bytes(),
        a.value.tag(),
        a.value.value(),
        b.value.tag(),
        b.value.value(),
    )
}

/// The count, with one more where it matches.
pub(crate) fn with_one_more(count: usize, matches: bool) -> usize
    requires { count + 1 < 2 ^ 64 }
    ensures value { result ≡ (if matches then 1 else 0) + count }
    ensures at_most { result ≤ count + 1 }
{
    if matches { count + 1 } else { count }
}

/// How many of the attributes match the one.
fn count_matching(
    alloc: Global,
    one: &AttributeTypeAndValue,
    attributes: &[AttributeTypeAndValue],
) -> Result<usize, AllocError>
    ensures same { IfOk result (λ count. count ≡ tally (attribute_key one.now) (map attribute_key attributes.now)) }
    ensures plain { IsPlainValue one.now → ArePlain attributes.now → IsOk result }
{
    let mut count = 0;
    for attribute in attributes {
        let matches = attributes_match(alloc, one, attribute)?;
        count = with_one_more(count, matches);
    }
    Ok(count)
}

/// Whether as many attributes of the one as of the other match each of the one.
fn counts_match(
    alloc: Global,
    a: &[AttributeTypeAndValue],
    b: &[AttributeTypeAndValue],
) -> Result<bool, AllocError>
    ensures same { length a.now ≡ length b.now → IfOk result (λ same. IsTrue same ↔ RdnsMatch a.now b.now) }
    ensures plain { ArePlain a.now → ArePlain b.now → IsOk result }
{
    for attribute in a {
        let left = count_matching(alloc, attribute, a)?;
        let right = count_matching(alloc, attribute, b)?;
        if left != right {
            return Ok(false);
        }
    }
    Ok(true)
}

/// Whether the RDNs have equal keys.
fn keys_match(
    alloc: Global,
    a: &RelativeDistinguishedName,
    b: &RelativeDistinguishedName,
) -> Result<bool, AllocError>
    ensures { IfOk result (λ same. IsTrue same ↔ RdnsMatch a.now b.now) }
{
    let left = RdnKey::new(alloc, a)?;
    let right = RdnKey::new(alloc, b)?;
    Ok(left == right)
}

/// Whether the RDNs match: they have as many attributes, and each has a partner of its own of the same type, whose value
/// matches.
///
/// # Errors
///
/// When out of memory, only where a value is a BMPString, a UniversalString or a UTF8String beyond ASCII, or there are more than
/// [`MAX_IN_PLACE`] attributes.
pub fn rdns_match(
    alloc: Global,
    a: &RelativeDistinguishedName,
    b: &RelativeDistinguishedName,
) -> Result<bool, AllocError>
    ensures same { IfOk result (λ same. IsTrue same ↔ RdnsMatch a.now b.now) }
    ensures plain { IsPlainRdn a.now → IsPlainRdn b.now → IsOk result }
{
    if a.len() != b.len() {
        return Ok(false);
    }
    if a.len() > MAX_IN_PLACE {
        return keys_match(alloc, a, b);
    }
    counts_match(alloc, a.as_slice(), b.as_slice())
}

/// Whether the names match (RFC 5280 7.1): they have as many RDNs, in order, and each matches the other's. Equal names
/// match.
///
/// # Errors
///
/// When out of memory, only where the names aren't equal, and a value is a BMPString, a UniversalString or a UTF8String beyond ASCII, or an
/// RDN has more than [`MAX_IN_PLACE`] attributes.
pub fn names_match(alloc: Global, a: &Name, b: &Name) -> Result<bool, AllocError>
    ensures same { IfOk result (λ same. IsTrue same ↔ NamesMatch a.now b.now) }
    ensures plain { IsPlainName a.now → IsPlainName b.now → IsOk result }
    ensures equal { a.now ≡ b.now → IsOk result }
{
    if a == b {
        return Ok(true);
    }
    lists_match(alloc, a.as_ref().as_slice(), b.as_ref().as_slice())
}

/// Whether as many RDNs match, in order.
fn lists_match(
    alloc: Global,
    a: &[RelativeDistinguishedName],
    b: &[RelativeDistinguishedName],
) -> Result<bool, AllocError>
    ensures same { IfOk result (λ same. IsTrue same ↔ NamesMatch a.now b.now) }
    ensures plain { IsPlainName a.now → IsPlainName b.now → IsOk result }
{
    let mut left = a;
    let mut right = b;
    while let [x, left_behind @ ..] = left {
        let [y, right_behind @ ..] = right else {
            return Ok(false);
        };
        if !rdns_match(alloc, x, y)? {
            return Ok(false);
        }
        left = left_behind;
        right = right_behind;
    }
    Ok(right.is_empty())
}
