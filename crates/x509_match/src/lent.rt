//! Encoded RDNs and names, compared over what is lent of their attributes.

ghost use Rattle.std.specs.Prelude.{◌≡◌, ◌↔◌, ◌≤◌, ◌<◌, ◌++◌, ℕ, IfOk, IsOk, IsTrue, List, MatchOption, map, length, true};
ghost use Rattle.x509_der.specs.Element.{element, is_identifier};
ghost use Rattle.x509_der.specs.Form.{spelling};
ghost use Rattle.x509_match.specs.Encoded.{AreAttributes, AreRdns, IsAttribute, LendsAttribute};
ghost use Rattle.x509_match.specs.Keys.{attribute_key};
ghost use Rattle.x509_match.specs.Matching.{NamesMatch, RdnsMatch};
ghost use Rattle.x509_match.specs.NameKeys.{IsRdnKey};
ghost use Rattle.x509_match.specs.Plain.{ArePlain, IsPlainName, IsPlainRdn, IsPlainValue, tally};
ghost use Rattle.x509_name.specs.Names.{attribute_set};
ghost use Rattle.x509_name.specs.TypeAndValue.{attribute_type_and_value};
ghost use Rattle.x509_name.specs.declared.attr.type_and_value.AttributeTypeAndValue.{AttributeTypeAndValue};

use crate::attribute::values_match;
use crate::key::RdnKey;
use crate::names::{MAX_IN_PLACE, with_one_more};
use std::alloc::{AllocError, Global};
use x509_der::{Content, Tag, split_element};
use x509_name::name::RelativeDistinguishedName;

/// The most octets of an OID.
const LONGEST_OID: usize = 255;

/// An attribute of an encoded name, lent.
#[derive(Clone, Copy)]
pub(crate) struct AttributeRef<'a> {
    /// The content octets of the OID of its type.
    oid: &'a [u8],

    /// The identifier of its value.
    tag: Tag,

    /// The content octets of its value.
    value: &'a [u8],
}

/// The content of the element at the front, and what follows it.
pub(crate) fn front_content(bytes: &[u8]) -> (&[u8], &[u8])
    ensures front { (tag : ℕ) (content rest : List ℕ) → is_identifier tag ≡ true → bytes.now ≡ element tag content ++ rest
        → (result.0.now ≡ content) × (result.1.now ≡ rest) }
    ensures shorter { 0 < length bytes.now → length result.1.now < length bytes.now }
{
    match split_element(bytes) {
        Ok(piece) => (piece.content, piece.rest),
        Err(_) => (&[], &[]),
    }
}

/// The attribute whose fields these are.
fn attribute_of(fields: &[u8]) -> Option<AttributeRef<'_>>
    ensures { (a : AttributeTypeAndValue) → IsAttribute fields.now a → MatchOption result ⊥ (λ lent. LendsAttribute lent a) }
{
    let (oid, value) = front_content(fields);
    match split_element(value) {
        Ok(piece) => match Tag::from_octet(piece.tag) {
            Ok(tag) => Some(AttributeRef {
                oid,
                tag,
                value: piece.content,
            }),
            Err(_) => None,
        },
        Err(_) => None,
    }
}

/// The attribute at the front, and what follows it.
fn next_attribute(bytes: &[u8]) -> (Option<AttributeRef<'_>>, &[u8])
    ensures front { (a : AttributeTypeAndValue) (behind : List ℕ) → attribute_type_and_value.good a
        → bytes.now ≡ spelling attribute_type_and_value a ++ behind
        → MatchOption result.0 ⊥ (λ lent. LendsAttribute lent a) × (result.1.now ≡ behind) }
    ensures shorter { 0 < length bytes.now → length result.1.now < length bytes.now }
{
    let (fields, behind) = front_content(bytes);
    (attribute_of(fields), behind)
}

/// Whether the attributes match.
fn lent_match(alloc: Global, a: &AttributeRef<'_>, b: &AttributeRef<'_>) -> Result<bool, AllocError>
    ensures same { (x y : AttributeTypeAndValue) → LendsAttribute a.now x → LendsAttribute b.now y
        → IfOk result (λ same. IsTrue same ↔ (attribute_key x ≡ attribute_key y)) }
    ensures plain { (x y : AttributeTypeAndValue) → LendsAttribute a.now x → LendsAttribute b.now y
        → IsPlainValue x → IsPlainValue y → IsOk result }
{
    if a.oid != b.oid || a.oid.len() > LONGEST_OID {
        return Ok(false);
    }
    values_match(alloc, a.oid, a.tag, a.value, b.tag, b.value)
}

/// How many attributes there are.
fn count_attributes(attributes: &[u8]) -> usize
    ensures same { (xs : List AttributeTypeAndValue) → AreAttributes attributes.now xs → result ≡ length xs }
    ensures within { result ≤ length attributes.now }
{
    let mut count = 0;
    let mut rest = attributes;
    while !rest.is_empty() {
        let (_, behind) = front_content(rest);
        count += 1;
        rest = behind;
    }
    count
}

/// How many of the attributes match the one.
fn count_matching(
    alloc: Global,
    one: &AttributeRef<'_>,
    attributes: &[u8],
) -> Result<usize, AllocError>
    ensures same { (x : AttributeTypeAndValue) (ys : List AttributeTypeAndValue) → LendsAttribute one.now x → AreAttributes attributes.now ys
        → IfOk result (λ count. count ≡ tally (attribute_key x) (map attribute_key ys)) }
    ensures plain { (x : AttributeTypeAndValue) (ys : List AttributeTypeAndValue) → LendsAttribute one.now x → AreAttributes attributes.now ys
        → IsPlainValue x → ArePlain ys → IsOk result }
{
    let mut count = 0;
    let mut rest = attributes;
    while !rest.is_empty() {
        let (attribute, behind) = next_attribute(rest);
        let Some(attribute) = attribute else {
            return Ok(count);
        };
        let matches = lent_match(alloc, one, &attribute)?;
        count = with_one_more(count, matches);
        rest = behind;
    }
    Ok(count)
}

/// Whether as many attributes of the one as of the other match each of the one.
fn counts_match(alloc: Global, a: &[u8], b: &[u8]) -> Result<bool, AllocError>
    ensures same { (xs ys : List AttributeTypeAndValue) → AreAttributes a.now xs → AreAttributes b.now ys → length xs ≡ length ys
        → IfOk result (λ same. IsTrue same ↔ RdnsMatch xs ys) }
    ensures plain { (xs ys : List AttributeTypeAndValue) → AreAttributes a.now xs → AreAttributes b.now ys
        → ArePlain xs → ArePlain ys → IsOk result }
{
    let mut rest = a;
    while !rest.is_empty() {
        let (attribute, behind) = next_attribute(rest);
        let Some(attribute) = attribute else {
            return Ok(false);
        };
        let left = count_matching(alloc, &attribute, a)?;
        let right = count_matching(alloc, &attribute, b)?;
        if left != right {
            return Ok(false);
        }
        rest = behind;
    }
    Ok(true)
}

/// The key of the RDN whose attributes these are.
fn rdn_key(alloc: Global, attributes: &[u8]) -> Result<RdnKey, AllocError>
    ensures { (xs : List AttributeTypeAndValue) → attribute_set.good xs → attributes.now ≡ attribute_set.octets xs
        → IfOk result (λ key. IsRdnKey key xs) }
{
    match RelativeDistinguishedName::read_content(alloc, attributes) {
        Ok(rdn) => RdnKey::new(alloc, &rdn),
        Err(_) => Err(AllocError),
    }
}

/// Whether the RDNs have equal keys.
fn keys_match(alloc: Global, a: &[u8], b: &[u8]) -> Result<bool, AllocError>
    ensures { (xs ys : List AttributeTypeAndValue) → attribute_set.good xs → attribute_set.good ys
        → a.now ≡ attribute_set.octets xs → b.now ≡ attribute_set.octets ys → IfOk result (λ same. IsTrue same ↔ RdnsMatch xs ys) }
{
    let left = rdn_key(alloc, a)?;
    let right = rdn_key(alloc, b)?;
    Ok(left == right)
}

/// Whether the RDNs match whose attributes these are.
fn rdns_match(alloc: Global, a: &[u8], b: &[u8]) -> Result<bool, AllocError>
    ensures same { (xs ys : List AttributeTypeAndValue) → attribute_set.good xs → attribute_set.good ys
        → a.now ≡ attribute_set.octets xs → b.now ≡ attribute_set.octets ys → IfOk result (λ same. IsTrue same ↔ RdnsMatch xs ys) }
    ensures plain { (xs ys : List AttributeTypeAndValue) → attribute_set.good xs → attribute_set.good ys
        → a.now ≡ attribute_set.octets xs → b.now ≡ attribute_set.octets ys → IsPlainRdn xs → IsPlainRdn ys → IsOk result }
{
    if a == b {
        return Ok(true);
    }
    let count = count_attributes(a);
    if count != count_attributes(b) {
        return Ok(false);
    }
    if count > MAX_IN_PLACE {
        return keys_match(alloc, a, b);
    }
    counts_match(alloc, a, b)
}

/// Whether the names match whose RDNs these are.
pub(crate) fn lists_match(alloc: Global, a: &[u8], b: &[u8]) -> Result<bool, AllocError>
    ensures same { (x y : List (List AttributeTypeAndValue)) → AreRdns a.now x → AreRdns b.now y
        → IfOk result (λ same. IsTrue same ↔ NamesMatch x y) }
    ensures plain { (x y : List (List AttributeTypeAndValue)) → AreRdns a.now x → AreRdns b.now y
        → IsPlainName x → IsPlainName y → IsOk result }
{
    let mut left = a;
    let mut right = b;
    while !left.is_empty() {
        if right.is_empty() {
            return Ok(false);
        }
        let (x, left_behind) = front_content(left);
        let (y, right_behind) = front_content(right);
        if !rdns_match(alloc, x, y)? {
            return Ok(false);
        }
        left = left_behind;
        right = right_behind;
    }
    Ok(right.is_empty())
}
