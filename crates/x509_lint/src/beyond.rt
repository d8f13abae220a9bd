//! What RFC 5280 allows and the types of this library can't hold.

ghost use Rattle.std.specs.List.{list_any, slice_get};
ghost use Rattle.std.specs.Prelude.{◌≡◌, ◌&&◌, ◌==◌, true};
ghost use Rattle.x509_der.specs.ObjectIdentifier.{is_object_identifier};
ghost use Rattle.x509_lint.specs.Beyond as grammar;
ghost use Rattle.x509_lint.specs.Words.{is_of, passes};

use crate::extensions::is_of;
use crate::passes;
use x509_der::{AssociatedOid, ObjectIdentifier, split_element};
use x509_ext::Extension;

/// The most octets of an OID's content that [`ObjectIdentifier`] holds.
const MAX_OCTETS: usize = 39;

/// The identifier octets of an OBJECT IDENTIFIER, of an x400Address \[3\], and of a SEQUENCE.
const OBJECT_IDENTIFIER: u8 = 0x06;

const X400_ADDRESS: u8 = 0xA3;

const SEQUENCE: u8 = 0x30;

/// What an extension may have that can't be held. An OID is large that has more than 39 octets, or a number of 2^32 or more.
#[derive(Clone, Copy)]
pub(crate) enum Beyond {
    /// None of it.
    Nothing,

    /// Large OIDs.
    Identifiers,

    /// Large OIDs, and general names that are x400Addresses.
    Names,
}

/// Whether a number begins with the octet 0x80.
fn is_padded(fresh: bool, octet: u8) -> bool
    ensures { result ≡ (fresh && (octet == 128)) }
{
    fresh && octet == 128
}

/// Whether the octets are whole numbers in base 128, of which none begins with 0x80 (X.690 8.19.2).
#[tactic(auto, using(crate::proofs::LargeOids::next_numbers, crate::proofs::LargeOids::padded_numbers))]
fn are_numbers(mut octets: &[u8]) -> bool
    ensures { result ≡ grammar.are_numbers true octets.entry.now }
{
    let mut fresh = true;
    while let [octet, rest @ ..] = octets {
        if is_padded(fresh, *octet) {
            return false;
        }
        fresh = *octet < 128;
        octets = rest;
    }
    fresh
}

/// Whether [`ObjectIdentifier`] holds the content.
fn is_held(content: &[u8]) -> bool
    ensures { result ≡ is_object_identifier content.now }
{
    match ObjectIdentifier::from_bytes(content) {
        Ok(_) => true,
        Err(_) => false,
    }
}

fn is_large(content: &[u8]) -> bool
    ensures { result ≡ grammar.is_large content.now }
{
    content.len() > MAX_OCTETS
        || (!content.is_empty() && (are_numbers(content) && !is_held(content)))
}

fn is_large_identifier(tag: u8, content: &[u8]) -> bool
    ensures { result ≡ grammar.is_large_identifier tag content.now }
{
    tag == OBJECT_IDENTIFIER && is_large(content)
}

fn begins_with_sequence(content: &[u8]) -> bool
    ensures { result ≡ passes (λ first. first == 48) (slice_get content.now 0) }
{
    passes!(content.get(0), first => *first == SEQUENCE)
}

fn is_x400_address(tag: u8, content: &[u8]) -> bool
    ensures { result ≡ grammar.is_x400_address tag content.now }
{
    tag == X400_ADDRESS && begins_with_sequence(content)
}

fn is_beyond(beyond: Beyond, tag: u8, content: &[u8]) -> bool
    ensures { result ≡ grammar.is_beyond beyond tag content.now }
{
    match beyond {
        Beyond::Nothing => false,
        Beyond::Identifiers => is_large_identifier(tag, content),
        Beyond::Names => is_large_identifier(tag, content) || is_x400_address(tag, content),
    }
}

fn begins_beyond(beyond: Beyond, octets: &[u8]) -> bool
    ensures { result ≡ grammar.begins_beyond beyond octets.now }
{
    match split_element(octets) {
        Ok(piece) => is_beyond(beyond, piece.tag, piece.content),
        Err(_) => false,
    }
}

/// Whether something that the type can't hold stands somewhere in the octets.
pub(crate) fn has_beyond(beyond: Beyond, mut octets: &[u8]) -> bool
    ensures { result ≡ grammar.has_beyond beyond octets.entry.now }
{
    while let [_, rest @ ..] = octets {
        if begins_beyond(beyond, octets) {
            return true;
        }
        octets = rest;
    }
    false
}

/// Whether the extension has the OID of the type, and something that the type can't hold.
fn is_beyond_type<T: AssociatedOid>(beyond: Beyond, extension: &Extension) -> bool
    ensures { result ≡ (is_of T.OID extension.now && grammar.has_beyond beyond extension.now.extn_value) }
{
    is_of::<T>(extension) && has_beyond(beyond, extension.extn_value.as_bytes())
}

fn are_beyond_type<T: AssociatedOid>(beyond: Beyond, mut extensions: &[Extension]) -> bool
    ensures { result ≡ list_any (λ e. is_of T.OID e && grammar.has_beyond beyond e.extn_value) extensions.entry.now }
{
    while let [first, rest @ ..] = extensions {
        if is_beyond_type::<T>(beyond, first) {
            return true;
        }
        extensions = rest;
    }
    false
}

/// Whether no value of the type is read, and an extension of it has something that can't be held.
pub(crate) fn is_unjudged<T: AssociatedOid>(
    beyond: Beyond,
    extensions: &[Extension],
    is_read: bool,
) -> bool
    ensures { result ≡ grammar.is_unjudged T.OID beyond extensions.now is_read }
{
    !is_read && are_beyond_type::<T>(beyond, extensions)
}
