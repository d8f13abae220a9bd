//! URIs (RFC 3986), and those of LDAP (RFC 4516).

ghost use Rattle.std.specs.Char.{is_ascii_alphabetic, is_ascii_digit};
ghost use Rattle.std.specs.List.{position, list_all, list_any, slice_get, slice_split};
ghost use Rattle.std.specs.Prelude.{◌≡◌, ◌&&◌, ◌==◌, ◌||◌, ◌≤◌, ◌+◌, [], IfSome, MatchOption, None, Some, codes, length, nat_lt, not};
ghost use Rattle.x509_lint.specs.Uri as grammar;
ghost use Rattle.x509_lint.specs.Words.{is_empty, passes};

use crate::lists::{Test, all_of};
use crate::passes;
use x509_host::{are_ldh_labels, without_root};

/// That an octet may stand in a scheme.
struct SchemeOctet;

impl Test<u8> for SchemeOctet {
    ghost use Rattle.x509_lint.specs.Uri.{is_scheme_octet};

    ghost holds_of = { λ test. is_scheme_octet };

    fn holds_of(&self, octet: &u8) -> bool {
        octet.is_ascii_alphanumeric() || (*octet == b'+' || (*octet == b'-' || *octet == b'.'))
    }
}

/// Whether the octets are ones of a scheme, a colon, and something behind it.
fn is_absolute_behind(mut text: &[u8]) -> bool
    ensures { result ≡ grammar.is_absolute_behind text.entry.now }
{
    while let [first, rest @ ..] = text {
        if *first == b':' {
            return !rest.is_empty();
        }
        if !SchemeOctet.holds_of(first) {
            return false;
        }
        text = rest;
    }
    false
}

/// Whether the text has a scheme, and something behind it.
pub(crate) fn is_absolute(text: &[u8]) -> bool
    ensures { result ≡ grammar.is_absolute text.now }
{
    match text {
        [first, rest @ ..] => first.is_ascii_alphabetic() && is_absolute_behind(rest),
        [] => false,
    }
}

/// That an octet is a hex digit.
struct HexDigit;

impl Test<u8> for HexDigit {
    ghost use Rattle.x509_lint.specs.Uri.{is_hex_digit};

    ghost holds_of = { λ test. is_hex_digit };

    fn holds_of(&self, octet: &u8) -> bool {
        octet.is_ascii_digit()
            || ((*octet >= b'A' && *octet <= b'F') || (*octet >= b'a' && *octet <= b'f'))
    }
}

fn are_digits(text: &[u8]) -> bool
    ensures { result ≡ list_all is_ascii_digit text.now }
{
    text.iter().all(u8::is_ascii_digit)
}

const PLAIN_MARKS: [u8; 15] = *b"-._~!$&'()*+,;=";

/// Whether the octet is unreserved, or one of sub-delims.
fn is_plain(octet: u8) -> bool
    ensures { result ≡ grammar.is_plain octet }
{
    octet.is_ascii_alphanumeric() || PLAIN_MARKS.contains(&octet)
}

fn is_hex_digit_at(text: &[u8], at: usize) -> bool
    ensures { result ≡ passes grammar.is_hex_digit (slice_get text.now at) }
{
    passes!(text.get(at), octet => HexDigit.holds_of(octet))
}

fn begins_with_hex(text: &[u8]) -> bool
    ensures { result ≡ grammar.begins_with_hex text.now }
{
    is_hex_digit_at(text, 0) && is_hex_digit_at(text, 1)
}

/// Whether each octet is plain, one of the marks, or a percent sign before two hex digits.
fn is_spelled(marks: &[u8], mut text: &[u8]) -> bool
    ensures { result ≡ grammar.is_spelled marks.now text.entry.now }
{
    while let [first, rest @ ..] = text {
        if *first == b'%' {
            if !begins_with_hex(rest) {
                return false;
            }
        } else if !is_plain(*first) && !marks.contains(first) {
            return false;
        }
        text = rest;
    }
    true
}

pub(crate) fn contains(mark: u8, text: &[u8]) -> bool
    ensures { result ≡ grammar.contains mark text.now }
{
    text.contains(&mark)
}

/// The place of the first such mark, or the length.
fn place_of(mark: u8, text: &[u8]) -> Option<usize>
    ensures { result ≡ position (λ octet. octet == mark) text.now }
{
    text.iter().position(|octet| *octet == mark)
}

/// What stands before the first such mark, or the whole.
pub(crate) fn before(mark: u8, text: &[u8]) -> &[u8]
    ensures { result.now ≡ grammar.before mark text.now }
{
    match place_of(mark, text) {
        Some(at) => &text[..at],
        None => text,
    }
}

/// What stands behind the first such mark, or nothing.
pub(crate) fn behind(mark: u8, mut text: &[u8]) -> &[u8]
    ensures { result.now ≡ grammar.behind mark text.entry.now }
{
    while let [first, rest @ ..] = text {
        if *first == mark {
            return rest;
        }
        text = rest;
    }
    text
}

fn fragment_of(uri: &[u8]) -> &[u8]
    ensures { result.now ≡ grammar.fragment_of uri.now }
{
    behind(b'#', uri)
}

fn query_of(uri: &[u8]) -> &[u8]
    ensures { result.now ≡ grammar.query_of uri.now }
{
    behind(b'?', before(b'#', uri))
}

/// What stands between the scheme and the query.
fn hierarchy_of(uri: &[u8]) -> &[u8]
    ensures { result.now ≡ grammar.hierarchy_of uri.now }
{
    behind(b':', before(b'?', before(b'#', uri)))
}

/// An authority and a path: what stands behind `//`.
fn behind_slashes(hierarchy: &[u8]) -> Option<&[u8]>
    ensures { MatchOption result (grammar.behind_slashes hierarchy.now ≡ None) (λ octets. grammar.behind_slashes hierarchy.now ≡ Some octets.now) }
{
    match hierarchy {
        [b'/', b'/', octets @ ..] => Some(octets),
        _ => None,
    }
}

/// A host and a port, without the user information.
fn host_and_port(authority: &[u8]) -> &[u8]
    ensures { result.now ≡ grammar.host_and_port authority.now }
{
    if contains(b'@', authority) {
        behind(b'@', authority)
    } else {
        authority
    }
}

fn is_between(least: u8, most: u8, octet: u8) -> bool
    ensures { result ≡ grammar.is_between least most octet }
{
    least <= octet && octet <= most
}

/// Whether the text is a number up to 255, without zeros in front.
fn is_decimal_octet(text: &[u8]) -> bool
    ensures { result ≡ grammar.is_decimal_octet text.now }
{
    match text {
        [a] => a.is_ascii_digit(),
        [a, b] => is_between(b'1', b'9', *a) && b.is_ascii_digit(),
        [a, b, c] => {
            (*a == b'1' && (b.is_ascii_digit() && c.is_ascii_digit()))
                || ((*a == b'2' && (is_between(b'0', b'4', *b) && c.is_ascii_digit()))
                    || (*a == b'2' && (*b == b'5' && is_between(b'0', b'5', *c))))
        }
        _ => false,
    }
}

fn is_dot(octet: &u8) -> bool
    ensures { result ≡ (octet.now == 46) }
{
    *octet == b'.'
}

fn is_colon(octet: &u8) -> bool
    ensures { result ≡ (octet.now == 58) }
{
    *octet == b':'
}

fn are_decimal_octets(text: &[u8]) -> bool
    ensures { result ≡ list_all grammar.is_decimal_octet (slice_split (λ octet. octet == 46) text.now) }
{
    text.split(is_dot).all(is_decimal_octet)
}

/// How many parts there are between such marks.
fn part_count(mark: u8, text: &[u8]) -> usize
    ensures count { result ≡ length (slice_split (λ octet. octet == mark) text.now) }
    ensures within { result ≤ length text.now + 1 }
{
    text.split(|octet| *octet == mark).count()
}

/// Whether the text is an IPv4 address.
fn is_ipv4(text: &[u8]) -> bool
    ensures { result ≡ grammar.is_ipv4 text.now }
{
    part_count(b'.', text) == 4 && are_decimal_octets(text)
}

/// Whether the text is 16 bits in hex, or an IPv4 address.
fn is_piece(text: &[u8]) -> bool
    ensures { result ≡ grammar.is_piece text.now }
{
    (!text.is_empty() && (text.len() <= 4 && all_of(&HexDigit, text))) || is_ipv4(text)
}

fn are_all_pieces(text: &[u8]) -> bool
    ensures { result ≡ list_all grammar.is_piece (slice_split (λ octet. octet == 58) text.now) }
{
    text.split(is_colon).all(is_piece)
}

fn are_pieces(text: &[u8]) -> bool
    ensures { result ≡ grammar.are_pieces text.now }
{
    text.is_empty() || are_all_pieces(text)
}

/// How many pieces there are between colons.
fn piece_count(text: &[u8]) -> usize
    ensures count { result ≡ grammar.piece_count text.now }
    ensures within { result ≤ length text.now + 1 }
{
    if text.is_empty() {
        0
    } else {
        part_count(b':', text)
    }
}

/// How many pieces more an address with dots counts.
fn further_count(text: &[u8]) -> usize
    ensures count { result ≡ grammar.further_count text.now }
    ensures within { result ≤ 1 }
{
    if contains(b'.', text) { 1 } else { 0 }
}

/// What stands behind the first `::`.
fn behind_gap(mut text: &[u8]) -> Option<&[u8]>
    ensures behind { MatchOption result (grammar.behind_gap text.entry.now ≡ None) (λ octets. grammar.behind_gap text.entry.now ≡ Some octets.now) }
    ensures within { IfSome result (λ octets. length octets.now + 2 ≤ length text.entry.now) }
{
    while let [first, rest @ ..] = text {
        if let [b':', octets @ ..] = rest
            && *first == b':'
        {
            return Some(octets);
        }
        text = rest;
    }
    None
}

/// Whether the text has eight pieces of 16 bits.
fn are_eight(further: usize, text: &[u8]) -> bool
    requires { further ≤ 1 }
    ensures { result ≡ grammar.are_eight further text.now None }
{
    are_pieces(text) && piece_count(text) + further == 8
}

/// Whether both texts together have fewer.
fn are_fewer(further: usize, left: &[u8], right: &[u8]) -> bool
    requires { further ≤ 1 }
    ensures { result ≡ grammar.are_fewer further left.now right.now }
{
    are_pieces(left)
        && (are_pieces(right) && is_below_eight(piece_count(left), piece_count(right), further))
}

fn is_below_eight(left: usize, right: usize, further: usize) -> bool
    requires { further ≤ 1 }
    ensures { result ≡ nat_lt (left + right + further) 8 }
{
    left < 8 && right < 8 && left + right + further < 8
}

/// Whether the text is an IPv6 address.
fn is_ipv6(text: &[u8]) -> bool
    ensures { result ≡ grammar.is_ipv6 text.now }
{
    if contains(b':', behind(b'.', text)) {
        return false;
    }
    match behind_gap(text) {
        Some(right) => {
            let left = &text[..text.len() - right.len() - 2];
            are_fewer(further_count(text), left, right)
        }
        None => are_eight(further_count(text), text),
    }
}

/// That an octet may stand in an address of a later version.
struct FutureOctet;

impl Test<u8> for FutureOctet {
    ghost use Rattle.std.specs.Prelude.{◌||◌, ◌==◌};
    ghost use Rattle.x509_lint.specs.Uri.{is_plain};

    ghost holds_of = { λ test octet. is_plain octet || (octet == 58) };

    fn holds_of(&self, octet: &u8) -> bool {
        is_plain(*octet) || *octet == b':'
    }
}

/// Whether the text is what stands behind the v of an address of a later version.
fn is_future_behind(text: &[u8]) -> bool
    ensures { result ≡ grammar.is_future_behind text.now }
{
    let version = before(b'.', text);
    let address = behind(b'.', text);
    all_of(&HexDigit, version)
        && (!version.is_empty() && (!address.is_empty() && all_of(&FutureOctet, address)))
}

fn is_future(text: &[u8]) -> bool
    ensures { result ≡ grammar.is_future text.now }
{
    match text {
        [first, octets @ ..] => (*first == b'V' || *first == b'v') && is_future_behind(octets),
        [] => false,
    }
}

/// Whether the text may stand in the brackets of an IP-literal.
fn is_literal(text: &[u8]) -> bool
    ensures { result ≡ grammar.is_literal text.now }
{
    is_ipv6(text) || is_future(text)
}

/// Whether the text is nothing, or a colon and digits.
fn is_port(text: &[u8]) -> bool
    ensures { result ≡ grammar.is_port text.now }
{
    match text {
        [first, octets @ ..] => *first == b':' && are_digits(octets),
        [] => true,
    }
}

/// Whether the octets are an address, the closing bracket, and perhaps a port.
fn is_bracketed(octets: &[u8]) -> bool
    ensures { result ≡ (grammar.contains 93 octets.now && (grammar.is_literal (grammar.before 93 octets.now) && grammar.is_port (grammar.behind 93 octets.now))) }
{
    contains(b']', octets) && (is_literal(before(b']', octets)) && is_port(behind(b']', octets)))
}

/// Whether the text is a registered name, and perhaps a port.
fn is_registered(text: &[u8]) -> bool
    ensures { result ≡ (grammar.is_spelled [] (grammar.before 58 text.now) && list_all is_ascii_digit (grammar.behind 58 text.now)) }
{
    is_spelled(&[], before(b':', text)) && are_digits(behind(b':', text))
}

fn is_host_and_port(text: &[u8]) -> bool
    ensures { result ≡ grammar.is_host_and_port text.now }
{
    match text {
        [b'[', octets @ ..] => is_bracketed(octets),
        [_, ..] => is_registered(text),
        [] => true,
    }
}

/// Whether the text has no user information, or one of its octets.
fn is_after_user(authority: &[u8]) -> bool
    ensures { result ≡ (not (grammar.contains 64 authority.now) || grammar.is_spelled (codes ":") (grammar.before 64 authority.now)) }
{
    !contains(b'@', authority) || is_spelled(b":", before(b'@', authority))
}

fn is_authority(authority: &[u8]) -> bool
    ensures { result ≡ grammar.is_authority authority.now }
{
    is_after_user(authority) && is_host_and_port(host_and_port(authority))
}

/// Whether the text is a path, behind an authority or without one.
fn is_hierarchy(hierarchy: &[u8]) -> bool
    ensures { result ≡ grammar.is_hierarchy hierarchy.now (grammar.behind_slashes hierarchy.now) }
{
    match behind_slashes(hierarchy) {
        Some(octets) => {
            is_authority(before(b'/', octets)) && is_spelled(b":@/", behind(b'/', octets))
        }
        None => is_spelled(b":@/", hierarchy),
    }
}

/// Whether what stands behind the scheme is spelled as in a URI (RFC 3986 appendix A).
fn are_parts(text: &[u8]) -> bool
    ensures { result ≡ grammar.are_parts text.now }
{
    is_hierarchy(hierarchy_of(text))
        && (is_spelled(b":@/?", query_of(text)) && is_spelled(b":@/?", fragment_of(text)))
}

/// Whether the text is a URI (RFC 3986 appendix A) with something behind its scheme.
pub(crate) fn is_uri(text: &[u8]) -> bool
    ensures { result ≡ grammar.is_uri text.now }
{
    is_absolute(text) && are_parts(text)
}

fn is_scheme(text: &[u8]) -> bool
    ensures { result ≡ grammar.is_scheme text.now }
{
    match text {
        [first, rest @ ..] => first.is_ascii_alphabetic() && all_of(&SchemeOctet, rest),
        [] => false,
    }
}

/// Whether the text is a URI (RFC 3986 appendix A).
pub(crate) fn is_any_uri(text: &[u8]) -> bool
    ensures { result ≡ grammar.is_any_uri text.now }
{
    contains(b':', text) && (is_scheme(before(b':', text)) && are_parts(text))
}

fn has_letter(text: &[u8]) -> bool
    ensures { result ≡ list_any is_ascii_alphabetic text.now }
{
    text.iter().any(u8::is_ascii_alphabetic)
}

/// Whether the text is a fully qualified name.
fn is_qualified(text: &[u8]) -> bool
    ensures { result ≡ grammar.is_qualified text.now }
{
    let name = without_root(text);
    contains(b'.', text) && (are_ldh_labels(name) && (name.len() <= 253 && has_letter(text)))
}

/// Whether the text is a fully qualified name or an address, and perhaps a port.
fn is_full_host(text: &[u8]) -> bool
    ensures { result ≡ grammar.is_full_host text.now }
{
    match text {
        [b'[', octets @ ..] => is_literal(before(b']', octets)),
        [_, ..] => is_qualified(before(b':', text)) || is_ipv4(before(b':', text)),
        [] => false,
    }
}

/// Whether the URI has an authority, and a host that is neither a fully qualified name nor an address.
pub(crate) fn has_other_host(uri: &[u8]) -> bool
    ensures { result ≡ grammar.has_other_host uri.now }
{
    passes!(behind_slashes(hierarchy_of(uri)), octets => !is_full_host(host_and_port(before(b'/', octets))))
}

/// Whether the LDAP URI has a host.
pub(crate) fn has_ldap_host(uri: &[u8]) -> bool
    ensures { result ≡ grammar.has_ldap_host uri.now }
{
    passes!(behind_slashes(hierarchy_of(uri)), octets => !before(b':', before(b'/', octets)).is_empty())
}

/// Whether the LDAP URI has a distinguished name.
pub(crate) fn has_dn(uri: &[u8]) -> bool
    ensures { result ≡ grammar.has_dn uri.now }
{
    passes!(behind_slashes(hierarchy_of(uri)), octets => !behind(b'/', octets).is_empty())
}

fn attributes_of(uri: &[u8]) -> &[u8]
    ensures { result.now ≡ grammar.attributes_of uri.now }
{
    before(b'?', query_of(uri))
}

fn is_comma(octet: &u8) -> bool
    ensures { result ≡ (octet.now == 44) }
{
    *octet == b','
}

fn is_filled(text: &[u8]) -> bool
    ensures { result ≡ not (is_empty text.now) }
{
    !text.is_empty()
}

fn are_descriptions(text: &[u8]) -> bool
    ensures { result ≡ list_all (λ description. not (is_empty description)) (slice_split (λ octet. octet == 44) text.now) }
{
    text.split(is_comma).all(is_filled)
}

/// Whether the LDAP URI has attribute descriptions.
pub(crate) fn has_attributes(uri: &[u8]) -> bool
    ensures { result ≡ grammar.has_attributes uri.now }
{
    are_descriptions(attributes_of(uri))
}

/// Whether the LDAP URI has one attribute description.
pub(crate) fn has_one_attribute(uri: &[u8]) -> bool
    ensures { result ≡ grammar.has_one_attribute uri.now }
{
    let attributes = attributes_of(uri);
    !attributes.is_empty() && !contains(b',', attributes)
}
