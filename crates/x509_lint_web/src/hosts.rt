//! What is asked of DNS names.

ghost use Rattle.std.specs.Prelude.{◌≡◌};
ghost use Rattle.x509_lint_web.specs.Host as host;
ghost use Rattle.x509_lint_web.specs.Words as words;

use x509_host::behind_wildcard;
use x509_lint::labels::{is_same, is_xn_label};
use x509_lint::lists::{Test, all_of, any_of};
use x509_lint::passes;

/// Whether the text is an HTTP URI.
pub(crate) fn is_http(text: &[u8]) -> bool
    ensures { result ≡ words.is_http text.now }
{
    text.len() >= 7 && is_same(&text[..7], b"http://")
}

pub(crate) fn has_octet(octet: u8, text: &[u8]) -> bool
    ensures { result ≡ host.has_octet octet text.now }
{
    text.contains(&octet)
}

pub(crate) fn has_underscore(text: &[u8]) -> bool
    ensures { result ≡ host.has_underscore text.now }
{
    has_octet(b'_', text)
}

fn is_reserved_label(label: &[u8]) -> bool
    ensures { result ≡ host.is_reserved_label label.now }
{
    match label {
        [first, second, third, fourth, ..] => {
            *third == b'-'
                && (*fourth == b'-'
                    && !((*first == b'X' || *first == b'x')
                        && (*second == b'N' || *second == b'n')))
        }
        _ => false,
    }
}

pub(crate) fn has_reserved_label(text: &[u8]) -> bool
    ensures { result ≡ host.has_reserved_label text.now }
{
    text.split(|octet| *octet == b'.').any(is_reserved_label)
}

pub(crate) fn has_xn_label(text: &[u8]) -> bool
    ensures { result ≡ host.has_xn_label text.now }
{
    text.split(|octet| *octet == b'.').any(is_xn_label)
}

/// That an octet is none of ASCII.
struct BeyondAscii;

impl Test<u8> for BeyondAscii {
    ghost use Rattle.std.specs.Prelude.{nat_lt};

    ghost holds_of = { λ test octet. nat_lt 127 octet };

    fn holds_of(&self, octet: &u8) -> bool {
        *octet > 127
    }
}

pub(crate) fn is_beyond_ascii(text: &[u8]) -> bool
    ensures { result ≡ host.is_beyond_ascii text.now }
{
    any_of(&BeyondAscii, text)
}

pub(crate) fn has_other_wildcard(text: &[u8]) -> bool
    ensures { result ≡ host.has_other_wildcard text.now }
{
    has_octet(b'*', behind_wildcard(text))
}

pub(crate) fn has_one_label(text: &[u8]) -> bool
    ensures { result ≡ host.has_one_label text.now }
{
    !has_octet(b'.', behind_wildcard(text))
}

fn last_label(text: &[u8]) -> &[u8]
    ensures { result.now ≡ host.last_label text.now }
{
    let mut label = text;
    let mut left = text;
    while let [first, rest @ ..] = left {
        if *first == b'.' {
            label = rest;
        }
        left = rest;
    }
    label
}

fn is_internal_label(label: &[u8]) -> bool
    ensures { result ≡ host.is_internal_label label.now }
{
    is_same(label, b"alt")
        || (is_same(label, b"example")
            || (is_same(label, b"internal")
                || (is_same(label, b"invalid")
                    || (is_same(label, b"local")
                        || (is_same(label, b"localhost") || is_same(label, b"test"))))))
}

pub(crate) fn is_internal(text: &[u8]) -> bool
    ensures { result ≡ host.is_internal text.now }
{
    is_internal_label(last_label(text))
}

/// That an octet is a digit.
struct Digit;

impl Test<u8> for Digit {
    ghost use Rattle.std.specs.Char.{is_ascii_digit};

    ghost holds_of = { λ test. is_ascii_digit };

    fn holds_of(&self, octet: &u8) -> bool {
        octet.is_ascii_digit()
    }
}

fn are_digits(octets: &[u8]) -> bool
    ensures { result ≡ host.are_digits octets.now }
{
    all_of(&Digit, octets)
}

pub(crate) fn is_numeric(text: &[u8]) -> bool
    ensures { result ≡ host.is_numeric text.now }
{
    let label = last_label(text);
    !label.is_empty() && are_digits(label)
}

fn ends_in(text: &[u8], end: &[u8]) -> bool
    ensures { result ≡ host.ends_in text.now end.now }
{
    is_same(&text[text.len().saturating_sub(end.len())..], end)
}

pub(crate) fn is_reverse(text: &[u8]) -> bool
    ensures { result ≡ host.is_reverse text.now }
{
    ends_in(text, b".in-addr.arpa") || ends_in(text, b".ip6.arpa")
}

/// That an octet is one of base32 (RFC 4648 6), in any case.
struct Base32Octet;

impl Test<u8> for Base32Octet {
    ghost use Rattle.x509_lint_web.specs.Host.{is_base32};

    ghost holds_of = { λ test. is_base32 };

    fn holds_of(&self, octet: &u8) -> bool {
        octet.is_ascii_alphabetic() || (b'2' <= *octet && *octet <= b'7')
    }
}

fn are_base32(octets: &[u8]) -> bool
    ensures { result ≡ host.are_base32 octets.now }
{
    all_of(&Base32Octet, octets)
}

fn is_between(octets: &[u8], at: usize, low: u8, high: u8) -> bool
    ensures { result ≡ host.is_between octets.now at low high }
{
    passes!(octets.get(at), octet => low <= *octet && *octet <= high)
}

fn is_onion_label(label: &[u8]) -> bool
    ensures { result ≡ host.is_onion_label label.now }
{
    label.len() == 56
        && (are_base32(label)
            && (is_between(label, 55, b'D', b'D') || is_between(label, 55, b'd', b'd')))
}

pub(crate) fn is_other_onion(text: &[u8]) -> bool
    ensures { result ≡ host.is_other_onion text.now }
{
    is_same(last_label(text), b"onion")
        && !is_onion_label(last_label(&text[..text.len().saturating_sub(6)]))
}
