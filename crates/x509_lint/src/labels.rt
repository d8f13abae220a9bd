//! Labels of IDNA in DNS names (RFC 5890 2.3.2.1).

ghost use Rattle.std.specs.List.{list_any};
ghost use Rattle.std.specs.Prelude.{◌≡◌, ◌<◌, ◌^◌, IfOk, length};
ghost use Rattle.idna.specs.Punycode.{decode};
ghost use Rattle.unicode_normalization.specs.Forms.{is_nfc};
ghost use Rattle.x509_lint.specs.Label as grammar;
ghost use Rattle.x509_lint.specs.Words.{is_same, passes};

use idna::{Errors, punycode};
use std::alloc::{AllocError, Global};
use unicode_normalization::slice;
use x509_ext::pkix::name::GeneralName;
use x509_ext::pkix::{IssuerAltName, SubjectAltName};

/// The most octets behind `xn--` in a label, which has 63 in all (RFC 1035 2.3.4).
const MAX_OCTETS: usize = 59;

/// Whether the texts are the same without regard to ASCII case.
pub fn is_same(text: &[u8], other: &[u8]) -> bool
    ensures { result ≡ is_same text.now other.now }
{
    text.eq_ignore_ascii_case(other)
}

/// Whether the label begins with `xn--`, in upper or lower case, as IDNA writes one that isn't ASCII.
pub fn is_xn_label(label: &[u8]) -> bool
    ensures { result ≡ grammar.is_xn_label label.now }
{
    label.len() >= 4 && is_same(&label[..4], b"xn--")
}

/// Whether a text is in Unicode Normalization Form C.
fn is_normalized(alloc: Global, text: &[char]) -> Result<bool, AllocError>
    ensures { IfOk result (λ is_normalized. is_normalized ≡ is_nfc text.now) }
{
    let mut normalized = Vec::new(alloc);
    slice::extend_nfc(&mut normalized, text)?;
    Ok(normalized.as_slice() == text)
}

/// Whether Punycode decodes the text, and what it stands for isn't in Normalization Form C.
fn is_unnormalized(alloc: Global, text: &str) -> Result<bool, AllocError>
    ensures { length text.now < 2 ^ 32 → IfOk result (λ is_unnormalized. is_unnormalized ≡ passes grammar.is_unnormalized (decode text.now)) }
{
    match punycode::decode(alloc, text) {
        Ok(decoded) => Ok(!is_normalized(alloc, decoded.as_slice())?),
        Err(Errors::Invalid) => Ok(false),
        Err(Errors::OutOfMemory) => Err(AllocError),
    }
}

/// Whether the octets behind `xn--` stand for a text that isn't in Normalization Form C.
fn is_unnormalized_behind(alloc: Global, octets: &[u8]) -> Result<bool, AllocError>
    ensures { IfOk result (λ is_unnormalized. is_unnormalized ≡ passes grammar.is_unnormalized (grammar.decoded octets.now)) }
{
    if octets.len() > MAX_OCTETS {
        return Ok(false);
    }
    let Ok(text) = str::from_utf8(octets) else {
        return Ok(false);
    };
    is_unnormalized(alloc, text)
}

fn is_unnormalized_label(alloc: Global, label: &[u8]) -> Result<bool, AllocError>
    ensures { IfOk result (λ is_unnormalized. is_unnormalized ≡ grammar.is_unnormalized_label label.now) }
{
    if !is_xn_label(label) {
        return Ok(false);
    }
    is_unnormalized_behind(alloc, &label[4..])
}

fn has_unnormalized_label(alloc: Global, text: &[u8]) -> Result<bool, AllocError>
    ensures { IfOk result (λ has_unnormalized. has_unnormalized ≡ grammar.has_unnormalized_label text.now) }
{
    for label in text.split(|octet| *octet == b'.') {
        if is_unnormalized_label(alloc, label)? {
            return Ok(true);
        }
    }
    Ok(false)
}

fn is_unnormalized_name(alloc: Global, name: &GeneralName) -> Result<bool, AllocError>
    ensures { IfOk result (λ is_unnormalized. is_unnormalized ≡ grammar.is_unnormalized_name name.now) }
{
    match name {
        GeneralName::DnsName(text) => has_unnormalized_label(alloc, text.as_str().as_bytes()),
        _ => Ok(false),
    }
}

fn is_unnormalized_among(alloc: Global, mut names: &[GeneralName]) -> Result<bool, AllocError>
    ensures { IfOk result (λ is_unnormalized. is_unnormalized ≡ list_any grammar.is_unnormalized_name names.entry.now) }
{
    while let [first, rest @ ..] = names {
        if is_unnormalized_name(alloc, first)? {
            return Ok(true);
        }
        names = rest;
    }
    Ok(false)
}

/// Whether the SAN is read, and has a dNSName with a label of IDNA whose text isn't in Normalization Form C.
pub(crate) fn has_unnormalized_subject(
    alloc: Global,
    names: &Option<SubjectAltName>,
) -> Result<bool, AllocError>
    ensures { IfOk result (λ has_unnormalized. has_unnormalized ≡ passes (λ names. list_any grammar.is_unnormalized_name names.0) names.now) }
{
    match names {
        Some(names) => is_unnormalized_among(alloc, names.0.as_slice()),
        None => Ok(false),
    }
}

/// Whether the IAN is read, and has such a dNSName.
pub(crate) fn has_unnormalized_issuer(
    alloc: Global,
    names: &Option<IssuerAltName>,
) -> Result<bool, AllocError>
    ensures { IfOk result (λ has_unnormalized. has_unnormalized ≡ passes (λ names. list_any grammar.is_unnormalized_name names.0) names.now) }
{
    match names {
        Some(names) => is_unnormalized_among(alloc, names.0.as_slice()),
        None => Ok(false),
    }
}
