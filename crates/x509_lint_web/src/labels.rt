//! Labels of IDNA in DNS names (RFC 5890 2.3.2.1; TLS BR 1.6.1).

ghost use Rattle.std.specs.List.{list_any};
ghost use Rattle.std.specs.Prelude.{◌≡◌, ◌<◌, ◌^◌, IfOk, is_some, length};
ghost use Rattle.idna.specs.Punycode.{decode};
ghost use Rattle.x509_lint.specs.Words.{passes};
ghost use Rattle.x509_lint_web.specs.Label as grammar;

use idna::{Errors, punycode};
use std::alloc::{AllocError, Global};
use x509_ext::pkix::SubjectAltName;
use x509_ext::pkix::name::GeneralName;
use x509_lint::labels::is_xn_label;

/// The most octets behind `xn--` in a label, which has 63 in all (RFC 1035 2.3.4).
const MAX_OCTETS: usize = 59;

/// Whether Punycode decodes the text.
fn is_decoded(alloc: Global, text: &str) -> Result<bool, AllocError>
    ensures { length text.now < 2 ^ 32 → IfOk result (λ is_decoded. is_decoded ≡ is_some (decode text.now)) }
{
    match punycode::decode(alloc, text) {
        Ok(_) => Ok(true),
        Err(Errors::Invalid) => Ok(false),
        Err(Errors::OutOfMemory) => Err(AllocError),
    }
}

/// Whether Punycode decodes the octets, and they fit in a label.
fn is_punycode(alloc: Global, octets: &[u8]) -> Result<bool, AllocError>
    ensures { IfOk result (λ is_punycode. is_punycode ≡ grammar.is_punycode octets.now) }
{
    if octets.len() > MAX_OCTETS {
        return Ok(false);
    }
    let Ok(text) = str::from_utf8(octets) else {
        return Ok(false);
    };
    is_decoded(alloc, text)
}

/// Whether the label begins with `xn--`, and what stands behind that isn't Punycode.
fn is_other_label(alloc: Global, label: &[u8]) -> Result<bool, AllocError>
    ensures { IfOk result (λ is_other. is_other ≡ grammar.is_other_label label.now) }
{
    if !is_xn_label(label) {
        return Ok(false);
    }
    Ok(!is_punycode(alloc, &label[4..])?)
}

fn has_other_label(alloc: Global, text: &[u8]) -> Result<bool, AllocError>
    ensures { IfOk result (λ has_other. has_other ≡ grammar.has_other_label text.now) }
{
    for label in text.split(|octet| *octet == b'.') {
        if is_other_label(alloc, label)? {
            return Ok(true);
        }
    }
    Ok(false)
}

fn is_other_name(alloc: Global, name: &GeneralName) -> Result<bool, AllocError>
    ensures { IfOk result (λ is_other. is_other ≡ grammar.is_other_name name.now) }
{
    match name {
        GeneralName::DnsName(text) => has_other_label(alloc, text.as_str().as_bytes()),
        _ => Ok(false),
    }
}

fn is_other_among(alloc: Global, mut names: &[GeneralName]) -> Result<bool, AllocError>
    ensures { IfOk result (λ is_other. is_other ≡ list_any grammar.is_other_name names.entry.now) }
{
    while let [first, rest @ ..] = names {
        if is_other_name(alloc, first)? {
            return Ok(true);
        }
        names = rest;
    }
    Ok(false)
}

/// Whether the SAN is read, and has a dNSName with a label that begins with `xn--` and isn't one of IDNA.
pub(crate) fn has_other_labels(
    alloc: Global,
    names: &Option<SubjectAltName>,
) -> Result<bool, AllocError>
    ensures { IfOk result (λ has_other. has_other ≡ passes (λ s. list_any grammar.is_other_name s.0) names.now) }
{
    match names {
        Some(names) => is_other_among(alloc, names.0.as_slice()),
        None => Ok(false),
    }
}
