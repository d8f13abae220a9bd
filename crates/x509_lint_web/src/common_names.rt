//! What is asked of the commonNames of a subject.

ghost use Rattle.std.specs.List.{list_any};
ghost use Rattle.std.specs.Net.Addr.{segments_of};
ghost use Rattle.std.specs.Net.Text.{hex_groups_text, ipv4_text};
ghost use Rattle.std.specs.Prelude.{◌≡◌, IfOk, bytes_eq, length, string_bytes};
ghost use Rattle.x509_lint.specs.Words.{passes};
ghost use Rattle.x509_lint_web.specs.CommonName as grammar;

use crate::hosts::{has_octet, has_xn_label, is_beyond_ascii};
use std::alloc::{AllocError, Global};
use std::net::{Ipv4Addr, Ipv6Addr};
use x509_ext::pkix::SubjectAltName;
use x509_ext::pkix::name::GeneralName;
use x509_lint::labels::is_same;
use x509_name::attr::AttributeTypeAndValue;
use x509_name::attr::attribute_types::COMMON_NAME;
use x509_name::name::{Name, RdnSequence, RelativeDistinguishedName};

/// What may be wrong with a commonName (TLS BR 7.1.4.3).
#[derive(Clone, Copy)]
pub(crate) enum CommonNameFault {
    /// It is no name of the SAN.
    Stray,

    /// It is one, and is written otherwise.
    Rewritten,
}

/// The text of an IPv4 address (RFC 3986 3.2.2).
fn ipv4_text(alloc: Global, octets: &[u8]) -> Result<String, AllocError>
    requires { length octets.now ≡ 4 }
    ensures { IfOk result (λ text. string_bytes text ≡ ipv4_text octets.now) }
{
    let address = Ipv4Addr::new(octets[0], octets[1], octets[2], octets[3]);
    address.to_string(alloc)
}

/// The text of an IPv6 address (RFC 5952 4).
fn ipv6_text(alloc: Global, octets: &[u8; 16]) -> Result<String, AllocError>
    ensures { IfOk result (λ text. string_bytes text ≡ hex_groups_text (segments_of octets.now)) }
{
    let address = Ipv6Addr::from_octets(*octets);
    address.hex_groups().to_string(alloc)
}

fn is_text_of_ipv4(alloc: Global, text: &[u8], octets: &[u8]) -> Result<bool, AllocError>
    requires { length octets.now ≡ 4 }
    ensures { IfOk result (λ is_text. is_text ≡ bytes_eq (ipv4_text octets.now) text.now) }
{
    Ok(ipv4_text(alloc, octets)?.as_bytes() == text)
}

/// Whether the text is that of the address.
fn is_text_of_address(alloc: Global, text: &[u8], octets: &[u8]) -> Result<bool, AllocError>
    ensures { IfOk result (λ is_text. is_text ≡ grammar.is_text_of_address text.now octets.now) }
{
    if octets.len() == 4 {
        return is_text_of_ipv4(alloc, text, octets);
    }
    match octets.as_array::<16>() {
        Some(octets) => Ok(ipv6_text(alloc, octets)?.as_bytes() == text),
        None => Ok(false),
    }
}

/// Whether the text may be that of the address.
fn is_address(alloc: Global, text: &[u8], octets: &[u8]) -> Result<bool, AllocError>
    ensures { IfOk result (λ is_address. is_address ≡ grammar.is_address text.now octets.now) }
{
    if octets.len() == 4 {
        return is_text_of_ipv4(alloc, text, octets);
    }
    Ok(octets.len() == 16 && has_octet(b':', text))
}

/// Whether the text may be that of the host.
fn is_host(text: &[u8], other: &[u8]) -> bool
    ensures { result ≡ grammar.is_host text.now other.now }
{
    is_same(text, other) || (is_beyond_ascii(text) && has_xn_label(other))
}

/// Whether the text is the name, however it is written.
fn is_value(alloc: Global, text: &[u8], name: &GeneralName) -> Result<bool, AllocError>
    ensures { IfOk result (λ is_value. is_value ≡ grammar.is_value text.now name.now) }
{
    match name {
        GeneralName::DnsName(other) => Ok(is_host(text, other.as_str().as_bytes())),
        GeneralName::IpAddress(octets) => is_address(alloc, text, octets.as_bytes()),
        _ => Ok(false),
    }
}

/// Whether the text is the name as it has to be written.
fn is_copy(alloc: Global, text: &[u8], name: &GeneralName) -> Result<bool, AllocError>
    ensures { IfOk result (λ is_copy. is_copy ≡ grammar.is_copy text.now name.now) }
{
    match name {
        GeneralName::DnsName(other) => Ok(other.as_str().as_bytes() == text),
        GeneralName::IpAddress(octets) => is_text_of_address(alloc, text, octets.as_bytes()),
        _ => Ok(false),
    }
}

fn is_value_among(alloc: Global, text: &[u8], mut names: &[GeneralName]) -> Result<bool, AllocError>
    ensures { IfOk result (λ is_value. is_value ≡ list_any (grammar.is_value text.now) names.entry.now) }
{
    while let [first, rest @ ..] = names {
        if is_value(alloc, text, first)? {
            return Ok(true);
        }
        names = rest;
    }
    Ok(false)
}

fn is_copy_among(alloc: Global, text: &[u8], mut names: &[GeneralName]) -> Result<bool, AllocError>
    ensures { IfOk result (λ is_copy. is_copy ≡ list_any (grammar.is_copy text.now) names.entry.now) }
{
    while let [first, rest @ ..] = names {
        if is_copy(alloc, text, first)? {
            return Ok(true);
        }
        names = rest;
    }
    Ok(false)
}

fn is_common_name(attribute: &AttributeTypeAndValue) -> bool
    ensures { result ≡ grammar.is_common_name attribute.now }
{
    attribute.oid == COMMON_NAME
}

/// Whether the attribute is a commonName with the fault.
fn is_odd_name(
    alloc: Global,
    fault: CommonNameFault,
    names: &[GeneralName],
    attribute: &AttributeTypeAndValue,
) -> Result<bool, AllocError>
    ensures { IfOk result (λ is_odd. is_odd ≡ grammar.is_odd_name fault names.now attribute.now) }
{
    if !is_common_name(attribute) {
        return Ok(false);
    }
    let text = attribute.value.value();
    let is_value = is_value_among(alloc, text, names)?;
    match fault {
        CommonNameFault::Stray => Ok(!is_value),
        CommonNameFault::Rewritten => Ok(is_value && !is_copy_among(alloc, text, names)?),
    }
}

fn is_odd_in(
    alloc: Global,
    fault: CommonNameFault,
    names: &[GeneralName],
    mut attributes: &[AttributeTypeAndValue],
) -> Result<bool, AllocError>
    ensures { IfOk result (λ is_odd. is_odd ≡ list_any (grammar.is_odd_name fault names.now) attributes.entry.now) }
{
    while let [first, rest @ ..] = attributes {
        if is_odd_name(alloc, fault, names, first)? {
            return Ok(true);
        }
        attributes = rest;
    }
    Ok(false)
}

fn has_odd_in(
    alloc: Global,
    fault: CommonNameFault,
    names: &[GeneralName],
    mut rdns: &[RelativeDistinguishedName],
) -> Result<bool, AllocError>
    ensures { IfOk result (λ has_odd. has_odd ≡ grammar.has_odd_name fault names.now rdns.entry.now) }
{
    while let [first, rest @ ..] = rdns {
        if is_odd_in(alloc, fault, names, first.as_slice())? {
            return Ok(true);
        }
        rdns = rest;
    }
    Ok(false)
}

/// Whether the SAN is read, and a commonName of the subject has the fault.
pub(crate) fn has_odd_name(
    alloc: Global,
    fault: CommonNameFault,
    names: &Option<SubjectAltName>,
    subject: &Name,
) -> Result<bool, AllocError>
    ensures { IfOk result (λ has_odd. has_odd ≡ passes (λ s. grammar.has_odd_name fault s.0 subject.now) names.now) }
{
    let rdns: &RdnSequence = subject.as_ref();
    match names {
        Some(names) => has_odd_in(alloc, fault, names.0.as_slice(), rdns.as_slice()),
        None => Ok(false),
    }
}
