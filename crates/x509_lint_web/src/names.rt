//! What is asked of names: those of the SAN, and that of the subject.

ghost use Rattle.std.specs.List.{list_any};
ghost use Rattle.std.specs.Prelude.{◌≡◌, filter, length, nat_lt};
ghost use Rattle.x509_lint.specs.Words.{is_empty, passes};
ghost use Rattle.x509_lint_web.specs.Name as grammar;
ghost use Rattle.x509_lint_web.specs.Policy as policy;
ghost use Rattle.x509_lint_web.specs.Words as words;

use crate::addresses::is_reserved_address;
use crate::hosts::{
    has_one_label, has_other_wildcard, has_reserved_label, has_underscore, is_http, is_internal,
    is_numeric, is_other_onion, is_reverse,
};
use x509_der::ObjectIdentifier;
use x509_ext::pkix::SubjectAltName;
use x509_ext::pkix::name::GeneralName;
use x509_lint::lists::{Test, any_attribute, any_of};
use x509_lint::passes;
use x509_name::attr::AttributeTypeAndValue;
use x509_name::attr::attribute_types::{COMMON_NAME, COUNTRY_NAME};
use x509_name::name::{Name, RdnSequence, RelativeDistinguishedName};

/// What may be wrong with a name of the SAN (TLS BR 7.1.2.7.12).
#[derive(Clone, Copy)]
pub(crate) enum NameFault {
    /// It is neither a dNSName nor an iPAddress.
    OtherName,

    /// It is a dNSName with an underscore.
    Underscore,

    /// It is a dNSName with a label with hyphens in its third and fourth places that doesn't begin with xn.
    ReservedLabel,

    /// It is a dNSName with a * that isn't the whole of its leftmost label.
    Wildcard,

    /// It is a dNSName of one label, perhaps behind a wildcard.
    OneLabel,

    /// It is a dNSName whose last label the public DNS never has.
    Internal,

    /// It is a dNSName whose last label is of digits.
    Numeric,

    /// It is a dNSName of the reverse mapping.
    Reverse,

    /// It is a dNSName that ends in onion, and isn't one of an onion service of version 3.
    OtherOnion,

    /// It is a reserved iPAddress.
    Reserved,
}

/// Whether the name has no RDN.
pub(crate) fn is_empty_name(name: &Name) -> bool
    ensures { result ≡ is_empty name.now }
{
    name.len() == 0
}

/// That a name is a dNSName or an iPAddress.
pub(crate) struct HostName;

impl Test<GeneralName> for HostName {
    ghost use Rattle.x509_lint_web.specs.Name.{is_host_name};

    ghost holds_of = { λ test. is_host_name };

    fn holds_of(&self, name: &GeneralName) -> bool {
        match name {
            GeneralName::DnsName(_) | GeneralName::IpAddress(_) => true,
            _ => false,
        }
    }
}

fn is_faulty_host(fault: NameFault, text: &[u8]) -> bool
    ensures { result ≡ grammar.is_faulty_host fault text.now }
{
    match fault {
        NameFault::Underscore => has_underscore(text),
        NameFault::ReservedLabel => has_reserved_label(text),
        NameFault::Wildcard => has_other_wildcard(text),
        NameFault::OneLabel => has_one_label(text),
        NameFault::Internal => is_internal(text),
        NameFault::Numeric => is_numeric(text),
        NameFault::Reverse => is_reverse(text),
        NameFault::OtherOnion => is_other_onion(text),
        NameFault::OtherName | NameFault::Reserved => false,
    }
}

fn is_faulty_address(fault: NameFault, octets: &[u8]) -> bool
    ensures { result ≡ grammar.is_faulty_address fault octets.now }
{
    match fault {
        NameFault::Reserved => is_reserved_address(octets),
        _ => false,
    }
}

fn is_other(fault: NameFault) -> bool
    ensures { result ≡ grammar.is_other fault }
{
    match fault {
        NameFault::OtherName => true,
        _ => false,
    }
}

pub(crate) fn is_faulty(fault: NameFault, name: &GeneralName) -> bool
    ensures { result ≡ grammar.has_fault fault name.now }
{
    match name {
        GeneralName::DnsName(text) => is_faulty_host(fault, text.as_str().as_bytes()),
        GeneralName::IpAddress(octets) => is_faulty_address(fault, octets.as_bytes()),
        _ => is_other(fault),
    }
}

impl Test<GeneralName> for NameFault {
    ghost use Rattle.x509_lint_web.specs.Name.{has_fault};

    ghost holds_of = { has_fault };

    fn holds_of(&self, name: &GeneralName) -> bool {
        is_faulty(*self, name)
    }
}

/// Whether the SAN is read, and a name of it has the fault.
pub(crate) fn has_name(fault: NameFault, names: &Option<SubjectAltName>) -> bool
    ensures { result ≡ passes (λ s. list_any (grammar.has_fault fault) s.0) names.now }
{
    passes!(names, names => any_of(&fault, names.0.as_slice()))
}

/// That an attribute has the type.
#[derive(Clone, Copy)]
struct OfType(ObjectIdentifier);

impl Test<AttributeTypeAndValue> for OfType {
    ghost use Rattle.x509_lint_web.specs.Words.{is_of_type};

    ghost holds_of = { λ test. is_of_type test.0 };

    fn holds_of(&self, attribute: &AttributeTypeAndValue) -> bool {
        attribute.oid == self.0
    }
}

/// Whether some attribute of the name has the type.
pub(crate) fn has_attribute(oid: ObjectIdentifier, name: &Name) -> bool
    ensures { result ≡ words.has_attribute oid name.now }
{
    any_attribute(&OfType(oid), name)
}

/// That an attribute is neither a countryName nor a commonName.
struct OtherAttribute;

impl Test<AttributeTypeAndValue> for OtherAttribute {
    ghost use Rattle.x509_lint_web.specs.Policy.{is_other_attribute};

    ghost holds_of = { λ test. is_other_attribute };

    fn holds_of(&self, attribute: &AttributeTypeAndValue) -> bool {
        attribute.oid != COUNTRY_NAME && attribute.oid != COMMON_NAME
    }
}

/// Whether the name has an attribute that is neither countryName nor commonName.
pub(crate) fn has_other_attribute(name: &Name) -> bool
    ensures { result ≡ policy.has_other_attribute name.now }
{
    any_attribute(&OtherAttribute, name)
}

/// How many attributes of the RDN have the type.
fn count_in(oid: ObjectIdentifier, rdn: &RelativeDistinguishedName) -> usize
    ensures { result ≡ length (filter (words.is_of_type oid) rdn.now) }
{
    rdn.as_slice()
        .iter()
        .filter(|attribute| attribute.oid == oid)
        .count()
}

fn is_repeated_in(oid: ObjectIdentifier, mut rdns: &[RelativeDistinguishedName]) -> bool
    ensures { result ≡ nat_lt 1 (words.count_of oid rdns.entry.now) }
{
    let mut passed = 0;
    while let [first, rest @ ..] = rdns {
        let count = count_in(oid, first);
        if count > 1 || passed + count > 1 {
            return true;
        }
        passed += count;
        rdns = rest;
    }
    false
}

/// Whether the name has two attributes of the type or more.
pub(crate) fn is_repeated(oid: ObjectIdentifier, name: &Name) -> bool
    ensures { result ≡ nat_lt 1 (words.count_of oid name.now) }
{
    let rdns: &RdnSequence = name.as_ref();
    is_repeated_in(oid, rdns.as_slice())
}

/// Whether the name is an HTTP URI.
pub(crate) fn is_http_name(name: &GeneralName) -> bool
    ensures { result ≡ words.is_http_name name.now }
{
    match name {
        GeneralName::UniformResourceIdentifier(text) => is_http(text.as_str().as_bytes()),
        _ => false,
    }
}
