//! Names of servers in common names, under name constraints (RFC 5280 4.2.1.10, RFC 6125 6.4.4).

ghost use Rattle.std.specs.Prelude.{◌≡◌, ◌↔◌, List, Option, ℕ, IfOk, IsTrue, MatchOption, option_copied};
ghost use Rattle.std.specs.List.{All, list_any};
ghost use Rattle.x509_constraints.specs.Applied.{AreApplied};
ghost use Rattle.x509_ext.specs.GeneralName.{address_octets};
ghost use Rattle.x509_ext.specs.declared.pkix.alternative_names.SubjectAltName as alternatives;
ghost use Rattle.x509_ext.specs.declared.pkix.name.general_name.GeneralName as general_names;
ghost use Rattle.x509_ext.specs.declared.pkix.name.general_name.GeneralName.TheVariants as names;
ghost use Rattle.x509_ext.specs.declared.pkix.name_constraints.NameConstraints as values;
ghost use Rattle.x509_match.specs.Keys.{attribute_key};
ghost use Rattle.x509_name.specs.AttributeTypes as types;
ghost use Rattle.x509_name.specs.declared.attr.type_and_value.AttributeTypeAndValue.{AttributeTypeAndValue};
ghost use Rattle.x509_path_steps.specs.CommonNames as common;
ghost use Rattle.x509_path_steps.specs.ServerNames as servers;

use std::alloc::{AllocError, Global};
use std::net::IpAddr;
use x509_constraints::ConstraintSets;
use x509_ext::pkix::SubjectAltName;
use x509_ext::pkix::name::{GeneralName, IpAddress};
use x509_host::{is_host_or_wildcard, without_root};
use x509_match::attribute_key;
use x509_name::attr::AttributeTypeAndValue;
use x509_name::attr::attribute_types::COMMON_NAME;
use x509_name::name::{Name, RelativeDistinguishedName};
use x509_prim::{Ia5, Ia5String, text_of};

/// Which names of servers a SAN has.
#[derive(Clone, Copy)]
struct Forms {
    /// Whether it has a dNSName.
    dns: bool,

    /// Whether it has an iPAddress.
    ip: bool,
}

/// The address that the text is.
fn address_of(text: &[u8]) -> Option<IpAddress>
    ensures { MatchOption result ((octets : List ℕ) → ¬ (common.IsAddressText text.now octets)) (λ ip. common.IsAddressText text.now (address_octets ip)) }
{
    match IpAddr::parse_ascii(text) {
        Ok(IpAddr::V4(ip)) => Some(IpAddress::V4(ip.octets())),
        Ok(IpAddr::V6(ip)) => Some(IpAddress::V6(ip.octets())),
        Err(_) => None,
    }
}

/// The dNSName of the octets, which are known to be ASCII.
fn dns_name(alloc: Global, octets: &[u8]) -> Result<GeneralName, AllocError>
    ensures { IfOk result (λ name. name ≡ names.DnsName octets.now) }
{
    let Some(text) = text_of::<Ia5>(octets) else {
        return Err(AllocError);
    };
    match Ia5String::new(alloc, text) {
        Ok(name) => Ok(GeneralName::DnsName(name)),
        Err(_) => Err(AllocError),
    }
}

/// The iPAddress of the address.
fn ip_name(alloc: Global, address: IpAddress) -> Result<GeneralName, AllocError>
    ensures { IfOk result (λ name. name ≡ names.IpAddress (address_octets address)) }
{
    match GeneralName::from_ip(alloc, address) {
        Ok(name) => Ok(name),
        Err(_) => Err(AllocError),
    }
}

/// The name of a server that the text is.
fn server_in(alloc: Global, text: &[u8]) -> Result<Option<GeneralName>, AllocError>
    ensures { IfOk result (λ found. MatchOption found ((name : general_names.GeneralName) → ¬ (common.IsServerText text.now name)) (λ name. common.IsServerText text.now name)) }
{
    if let Some(address) = address_of(text) {
        let name = ip_name(alloc, address)?;
        return Ok(Some(name));
    }
    let host = without_root(text);
    if !is_host_or_wildcard(host) {
        return Ok(None);
    }
    let name = dns_name(alloc, host)?;
    Ok(Some(name))
}

/// The text in the key of a common name, where that is compared as one. In front of it stand how many octets the type has, its
/// three octets, and a 0.
fn text_in(key: &[u8]) -> Option<&[u8]>
    ensures { (a : AttributeTypeAndValue) → a.oid ≡ types.common_name → key.now ≡ attribute_key a
        → option_copied result ≡ common.text_of a }
{
    let [_, _, _, _, kind, text @ ..] = key else {
        return None;
    };
    if *kind == 0 { Some(text) } else { None }
}

/// Whether the attribute is a common name.
#[tactic(auto, unfolding(x509_der::specs::Arcs::subidentifier))]
fn is_common_name(attribute: &AttributeTypeAndValue) -> bool
    ensures { IsTrue result ↔ (attribute.now.oid ≡ types.common_name) }
{
    attribute.oid == COMMON_NAME
}

/// The name of a server that the attribute is.
fn server_of(
    alloc: Global,
    attribute: &AttributeTypeAndValue,
) -> Result<Option<GeneralName>, AllocError>
    ensures { IfOk result (λ found. MatchOption found ((name : general_names.GeneralName) → ¬ (common.NamesServer attribute.now name)) (λ name. common.NamesServer attribute.now name)) }
{
    if !is_common_name(attribute) {
        return Ok(None);
    }
    let key = attribute_key(alloc, attribute)?;
    match text_in(key.as_slice()) {
        Some(text) => server_in(alloc, text),
        None => Ok(None),
    }
}

fn is_dns_name(name: &GeneralName) -> bool
    ensures { result ≡ common.is_dns_name name.now }
{
    matches!(name, GeneralName::DnsName(_))
}

fn is_ip_address(name: &GeneralName) -> bool
    ensures { result ≡ common.is_ip_address name.now }
{
    matches!(name, GeneralName::IpAddress(_))
}

fn has_dns_name(names: &[GeneralName]) -> bool
    ensures { result ≡ list_any common.is_dns_name names.now }
{
    names.iter().any(|name| is_dns_name(name))
}

fn has_ip_address(names: &[GeneralName]) -> bool
    ensures { result ≡ list_any common.is_ip_address names.now }
{
    names.iter().any(|name| is_ip_address(name))
}

/// The forms that the SAN has.
fn forms_of(alternative: Option<&SubjectAltName>) -> Forms
    ensures { servers.AreForms result (option_copied alternative.entry) }
{
    match alternative {
        Some(alternative) => {
            let names = alternative.as_ref().as_slice();
            Forms {
                dns: has_dns_name(names),
                ip: has_ip_address(names),
            }
        }
        None => Forms {
            dns: false,
            ip: false,
        },
    }
}

/// Whether the form of the name is among them.
fn has_form(forms: Forms, name: &GeneralName) -> bool
    ensures { result ≡ servers.has_form forms name.now }
{
    match name {
        GeneralName::DnsName(_) => forms.dns,
        GeneralName::IpAddress(_) => forms.ip,
        _ => false,
    }
}

/// Whether what the attribute is asked as, beside a SAN with these forms, is allowed.
fn allows_attribute(
    alloc: Global,
    sets: &ConstraintSets,
    attribute: &AttributeTypeAndValue,
    forms: Forms,
) -> Result<bool, AllocError>
    ensures { (applied : List values.NameConstraints) (alternative : Option alternatives.SubjectAltName) → AreApplied sets.now applied → servers.AreForms forms alternative
        → IfOk result (λ b. IsTrue b ↔ servers.IsOneAllowed applied alternative attribute.now) }
{
    let Some(name) = server_of(alloc, attribute)? else {
        return Ok(true);
    };
    if has_form(forms, &name) {
        return Ok(true);
    }
    sets.allows(alloc, &name)
}

/// Whether what each attribute is asked as, beside a SAN with these forms, is allowed.
fn allows_attributes(
    alloc: Global,
    sets: &ConstraintSets,
    attributes: &[AttributeTypeAndValue],
    forms: Forms,
) -> Result<bool, AllocError>
    ensures { (applied : List values.NameConstraints) (alternative : Option alternatives.SubjectAltName) → AreApplied sets.now applied → servers.AreForms forms alternative
        → IfOk result (λ b. IsTrue b ↔ All (λ a. servers.IsOneAllowed applied alternative a) attributes.now) }
{
    for attribute in attributes {
        if !allows_attribute(alloc, sets, attribute, forms)? {
            return Ok(false);
        }
    }
    Ok(true)
}

/// Whether what each attribute of the RDNs is asked as, beside a SAN with these forms, is allowed.
fn allows_rdns(
    alloc: Global,
    sets: &ConstraintSets,
    rdns: &[RelativeDistinguishedName],
    forms: Forms,
) -> Result<bool, AllocError>
    ensures { (applied : List values.NameConstraints) (alternative : Option alternatives.SubjectAltName) → AreApplied sets.now applied → servers.AreForms forms alternative
        → IfOk result (λ b. IsTrue b ↔ All (λ rdn. All (λ a. servers.IsOneAllowed applied alternative a) rdn) rdns.now) }
{
    for rdn in rdns {
        if !allows_attributes(alloc, sets, rdn.as_slice(), forms)? {
            return Ok(false);
        }
    }
    Ok(true)
}

/// Whether all sets allow the names of servers in the common names of the subject, each where the SAN has no name of its form.
///
/// # Errors
///
/// Out of memory.
pub fn allows_common_names(
    alloc: Global,
    sets: &ConstraintSets,
    subject: &Name,
    alternative: Option<&SubjectAltName>,
) -> Result<bool, AllocError>
    ensures { (applied : List values.NameConstraints) → AreApplied sets.now applied
        → IfOk result (λ b. IsTrue b ↔ All (λ rdn. All (λ a. servers.IsOneAllowed applied (option_copied alternative.entry) a) rdn) subject.now) }
{
    let forms = forms_of(alternative);
    allows_rdns(alloc, sets, subject.as_ref().as_slice(), forms)
}
