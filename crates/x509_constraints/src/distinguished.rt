//! Keys of distinguished names (RFC 5280 4.2.1.10, 7.1).

ghost use Rattle.std.specs.Prelude.{◌≡◌, ◌++◌, IfOk, OnOk, map};
ghost use Rattle.std.specs.List.{flat_map};
ghost use Rattle.x509_constraints.specs.Directory.{rdn_key};
ghost use Rattle.x509_constraints.specs.Keys.{symbols};
ghost use Rattle.x509_constraints.specs.SubtreeKeys.{distinguished_key, in_order, rdn_octets};
ghost use Rattle.x509_match.specs.Keys.{attribute_key};

use crate::host_keys::STOP;
use crate::key::Key;
use std::alloc::{AllocError, Global};
use x509_match::attribute_key;
use x509_name::attr::AttributeTypeAndValue;
use x509_name::name::{Name, RelativeDistinguishedName};

/// Behind the octets of an attribute.
const ATTRIBUTE_STOP: u16 = 1;

/// The octets that each attribute is compared by.
fn attribute_keys(
    alloc: Global,
    attributes: &[AttributeTypeAndValue],
) -> Result<Vec<Vec<u8>>, AllocError>
    ensures { IfOk result (λ keys. map (λ key. key.items) keys.items ≡ map attribute_key attributes.now) }
{
    let mut keys = Vec::new(alloc);
    for attribute in attributes {
        let key = attribute_key(alloc, attribute)?;
        keys.push(key)?;
    }
    Ok(keys)
}

/// The octets that each attribute of the RDN is compared by, in ascending order.
fn keys_in_order(alloc: Global, rdn: &RelativeDistinguishedName) -> Result<Vec<Vec<u8>>, AllocError>
    ensures { IfOk result (λ keys. map (λ key. key.items) keys.items ≡ in_order (map attribute_key rdn.now)) }
{
    let mut keys = attribute_keys(alloc, rdn.as_slice())?;
    keys.sort()?;
    Ok(keys)
}

/// Adds the octets of an attribute.
fn push_attribute(key: &mut Key, octets: &[u8]) -> Result<(), AllocError>
    ensures { OnOk result (key.new ≡ key.old ++ symbols (rdn_key octets.now)) }
{
    for octet in octets {
        key.push(u16::from(*octet) + 1 + 1)?;
    }
    key.push(ATTRIBUTE_STOP)
}

/// Adds the octets of the attributes.
fn push_attributes(key: &mut Key, attributes: &[Vec<u8>]) -> Result<(), AllocError>
    ensures { OnOk result (key.new ≡ key.old ++ flat_map (λ attribute. symbols (rdn_key attribute.items)) attributes.now) }
{
    for attribute in attributes {
        push_attribute(key, attribute)?;
    }
    Ok(())
}

/// Adds what the RDN is compared by.
fn push_rdn(alloc: Global, key: &mut Key, rdn: &RelativeDistinguishedName) -> Result<(), AllocError>
    ensures { OnOk result (key.new ≡ key.old ++ rdn_key (rdn_octets rdn.now)) }
{
    let attributes = keys_in_order(alloc, rdn)?;
    push_attributes(key, attributes.as_slice())?;
    key.push(STOP)
}

/// Adds the key of a name.
pub(crate) fn push_name(alloc: Global, key: &mut Key, name: &Name) -> Result<(), AllocError>
    ensures { OnOk result (key.new ≡ key.old ++ distinguished_key name.now) }
{
    let rdns: &[RelativeDistinguishedName] = name.as_ref().as_slice();
    for rdn in rdns {
        push_rdn(alloc, key, rdn)?;
    }
    Ok(())
}
