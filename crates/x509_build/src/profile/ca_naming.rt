//! The names of certification authorities.

ghost use Rattle.std.specs.Prelude.{◌≡◌};
ghost use Rattle.x509_build.specs.CaNaming.{IsCaName, has_ca_types, is_ca_type};

use crate::profile::encoding::{check_names_encoding, has_type};
use crate::{Error, Result};
use x509_der::ObjectIdentifier;
use x509_name::attr::attribute_types::{
    COMMON_NAME, COUNTRY_NAME, LOCALITY_NAME, ORGANIZATION_NAME, POSTAL_CODE,
    STATE_OR_PROVINCE_NAME, STREET_ADDRESS,
};
use x509_name::name::{Name, RelativeDistinguishedName};

/// The types of attributes that such a name may have.
const CA_TYPES: [ObjectIdentifier; 7] = [
    COUNTRY_NAME,
    STATE_OR_PROVINCE_NAME,
    LOCALITY_NAME,
    POSTAL_CODE,
    STREET_ADDRESS,
    ORGANIZATION_NAME,
    COMMON_NAME,
];

#[tactic(auto, unfolding(crate::specs::CaNaming::is_ca_type, crate::specs::CaNaming::ca_types, x509_der::specs::Arcs::subidentifier))]
fn is_ca_type(oid: ObjectIdentifier) -> bool
    ensures { result ≡ is_ca_type oid }
{
    CA_TYPES.contains(&oid)
}

/// Whether the types of attributes that such a name has to have are there.
#[tactic(auto, unfolding(crate::specs::CaNaming::has_ca_types, x509_der::specs::Arcs::subidentifier))]
fn has_ca_types(rdns: &[RelativeDistinguishedName]) -> bool
    ensures { result ≡ has_ca_types rdns.now }
{
    has_type(rdns, COUNTRY_NAME) && has_type(rdns, ORGANIZATION_NAME) && has_type(rdns, COMMON_NAME)
}

/// Checks that a name can be that of a certification authority (Baseline Requirements 7.1.2.10.2):
/// [`check_names_encoding`] without `multiple_allowed` holds; its attribute types are among countryName,
/// stateOrProvinceName, localityName, postalCode, streetAddress, organizationName and commonName; and countryName,
/// organizationName and commonName are there. The Baseline Requirements advise against other types; here none is
/// allowed.
///
/// It takes no memory.
///
/// # Errors
///
/// That of [`check_names_encoding`]; else `InvalidAttribute` with the first type that isn't among these; else
/// `MissingAttributes` where not all of the three are there.
pub fn ca_certificate_naming(name: &Name) -> Result<()>
    ensures { IsCaName name.now result }
{
    check_names_encoding(name, false)?;
    for attribute in name.iter() {
        if !is_ca_type(attribute.oid) {
            return Err(Error::InvalidAttribute { oid: attribute.oid });
        }
    }
    if !has_ca_types(name.as_ref().as_slice()) {
        return Err(Error::MissingAttributes);
    }
    Ok(())
}
