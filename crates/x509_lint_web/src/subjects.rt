//! What is asked of the attributes of a subject.

ghost use Rattle.std.specs.List.{list_any};
ghost use Rattle.std.specs.Prelude.{◌≡◌, length, nat_lt};
ghost use Rattle.x509_lint_web.specs.Authority as authority;
ghost use Rattle.x509_lint_web.specs.Subject as grammar;
ghost use Rattle.x509_lint_web.specs.Words.{count_of};

use crate::countries::is_country;
use crate::names::{has_attribute, is_repeated};
use x509_der::{ObjectIdentifier, oid};
use x509_lint::lists::{Test, all_of, any_attribute, any_of};
use x509_name::attr::AttributeTypeAndValue;
use x509_name::attr::attribute_types::{
    COMMON_NAME, COUNTRY_NAME, GIVEN_NAME, LOCALITY_NAME, ORGANIZATION_NAME,
    ORGANIZATIONAL_UNIT_NAME, POSTAL_CODE, SERIAL_NUMBER, STATE_OR_PROVINCE_NAME, STREET_ADDRESS,
    SURNAME,
};
use x509_name::name::{Name, RdnSequence, RelativeDistinguishedName};

/// businessCategory, 2.5.4.15 (EV Guidelines 7.1.4.2.3).
pub(crate) const BUSINESS_CATEGORY: ObjectIdentifier = oid!(0x55, 0x04, 15);

/// jurisdictionCountryName, 1.3.6.1.4.1.311.60.2.1.3 (EV Guidelines 7.1.4.2.4).
pub(crate) const JURISDICTION_COUNTRY: ObjectIdentifier = oid!(
    0x2B, 0x06, 0x01, 0x04, 0x01, 0x82, 0x37, 0x3C, 0x02, 0x01, 0x03
);

/// The types of which a subject has one attribute at most (TLS BR 7.1.4.1).
const SINGLE_ATTRIBUTES: [ObjectIdentifier; 10] = [
    COUNTRY_NAME,
    STATE_OR_PROVINCE_NAME,
    LOCALITY_NAME,
    POSTAL_CODE,
    ORGANIZATION_NAME,
    SURNAME,
    GIVEN_NAME,
    SERIAL_NUMBER,
    BUSINESS_CATEGORY,
    JURISDICTION_COUNTRY,
];

/// The types that the subject of an authority may have (TLS BR 7.1.2.10.2), and organizationalUnitName.
const AUTHORITY_ATTRIBUTES: [ObjectIdentifier; 8] = [
    COMMON_NAME,
    COUNTRY_NAME,
    LOCALITY_NAME,
    STATE_OR_PROVINCE_NAME,
    STREET_ADDRESS,
    ORGANIZATION_NAME,
    POSTAL_CODE,
    ORGANIZATIONAL_UNIT_NAME,
];

/// Whether the name has a localityName or a stateOrProvinceName.
pub(crate) fn has_place(name: &Name) -> bool
    ensures { result ≡ grammar.has_place name.now }
{
    has_attribute(LOCALITY_NAME, name) || has_attribute(STATE_OR_PROVINCE_NAME, name)
}

/// Whether the name has a surname or a givenName.
pub(crate) fn has_personal_name(name: &Name) -> bool
    ensures { result ≡ grammar.has_personal_name name.now }
{
    has_attribute(SURNAME, name) || has_attribute(GIVEN_NAME, name)
}

/// Whether the name lacks a surname or a givenName.
pub(crate) fn lacks_personal_name(name: &Name) -> bool
    ensures { result ≡ grammar.lacks_personal_name name.now }
{
    !has_attribute(SURNAME, name) || !has_attribute(GIVEN_NAME, name)
}

fn is_country_attribute(attribute: &AttributeTypeAndValue) -> bool
    ensures { result ≡ grammar.is_country_attribute attribute.now }
{
    attribute.oid == COUNTRY_NAME || attribute.oid == JURISDICTION_COUNTRY
}

/// That an attribute is a countryName or a jurisdictionCountryName that is no code of a country.
struct UnknownCountry;

impl Test<AttributeTypeAndValue> for UnknownCountry {
    ghost use Rattle.x509_lint_web.specs.Subject.{is_unknown_country};

    ghost holds_of = { λ test. is_unknown_country };

    fn holds_of(&self, attribute: &AttributeTypeAndValue) -> bool {
        is_country_attribute(attribute) && !is_country(attribute.value.value())
    }
}

/// Whether the name has a countryName or a jurisdictionCountryName that is no code of a country.
pub(crate) fn has_country_unknown(name: &Name) -> bool
    ensures { result ≡ grammar.has_some grammar.is_unknown_country name.now }
{
    any_attribute(&UnknownCountry, name)
}

/// That an octet is a full stop, a hyphen or a space.
struct Mark;

impl Test<u8> for Mark {
    ghost use Rattle.x509_lint_web.specs.Subject.{is_mark};

    ghost holds_of = { λ test. is_mark };

    fn holds_of(&self, octet: &u8) -> bool {
        *octet == b'.' || (*octet == b'-' || *octet == b' ')
    }
}

/// That the text of an attribute is of full stops, hyphens and spaces alone.
struct WithoutText;

impl Test<AttributeTypeAndValue> for WithoutText {
    ghost use Rattle.x509_lint_web.specs.Subject.{is_without_text};

    ghost holds_of = { λ test. is_without_text };

    fn holds_of(&self, attribute: &AttributeTypeAndValue) -> bool {
        let octets = attribute.value.value();
        !octets.is_empty() && all_of(&Mark, octets)
    }
}

/// Whether the name has an attribute of full stops, hyphens and spaces alone.
pub(crate) fn has_without_text(name: &Name) -> bool
    ensures { result ≡ grammar.has_some grammar.is_without_text name.now }
{
    any_attribute(&WithoutText, name)
}

/// That a name has two attributes of a type or more.
#[derive(Clone, Copy)]
struct RepeatedIn<'a>(&'a Name);

impl Test<ObjectIdentifier> for RepeatedIn<'_> {
    ghost use Rattle.std.specs.Prelude.{nat_lt};
    ghost use Rattle.x509_lint_web.specs.Words.{count_of};

    ghost holds_of = { λ test oid. nat_lt 1 (count_of oid test.0.now) };

    fn holds_of(&self, oid: &ObjectIdentifier) -> bool {
        is_repeated(*oid, self.0)
    }
}

/// Whether the name has two attributes or more of a type of which it may have one.
pub(crate) fn has_repeated(name: &Name) -> bool
    ensures { result ≡ list_any (λ oid. nat_lt 1 (count_of oid name.now)) grammar.single_attributes }
{
    any_of(&RepeatedIn(name), &SINGLE_ATTRIBUTES)
}

/// That an RDN has two attributes or more.
struct OfSeveral;

impl Test<RelativeDistinguishedName> for OfSeveral {
    ghost use Rattle.std.specs.Prelude.{length, nat_lt};

    ghost holds_of = { λ test rdn. nat_lt 1 (length rdn) };

    fn holds_of(&self, rdn: &RelativeDistinguishedName) -> bool {
        rdn.as_slice().len() > 1
    }
}

/// Whether an RDN of the name has two attributes or more.
pub(crate) fn has_rdn_of_several(name: &Name) -> bool
    ensures { result ≡ list_any (λ rdn. nat_lt 1 (length rdn)) name.now }
{
    let rdns: &RdnSequence = name.as_ref();
    any_of(&OfSeveral, rdns.as_slice())
}

fn is_of_authorities(attribute: ObjectIdentifier) -> bool
    ensures { result ≡ authority.is_of_authorities attribute }
{
    AUTHORITY_ATTRIBUTES.contains(&attribute)
}

/// That an attribute is none that the subject of an authority is to have.
struct NotOfAuthorities;

impl Test<AttributeTypeAndValue> for NotOfAuthorities {
    ghost use Rattle.x509_lint_web.specs.Authority.{is_not_of_authorities};

    ghost holds_of = { λ test. is_not_of_authorities };

    fn holds_of(&self, attribute: &AttributeTypeAndValue) -> bool {
        !is_of_authorities(attribute.oid)
    }
}

/// Whether the name has an attribute that the subject of an authority isn't to have.
pub(crate) fn has_not_of_authorities(name: &Name) -> bool
    ensures { result ≡ grammar.has_some authority.is_not_of_authorities name.now }
{
    any_attribute(&NotOfAuthorities, name)
}
