//! In which order the attributes of a subject stand.

ghost use Rattle.std.specs.Prelude.{◌≡◌};
ghost use Rattle.x509_lint_web.specs.Subject as grammar;

use x509_der::ObjectIdentifier;
use x509_lint::lists::{Test, any_of};
use x509_name::attr::AttributeTypeAndValue;
use x509_name::attr::attribute_types::{
    COMMON_NAME, COUNTRY_NAME, DOMAIN_COMPONENT, GIVEN_NAME, LOCALITY_NAME, ORGANIZATION_NAME,
    ORGANIZATIONAL_UNIT_NAME, POSTAL_CODE, STATE_OR_PROVINCE_NAME, STREET_ADDRESS, SURNAME,
};
use x509_name::name::{Name, RdnSequence, RelativeDistinguishedName};

/// The place of a type in the order, from 1; 0 where it has none.
fn place_of(oid: ObjectIdentifier) -> u8
    ensures { result ≡ grammar.place_of oid }
{
    if oid == DOMAIN_COMPONENT {
        1
    } else if oid == COUNTRY_NAME {
        2
    } else if oid == STATE_OR_PROVINCE_NAME {
        3
    } else if oid == LOCALITY_NAME {
        4
    } else if oid == POSTAL_CODE {
        5
    } else if oid == STREET_ADDRESS {
        6
    } else if oid == ORGANIZATION_NAME {
        7
    } else if oid == SURNAME {
        8
    } else if oid == GIVEN_NAME {
        9
    } else if oid == ORGANIZATIONAL_UNIT_NAME {
        10
    } else if oid == COMMON_NAME {
        11
    } else {
        0
    }
}

/// That the type of an attribute has a place, and it is below this one.
#[derive(Clone, Copy)]
struct Below(u8);

impl Test<AttributeTypeAndValue> for Below {
    ghost use Rattle.x509_lint_web.specs.Subject.{is_below};

    ghost holds_of = { λ test. is_below test.0 };

    fn holds_of(&self, attribute: &AttributeTypeAndValue) -> bool {
        let own = place_of(attribute.oid);
        0 < own && own < self.0
    }
}

/// The highest place: this one, or that of an attribute.
fn highest(place: u8, mut attributes: &[AttributeTypeAndValue]) -> u8
    ensures { result ≡ grammar.highest place attributes.entry.now }
{
    let mut reached = place;
    while let [first, rest @ ..] = attributes {
        reached = reached.max(place_of(first.oid));
        attributes = rest;
    }
    reached
}

fn is_disordered_from(place: u8, mut rdns: &[RelativeDistinguishedName]) -> bool
    ensures { result ≡ grammar.is_disordered place rdns.entry.now }
{
    let mut reached = place;
    while let [first, rest @ ..] = rdns {
        if any_of(&Below(reached), first.as_slice()) {
            return true;
        }
        reached = highest(reached, first.as_slice());
        rdns = rest;
    }
    false
}

/// Whether an attribute of the name stands behind one of a type that it has to stand in front of.
pub(crate) fn is_disordered(name: &Name) -> bool
    ensures { result ≡ grammar.is_disordered 0 name.now }
{
    let rdns: &RdnSequence = name.as_ref();
    is_disordered_from(0, rdns.as_slice())
}
