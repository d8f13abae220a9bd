//! The types of name attributes whose order is fixed (Baseline Requirements 7.1.4.2).

ghost use Rattle.std.specs.List.{position_from};
ghost use Rattle.std.specs.Prelude.{◌≡◌, ◌<◌, IfSome, bytes_eq, length};
ghost use Rattle.x509_build.specs.Order.{place_of};

use x509_der::ObjectIdentifier;
use x509_name::attr::attribute_types::{
    COMMON_NAME, COUNTRY_NAME, DOMAIN_COMPONENT, GIVEN_NAME, LOCALITY_NAME, ORGANIZATION_NAME,
    ORGANIZATIONAL_UNIT_NAME, POSTAL_CODE, STATE_OR_PROVINCE_NAME, STREET_ADDRESS, SURNAME,
};

/// The types whose order is fixed, in that order.
const ORDER: [ObjectIdentifier; 11] = [
    DOMAIN_COMPONENT,
    COUNTRY_NAME,
    STATE_OR_PROVINCE_NAME,
    LOCALITY_NAME,
    POSTAL_CODE,
    STREET_ADDRESS,
    ORGANIZATION_NAME,
    SURNAME,
    GIVEN_NAME,
    ORGANIZATIONAL_UNIT_NAME,
    COMMON_NAME,
];

/// The place of a type among those that are listed, from 0 on.
fn place_among(listed: &[ObjectIdentifier], oid: ObjectIdentifier) -> Option<usize>
    ensures place { result ≡ position_from (λ type. bytes_eq type oid) 0 listed.now }
    ensures within { IfSome result (λ place. place < length listed.now) }
{
    listed.iter().position(|type_id| *type_id == oid)
}

/// The place of a type in the order, from 0 on; `None` for a type whose order isn't fixed.
#[tactic(auto, unfolding(crate::specs::Order::place_of, crate::specs::Order::ordered_types, x509_der::specs::Arcs::subidentifier))]
pub(crate) fn place_of(oid: ObjectIdentifier) -> Option<usize>
    ensures place { result ≡ place_of oid }
    ensures within { IfSome result (λ place. place < 11) }
{
    place_among(&ORDER, oid)
}
