//! Checks of what one certificate says of policies.

ghost use Rattle.std.specs.Prelude.{◌≡◌, map};
ghost use Rattle.x509_policy.specs.Values as values;
ghost use Rattle.x509_policy.specs.Views.{mapping_of, octets_of};

use crate::values::MappingView;

/// The contents octets of id-ce-certificatePolicies-anyPolicy, 2.5.29.32.0 (RFC 5280 4.2.1.4).
pub const ANY_POLICY: [u8; 4] = [0x55, 0x1d, 0x20, 0x00];

/// Whether it is any-policy.
#[tactic(auto, unfolding(crate::specs::Values::is_any))]
pub fn is_any_policy(policy: &[u8]) -> bool
    ensures { result ≡ values.is_any policy.now }
{
    policy == ANY_POLICY.as_slice()
}

/// Whether the policy is one of these.
pub fn has_policy(policies: &[&[u8]], policy: &[u8]) -> bool
    ensures { result ≡ values.has (octets_of policies.now) policy.now }
{
    for other in policies {
        if *other == policy {
            return true;
        }
    }
    false
}

/// Whether any-policy is mapped, or something is mapped to it (RFC 5280 6.1.4 (a)).
pub fn maps_any_policy(mappings: &[MappingView]) -> bool
    ensures { result ≡ values.maps_any_policy (map mapping_of mappings.now) }
{
    for mapping in mappings {
        if is_any_policy(mapping.issuer_domain_policy)
            || is_any_policy(mapping.subject_domain_policy)
        {
            return true;
        }
    }
    false
}
