//! What a certificate says of policies, and what a caller asks of a path.

/// A pair of a PolicyMappings extension (RFC 5280 4.2.1.5): policies by the contents octets of their OBJECT IDENTIFIERs.
#[derive(Clone, Copy)]
pub struct MappingView<'a> {
    /// The policy of the issuer's domain.
    pub issuer_domain_policy: &'a [u8],

    /// The policy of the subject's domain that the issuer considers equivalent.
    pub subject_domain_policy: &'a [u8],
}

/// What one certificate says of policies: those of its extensions that speak of them, without qualifiers. A policy is
/// given by the contents octets of its OBJECT IDENTIFIER, lent for longer than the lists are. No path has 2^32 certificates,
/// so a number that is greater than a u32 can hold means what the greatest u32 means.
#[derive(Clone, Copy)]
pub struct PolicyView<'v, 'a> {
    /// The policies of CertificatePolicies, where there is one (RFC 5280 4.2.1.4).
    pub policies: Option<&'v [&'a [u8]]>,

    /// The pairs of PolicyMappings, none where there isn't one (RFC 5280 4.2.1.5).
    pub mappings: &'v [MappingView<'a>],

    /// The requireExplicitPolicy of PolicyConstraints (RFC 5280 4.2.1.11).
    pub require_explicit_policy: Option<u32>,

    /// The inhibitPolicyMapping of PolicyConstraints.
    pub inhibit_policy_mapping: Option<u32>,

    /// The number of InhibitAnyPolicy (RFC 5280 4.2.1.14).
    pub inhibit_any_policy: Option<u32>,

    /// Whether subject and issuer are one name.
    pub is_self_issued: bool,
}

/// What a caller asks of the policies of a path (RFC 5280 6.1.1 (c), (e), (f), (g)).
#[derive(Clone, Copy)]
pub struct PolicySettings<'s, 'a> {
    /// The policies that the caller accepts, any-policy among them where it isn't concerned.
    pub user_initial_policy_set: &'s [&'a [u8]],

    /// Whether policies may not be mapped from the start.
    pub initial_policy_mapping_inhibit: bool,

    /// Whether the path has to be valid for one of the policies at least.
    pub initial_explicit_policy: bool,

    /// Whether any-policy of a certificate counts for nothing from the start.
    pub initial_any_policy_inhibit: bool,
}
