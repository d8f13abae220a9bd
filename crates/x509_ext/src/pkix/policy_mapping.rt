//! Policy mappings.

use crate::{Always, FixedCriticality};
use std::alloc::Global;
use std::cmp::Ordering;
use x509_der::{
    AssociatedOid, CmpPart, Content, EncodingOrd, Error, Newtype, NewtypeOrd, ObjectIdentifier,
    PutPart, Room, SequenceOf, SetMember, SetOrd, Spelled, Tag, TryClone, ValueOrd, both, end, oid,
    read_field,
};

/// A policy of the issuer, and a policy of the subject that the issuer considers equivalent (RFC 5280 4.2.1.5).
///
/// ```text
/// PolicyMapping ::= SEQUENCE {
///     issuerDomainPolicy   CertPolicyId,
///     subjectDomainPolicy  CertPolicyId }
/// CertPolicyId ::= OBJECT IDENTIFIER
/// ```
#[derive(Debug, Drop, PartialEq, Eq)]
pub struct PolicyMapping {
    /// The policy of the issuer.
    pub issuer_domain_policy: ObjectIdentifier,

    /// The policy of the subject.
    pub subject_domain_policy: ObjectIdentifier,
}

impl TryClone for PolicyMapping {
    ghost use Rattle.std.specs.Prelude.{◌≡◌, Ok};

    fn try_clone(&self, _alloc: Global) -> Result<PolicyMapping, Error>
        ensures { result ≡ Ok self.now }
    {
        Ok(PolicyMapping {
            issuer_domain_policy: self.issuer_domain_policy,
            subject_domain_policy: self.subject_domain_policy,
        })
    }
}

#[tactic(auto, unfolding(crate::specs::PolicyMapping::policy_mapping_fields, x509_der::specs::Frames::fields_reading, x509_der::specs::Frames::fields_octets))]
impl Content for PolicyMapping {
    ghost use Rattle.x509_der.specs.declared.tag.Tag.TheVariants.{Sequence};
    ghost use Rattle.x509_ext.specs.PolicyMapping as grammar;

    ghost contents = { grammar.policy_mapping_contents };

    ghost takes_memory = { ⊥ };

    ghost IDENTIFIER = { Sequence };

    const IDENTIFIER: Tag = Tag::Sequence;

    fn read_content(alloc: Global, octets: &[u8]) -> Result<PolicyMapping, Error> {
        let mut rest = octets;
        let issuer_domain_policy = read_field::<ObjectIdentifier>(alloc, &mut rest)?;
        let subject_domain_policy = read_field::<ObjectIdentifier>(alloc, &mut rest)?;
        end(rest)?;
        Ok(PolicyMapping {
            issuer_domain_policy,
            subject_domain_policy,
        })
    }

    fn write_content<R: Room>(&self, room: &mut R) -> Result<(), Error> {
        let parts = (&self.issuer_domain_policy, &self.subject_domain_policy);
        parts.put_part(room)
    }

    ghost contents_lawful = { grammar.policy_mapping_contents_lawful };
}

impl ValueOrd for PolicyMapping {
    ghost use Rattle.x509_ext.specs.PolicyMapping as grammar;

    ghost order = { grammar.policy_mapping_order };

    fn value_cmp(&self, other: &PolicyMapping) -> Ordering {
        let parts = (
            both(&self.issuer_domain_policy, &other.issuer_domain_policy),
            both(&self.subject_domain_policy, &other.subject_domain_policy),
        );
        parts.cmp_part(None, None)
    }

    ghost ordered = { grammar.policy_mapping_ordered };
}

impl SetOrd for PolicyMapping {
    ghost set_order = { ⟦<PolicyMapping as EncodingOrd>⟧.encoding_order };
}

impl SetMember for PolicyMapping {
    ghost use Rattle.std.specs.Prelude.{refl};

    ghost in_der_order = { refl };
}

#[tactic(auto, unfolding(crate::specs::PolicyMapping::policy_mapping_fields, x509_der::specs::Frames::fields_good))]
impl Spelled for PolicyMapping {
    fn has_spelling(&self) {
        self.issuer_domain_policy.has_spelling();
        self.subject_domain_policy.has_spelling();
    }
}

/// Policy mappings: which policies of the subject are equivalent to which of the issuer (RFC 5280 4.2.1.5). Its OID is
/// 2.5.29.33, and it is critical. An empty sequence is decoded and encoded too.
///
/// ```text
/// PolicyMappings ::= SEQUENCE OF PolicyMapping
/// ```
#[derive(Debug, Drop, PartialEq, Eq)]
pub struct PolicyMappings(pub SequenceOf<PolicyMapping>);

impl AssociatedOid for PolicyMappings {
    ghost use Rattle.x509_ext.specs.Identifiers.{id_ce};

    ghost OID = { id_ce 33 };

    const OID: ObjectIdentifier = oid!(0x55, 0x1D, 33);
}

impl FixedCriticality for PolicyMappings {
    type Critical = Always;
}

impl Newtype for PolicyMappings {
    ghost use Rattle.x509_ext.specs.PolicyMapping.{policy_mappings_round};

    type Inner = SequenceOf<PolicyMapping>;

    ghost round = { policy_mappings_round };

    fn inner(&self) -> &SequenceOf<PolicyMapping> {
        &self.0
    }

    fn from_inner(inner: SequenceOf<PolicyMapping>) -> PolicyMappings {
        PolicyMappings(inner)
    }
}

impl NewtypeOrd for PolicyMappings {}

impl SetOrd for PolicyMappings {
    ghost set_order = { ⟦<PolicyMappings as EncodingOrd>⟧.encoding_order };
}

impl SetMember for PolicyMappings {
    ghost use Rattle.std.specs.Prelude.{refl};

    ghost in_der_order = { refl };
}

impl From<SequenceOf<PolicyMapping>> for PolicyMappings {
    ghost use Rattle.std.specs.Prelude.{◌≡◌};

    ghost from_gives = { λ pairs mappings. mappings.0 ≡ pairs };

    fn from(pairs: SequenceOf<PolicyMapping>) -> PolicyMappings {
        PolicyMappings(pairs)
    }
}

impl From<PolicyMappings> for SequenceOf<PolicyMapping> {
    ghost use Rattle.std.specs.Prelude.{◌≡◌};

    ghost from_gives = { λ mappings pairs. pairs ≡ mappings.0 };

    fn from(mappings: PolicyMappings) -> SequenceOf<PolicyMapping> {
        let PolicyMappings(pairs) = mappings;
        pairs
    }
}

impl AsRef<SequenceOf<PolicyMapping>> for PolicyMappings {
    ghost use Rattle.std.specs.Prelude.{◌≡◌};

    fn as_ref(&self) -> &SequenceOf<PolicyMapping>
        ensures { result.now ≡ self.now.0 }
    {
        &self.0
    }
}

impl AsMut<SequenceOf<PolicyMapping>> for PolicyMappings {
    ghost use Rattle.std.specs.Borrow.{Lends, sem};
    ghost use Rattle.std.specs.Prelude.{◌≡◌};
    ghost use Rattle.x509_ext.specs.PolicyRows.{mapping_list_row};
    ghost use Rattle.x509_ext.specs.contracts.pkix.policy_mapping.PolicyMappings.{the_row};

    fn as_mut(&mut self) -> &mut SequenceOf<PolicyMapping>
        ensures* writes_back { sem 𝓛 (Lends the_row mapping_list_row self.entry result (λ w. record { 0 = w })) }
        ensures value { result.now ≡ self.old.0 }
    {
        &mut self.0
    }
}
