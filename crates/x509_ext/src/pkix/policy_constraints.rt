//! Policy constraints.

use crate::{Always, FixedCriticality};
use std::alloc::Global;
use std::cmp::Ordering;
use x509_der::{
    AssociatedOid, CmpPart, Content, EncodingOrd, Error, ObjectIdentifier, PutPart, Room,
    SetMember, SetOrd, Spelled, Tag, TryClone, ValueOrd, both_optional_implicit, end, oid,
    option_has_spelling, optional_implicit, read_optional_implicit,
};

/// Policy constraints: after how many further certificates of a path policies have to be acceptable, or mappings aren't
/// followed any more (RFC 5280 4.2.1.11). Its OID is 2.5.29.36, and it is critical.
///
/// ```text
/// PolicyConstraints ::= SEQUENCE {
///     requireExplicitPolicy  [0] IMPLICIT SkipCerts OPTIONAL,
///     inhibitPolicyMapping   [1] IMPLICIT SkipCerts OPTIONAL }
/// SkipCerts ::= INTEGER (0..4294967295)
/// ```
#[derive(Clone, Copy, Debug, PartialEq, Eq)]
pub struct PolicyConstraints {
    /// After how many certificates a policy has to be acceptable.
    pub require_explicit_policy: Option<u32>,

    /// After how many certificates mappings aren't followed.
    pub inhibit_policy_mapping: Option<u32>,
}

impl AssociatedOid for PolicyConstraints {
    ghost use Rattle.x509_ext.specs.Identifiers.{id_ce};

    ghost OID = { id_ce 36 };

    const OID: ObjectIdentifier = oid!(0x55, 0x1D, 36);
}

impl FixedCriticality for PolicyConstraints {
    type Critical = Always;
}

impl TryClone for PolicyConstraints {
    ghost use Rattle.std.specs.Prelude.{◌≡◌, Ok};

    fn try_clone(&self, _alloc: Global) -> Result<PolicyConstraints, Error>
        ensures { result ≡ Ok self.now }
    {
        Ok(*self)
    }
}

#[tactic(auto, unfolding(crate::specs::PolicyConstraints::policy_constraints_fields, x509_der::specs::Frames::fields_reading, x509_der::specs::Frames::fields_octets))]
impl Content for PolicyConstraints {
    ghost use Rattle.x509_der.specs.declared.tag.Tag.TheVariants.{Sequence};
    ghost use Rattle.x509_ext.specs.PolicyConstraints as grammar;

    ghost contents = { grammar.policy_constraints_contents };

    ghost takes_memory = { ⊥ };

    ghost IDENTIFIER = { Sequence };

    const IDENTIFIER: Tag = Tag::Sequence;

    fn read_content(alloc: Global, octets: &[u8]) -> Result<PolicyConstraints, Error> {
        let mut rest = octets;
        let require_explicit_policy = read_optional_implicit::<u32>(alloc, 0, &mut rest)?;
        let inhibit_policy_mapping = read_optional_implicit::<u32>(alloc, 1, &mut rest)?;
        end(rest)?;
        Ok(PolicyConstraints {
            require_explicit_policy,
            inhibit_policy_mapping,
        })
    }

    fn write_content<R: Room>(&self, room: &mut R) -> Result<(), Error> {
        let parts = (
            optional_implicit(0, &self.require_explicit_policy),
            optional_implicit(1, &self.inhibit_policy_mapping),
        );
        parts.put_part(room)
    }

    ghost contents_lawful = { grammar.policy_constraints_contents_lawful };
}

impl ValueOrd for PolicyConstraints {
    ghost use Rattle.x509_ext.specs.PolicyConstraints as grammar;

    ghost order = { grammar.policy_constraints_order };

    fn value_cmp(&self, other: &PolicyConstraints) -> Ordering {
        let parts = (
            both_optional_implicit(
                0,
                &self.require_explicit_policy,
                &other.require_explicit_policy,
            ),
            both_optional_implicit(
                1,
                &self.inhibit_policy_mapping,
                &other.inhibit_policy_mapping,
            ),
        );
        parts.cmp_part(None, None)
    }

    ghost ordered = { grammar.policy_constraints_ordered };
}

impl SetOrd for PolicyConstraints {
    ghost set_order = { ⟦<PolicyConstraints as EncodingOrd>⟧.encoding_order };
}

impl SetMember for PolicyConstraints {
    ghost use Rattle.std.specs.Prelude.{refl};

    ghost in_der_order = { refl };
}

#[tactic(auto, unfolding(crate::specs::PolicyConstraints::policy_constraints_fields, x509_der::specs::Frames::fields_good))]
impl Spelled for PolicyConstraints {
    fn has_spelling(&self) {
        option_has_spelling(&self.require_explicit_policy);
        option_has_spelling(&self.inhibit_policy_mapping);
    }
}
