//! Policy constraints and inhibit anyPolicy with numbers of any size.

use std::alloc::Global;
use x509_der::{
    AssociatedOid, Content, Error, Newtype, ObjectIdentifier, PutPart, Room, Spelled, Tag, end,
    oid, option_has_spelling, optional_implicit, read_optional_implicit,
};
use x509_prim::Uint;

/// Policy constraints as RFC 5280 4.2.1.11 allows them: those of `x509_ext` have numbers below 2^32.
///
/// ```text
/// PolicyConstraints ::= SEQUENCE {
///     requireExplicitPolicy  [0] IMPLICIT SkipCerts OPTIONAL,
///     inhibitPolicyMapping   [1] IMPLICIT SkipCerts OPTIONAL }
/// SkipCerts ::= INTEGER (0..MAX)
/// ```
pub(crate) struct AnyPolicyConstraints {
    /// After how many certificates a policy has to be acceptable.
    pub(crate) require_explicit_policy: Option<Uint>,

    /// After how many certificates mappings aren't followed.
    pub(crate) inhibit_policy_mapping: Option<Uint>,
}

impl Drop for AnyPolicyConstraints {
    fn drop(self) {
        let AnyPolicyConstraints {
            require_explicit_policy: _,
            inhibit_policy_mapping: _,
        } = self;
    }
}

impl AssociatedOid for AnyPolicyConstraints {
    ghost use Rattle.x509_ext.specs.Identifiers.{id_ce};

    ghost OID = { id_ce 36 };

    const OID: ObjectIdentifier = oid!(0x55, 0x1D, 36);
}

#[tactic(auto, unfolding(crate::specs::SkipCerts::any_policy_constraints_fields, x509_der::specs::Frames::fields_reading, x509_der::specs::Frames::fields_octets))]
impl Content for AnyPolicyConstraints {
    ghost use Rattle.x509_der.specs.declared.tag.Tag.TheVariants.{Sequence};
    ghost use Rattle.x509_lint.specs.SkipCerts as grammar;

    ghost contents = { grammar.any_policy_constraints_contents };

    ghost IDENTIFIER = { Sequence };

    const IDENTIFIER: Tag = Tag::Sequence;

    fn read_content(alloc: Global, octets: &[u8]) -> Result<AnyPolicyConstraints, Error> {
        let mut rest = octets;
        let require_explicit_policy = read_optional_implicit::<Uint>(alloc, 0, &mut rest)?;
        let inhibit_policy_mapping = read_optional_implicit::<Uint>(alloc, 1, &mut rest)?;
        end(rest)?;
        Ok(AnyPolicyConstraints {
            require_explicit_policy,
            inhibit_policy_mapping,
        })
    }

    fn write_content<R: Room>(&self, room: &mut R) -> Result<(), Error> {
        let parts = (
            optional_implicit(0, &self.require_explicit_policy),
            optional_implicit(1, &self.inhibit_policy_mapping),
        );
        parts.put_part(room)
    }

    ghost contents_lawful = { grammar.any_policy_constraints_contents_lawful };
}

#[tactic(auto, unfolding(crate::specs::SkipCerts::any_policy_constraints_fields, x509_der::specs::Frames::fields_good))]
impl Spelled for AnyPolicyConstraints {
    fn has_spelling(&self) {
        option_has_spelling(&self.require_explicit_policy);
        option_has_spelling(&self.inhibit_policy_mapping);
    }
}

/// Inhibit anyPolicy as RFC 5280 4.2.1.14 allows it, SkipCerts: that of `x509_ext` has a number below 2^32.
pub(crate) struct AnyInhibitAnyPolicy(pub(crate) Uint);

impl Drop for AnyInhibitAnyPolicy {
    fn drop(self) {
        let AnyInhibitAnyPolicy(_) = self;
    }
}

impl AssociatedOid for AnyInhibitAnyPolicy {
    ghost use Rattle.x509_ext.specs.Identifiers.{id_ce};

    ghost OID = { id_ce 54 };

    const OID: ObjectIdentifier = oid!(0x55, 0x1D, 54);
}

impl Newtype for AnyInhibitAnyPolicy {
    ghost use Rattle.x509_lint.specs.SkipCerts.{any_inhibit_any_policy_round};

    type Inner = Uint;

    ghost round = { any_inhibit_any_policy_round };

    fn inner(&self) -> &Uint {
        &self.0
    }

    fn from_inner(inner: Uint) -> AnyInhibitAnyPolicy {
        AnyInhibitAnyPolicy(inner)
    }
}
