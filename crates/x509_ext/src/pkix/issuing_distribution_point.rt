//! The issuing distribution point: which certificates a CRL covers.

use crate::pkix::crl::dp::ReasonFlags;
use crate::pkix::name::DistributionPointName;
use crate::{Always, FixedCriticality};
use std::alloc::Global;
use x509_der::{
    AssociatedOid, Content, Encode, Error, ObjectIdentifier, PutPart, Room, Spelled, Tag, TryClone,
    defaulted_implicit, end, oid, option_has_spelling, optional_explicit, optional_implicit,
    read_defaulted_implicit, read_optional_explicit, read_optional_implicit,
};

/// The issuing distribution point: where the CRL is found, and which certificates it covers (RFC 5280 5.2.5). Its OID
/// is 2.5.29.28, and it is critical. That at most one of the three `only_contains` is true, as RFC 5280 wants it, isn't
/// checked.
///
/// ```text
/// IssuingDistributionPoint ::= SEQUENCE {
///     distributionPoint           [0] EXPLICIT DistributionPointName OPTIONAL,
///     onlyContainsUserCerts       [1] IMPLICIT BOOLEAN DEFAULT FALSE,
///     onlyContainsCACerts         [2] IMPLICIT BOOLEAN DEFAULT FALSE,
///     onlySomeReasons             [3] IMPLICIT ReasonFlags OPTIONAL,
///     indirectCRL                 [4] IMPLICIT BOOLEAN DEFAULT FALSE,
///     onlyContainsAttributeCerts  [5] IMPLICIT BOOLEAN DEFAULT FALSE }
/// ```
#[derive(Debug, PartialEq, Eq)]
pub struct IssuingDistributionPoint {
    /// The name of the distribution point.
    pub distribution_point: Option<DistributionPointName>,

    /// Whether it covers end entity certificates alone.
    pub only_contains_user_certs: bool,

    /// Whether it covers CA certificates alone.
    pub only_contains_ca_certs: bool,

    /// The reasons that it covers; all where absent.
    pub only_some_reasons: Option<ReasonFlags>,

    /// Whether it covers certificates of other issuers too.
    pub indirect_crl: bool,

    /// Whether it covers attribute certificates alone.
    pub only_contains_attribute_certs: bool,
}

impl Drop for IssuingDistributionPoint {
    fn drop(self) {
        let IssuingDistributionPoint {
            distribution_point: _,
            only_contains_user_certs: _,
            only_contains_ca_certs: _,
            only_some_reasons: _,
            indirect_crl: _,
            only_contains_attribute_certs: _,
        } = self;
    }
}

impl AssociatedOid for IssuingDistributionPoint {
    ghost use Rattle.x509_ext.specs.Identifiers.{id_ce};

    ghost OID = { id_ce 28 };

    const OID: ObjectIdentifier = oid!(0x55, 0x1D, 28);
}

impl FixedCriticality for IssuingDistributionPoint {
    type Critical = Always;
}

impl TryClone for IssuingDistributionPoint {
    fn try_clone(&self, alloc: Global) -> Result<IssuingDistributionPoint, Error> {
        Ok(IssuingDistributionPoint {
            distribution_point: self.distribution_point.try_clone(alloc)?,
            only_contains_user_certs: self.only_contains_user_certs,
            only_contains_ca_certs: self.only_contains_ca_certs,
            only_some_reasons: self.only_some_reasons,
            indirect_crl: self.indirect_crl,
            only_contains_attribute_certs: self.only_contains_attribute_certs,
        })
    }
}

#[tactic(auto, unfolding(crate::specs::IssuingDistributionPoint::issuing_distribution_point_fields, x509_der::specs::Frames::fields_reading, x509_der::specs::Frames::fields_octets), using(x509_der::specs::FrameWriting::text_in_option, x509_der::specs::FrameWriting::refusal_in_option, crate::proofs::Refusals::no_refusal))]
impl Content for IssuingDistributionPoint {
    ghost use Rattle.x509_der.specs.declared.tag.Tag.TheVariants.{Sequence};
    ghost use Rattle.x509_ext.specs.IssuingDistributionPoint as grammar;

    ghost contents = { grammar.issuing_distribution_point_contents };

    ghost written_as = { grammar.issuing_distribution_point_writing ⟦<ReasonFlags as Encode>⟧.writing };

    ghost IDENTIFIER = { Sequence };

    const IDENTIFIER: Tag = Tag::Sequence;

    fn read_content(alloc: Global, octets: &[u8]) -> Result<IssuingDistributionPoint, Error> {
        let mut rest = octets;
        let distribution_point = read_optional_explicit::<DistributionPointName>(
            alloc, 0, &mut rest,
        )?;
        let only_contains_user_certs = read_defaulted_implicit::<bool>(alloc, 1, &mut rest)?;
        let only_contains_ca_certs = read_defaulted_implicit::<bool>(alloc, 2, &mut rest)?;
        let only_some_reasons = read_optional_implicit::<ReasonFlags>(alloc, 3, &mut rest)?;
        let indirect_crl = read_defaulted_implicit::<bool>(alloc, 4, &mut rest)?;
        let only_contains_attribute_certs = read_defaulted_implicit::<bool>(alloc, 5, &mut rest)?;
        end(rest)?;
        Ok(IssuingDistributionPoint {
            distribution_point,
            only_contains_user_certs,
            only_contains_ca_certs,
            only_some_reasons,
            indirect_crl,
            only_contains_attribute_certs,
        })
    }

    fn write_content<R: Room>(&self, room: &mut R) -> Result<(), Error> {
        let front = (
            optional_explicit(0, &self.distribution_point),
            (
                defaulted_implicit(1, &self.only_contains_user_certs),
                defaulted_implicit(2, &self.only_contains_ca_certs),
            ),
        );
        let behind = (
            optional_implicit(3, &self.only_some_reasons),
            (
                defaulted_implicit(4, &self.indirect_crl),
                defaulted_implicit(5, &self.only_contains_attribute_certs),
            ),
        );
        (front, behind).put_part(room)
    }

    ghost contents_lawful = { grammar.issuing_distribution_point_contents_lawful };
}

#[tactic(auto, unfolding(crate::specs::IssuingDistributionPoint::issuing_distribution_point_fields, x509_der::specs::Frames::fields_good))]
impl Spelled for IssuingDistributionPoint {
    ghost use Rattle.std.specs.Prelude.{◌≡◌, Some, true};
    ghost use Rattle.x509_ext.specs.Reasons.{reason_names};
    ghost use Rattle.x509_ext.specs.declared.pkix.reasons.Reasons.{Reasons};
    ghost use Rattle.x509_prim.specs.NamedBits.{has_names};

    ghost premise = { λ point. (reasons : Reasons) → point.only_some_reasons ≡ Some reasons → has_names reason_names reasons.0 ≡ true };

    fn has_spelling(&self) {
        option_has_spelling(&self.distribution_point);
        option_has_spelling(&self.only_some_reasons);
    }
}
