//! A CRL distribution point.

use crate::pkix::crl::dp::ReasonFlags;
use crate::pkix::name::{DistributionPointName, GeneralNames};
use std::alloc::Global;
use x509_der::{
    Content, Encode, Error, PutPart, Room, Spelled, Tag, TryClone, end, option_has_spelling,
    optional_explicit, optional_implicit, read_optional_explicit, read_optional_implicit,
};

/// A CRL distribution point: where a CRL is found (RFC 5280 4.2.1.13). That a name or an issuer is there, as RFC 5280
/// wants it, isn't checked.
///
/// ```text
/// DistributionPoint ::= SEQUENCE {
///     distributionPoint  [0] EXPLICIT DistributionPointName OPTIONAL,
///     reasons            [1] IMPLICIT ReasonFlags OPTIONAL,
///     cRLIssuer          [2] IMPLICIT GeneralNames OPTIONAL }
/// ```
#[derive(Debug, PartialEq, Eq)]
pub struct DistributionPoint {
    /// The name of the distribution point.
    pub distribution_point: Option<DistributionPointName>,

    /// The reasons that the CRL covers; all where absent.
    pub reasons: Option<ReasonFlags>,

    /// The issuer of the CRL; that of the certificate where absent.
    pub crl_issuer: Option<GeneralNames>,
}

impl Drop for DistributionPoint {
    fn drop(self) {
        let DistributionPoint {
            distribution_point: _,
            reasons: _,
            crl_issuer: _,
        } = self;
    }
}

impl TryClone for DistributionPoint {
    fn try_clone(&self, alloc: Global) -> Result<DistributionPoint, Error> {
        Ok(DistributionPoint {
            distribution_point: self.distribution_point.try_clone(alloc)?,
            reasons: self.reasons,
            crl_issuer: self.crl_issuer.try_clone(alloc)?,
        })
    }
}

#[tactic(auto, unfolding(crate::specs::DistributionPoint::distribution_point_fields, x509_der::specs::Frames::fields_reading, x509_der::specs::Frames::fields_octets), using(x509_der::specs::FrameWriting::text_in_option, x509_der::specs::FrameWriting::refusal_in_option))]
impl Content for DistributionPoint {
    ghost use Rattle.x509_der.specs.declared.tag.Tag.TheVariants.{Sequence};
    ghost use Rattle.x509_ext.specs.DistributionPoint as grammar;

    ghost contents = { grammar.distribution_point_contents };

    ghost written_as = { grammar.distribution_point_writing ⟦<ReasonFlags as Encode>⟧.writing };

    ghost IDENTIFIER = { Sequence };

    const IDENTIFIER: Tag = Tag::Sequence;

    fn read_content(alloc: Global, octets: &[u8]) -> Result<DistributionPoint, Error> {
        let mut rest = octets;
        let distribution_point = read_optional_explicit::<DistributionPointName>(
            alloc, 0, &mut rest,
        )?;
        let reasons = read_optional_implicit::<ReasonFlags>(alloc, 1, &mut rest)?;
        let crl_issuer = read_optional_implicit::<GeneralNames>(alloc, 2, &mut rest)?;
        end(rest)?;
        Ok(DistributionPoint {
            distribution_point,
            reasons,
            crl_issuer,
        })
    }

    fn write_content<R: Room>(&self, room: &mut R) -> Result<(), Error> {
        let parts = (
            optional_explicit(0, &self.distribution_point),
            (
                optional_implicit(1, &self.reasons),
                optional_implicit(2, &self.crl_issuer),
            ),
        );
        parts.put_part(room)
    }

    ghost contents_lawful = { grammar.distribution_point_contents_lawful };
}

#[tactic(auto, unfolding(crate::specs::DistributionPoint::distribution_point_fields, x509_der::specs::Frames::fields_good))]
impl Spelled for DistributionPoint {
    ghost use Rattle.std.specs.Prelude.{◌≡◌, Some, true};
    ghost use Rattle.x509_ext.specs.Reasons.{reason_names};
    ghost use Rattle.x509_ext.specs.declared.pkix.reasons.Reasons.{Reasons};
    ghost use Rattle.x509_prim.specs.NamedBits.{has_names};

    ghost premise = { λ point. (reasons : Reasons) → point.reasons ≡ Some reasons → has_names reason_names reasons.0 ≡ true };

    fn has_spelling(&self) {
        option_has_spelling(&self.distribution_point);
        option_has_spelling(&self.reasons);
        option_has_spelling(&self.crl_issuer);
    }
}
