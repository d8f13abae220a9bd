//! CRL distribution points, and freshest CRL.

ghost use Rattle.std.specs.Prelude.{◌≡◌, []};

use crate::pkix::distribution_point::DistributionPoint;
use crate::{FixedCriticality, Never};
use std::alloc::Global;
use x509_der::{AssociatedOid, Newtype, ObjectIdentifier, SequenceOf, oid};

/// The CRL distribution points: where the CRLs are found that would revoke the certificate (RFC 5280 4.2.1.13). Its OID
/// is 2.5.29.31, and it isn't critical. An empty sequence is decoded and encoded too.
///
/// ```text
/// CRLDistributionPoints ::= SEQUENCE OF DistributionPoint
/// ```
#[derive(Debug, Drop, PartialEq, Eq)]
pub struct CrlDistributionPoints(pub SequenceOf<DistributionPoint>);

impl CrlDistributionPoints {
    /// No distribution points. It takes no memory.
    pub fn new(alloc: Global) -> CrlDistributionPoints
        ensures { result.0 ≡ [] }
    {
        CrlDistributionPoints(SequenceOf::new(alloc))
    }
}

impl AssociatedOid for CrlDistributionPoints {
    ghost use Rattle.x509_ext.specs.Identifiers.{id_ce};

    ghost OID = { id_ce 31 };

    const OID: ObjectIdentifier = oid!(0x55, 0x1D, 31);
}

impl FixedCriticality for CrlDistributionPoints {
    type Critical = Never;
}

impl Newtype for CrlDistributionPoints {
    ghost use Rattle.x509_ext.specs.DistributionPoint.{crl_distribution_points_round};

    type Inner = SequenceOf<DistributionPoint>;

    ghost round = { crl_distribution_points_round };

    fn inner(&self) -> &SequenceOf<DistributionPoint> {
        &self.0
    }

    fn from_inner(inner: SequenceOf<DistributionPoint>) -> CrlDistributionPoints {
        CrlDistributionPoints(inner)
    }
}

impl From<SequenceOf<DistributionPoint>> for CrlDistributionPoints {
    ghost from_gives = { λ points places. places.0 ≡ points };

    fn from(points: SequenceOf<DistributionPoint>) -> CrlDistributionPoints {
        CrlDistributionPoints(points)
    }
}

impl From<CrlDistributionPoints> for SequenceOf<DistributionPoint> {
    ghost from_gives = { λ places points. points ≡ places.0 };

    fn from(places: CrlDistributionPoints) -> SequenceOf<DistributionPoint> {
        let CrlDistributionPoints(points) = places;
        points
    }
}

impl AsRef<SequenceOf<DistributionPoint>> for CrlDistributionPoints {
    fn as_ref(&self) -> &SequenceOf<DistributionPoint>
        ensures { result.now ≡ self.now.0 }
    {
        &self.0
    }
}

impl AsMut<SequenceOf<DistributionPoint>> for CrlDistributionPoints {
    ghost use Rattle.std.specs.Borrow.{Lends, sem};
    ghost use Rattle.x509_ext.specs.RevocationRows.{point_list_row};
    ghost use Rattle.x509_ext.specs.contracts.pkix.distribution_points.CrlDistributionPoints.{the_row};

    fn as_mut(&mut self) -> &mut SequenceOf<DistributionPoint>
        ensures* writes_back { sem 𝓛 (Lends the_row point_list_row self.entry result (λ w. record { 0 = w })) }
        ensures value { result.now ≡ self.old.0 }
    {
        &mut self.0
    }
}

/// Freshest CRL: where the delta CRLs are found (RFC 5280 4.2.1.15, 5.2.6). Its OID is 2.5.29.46, and it isn't
/// critical. An empty sequence is decoded and encoded too.
///
/// ```text
/// FreshestCRL ::= CRLDistributionPoints
/// ```
#[derive(Debug, Drop, PartialEq, Eq)]
pub struct FreshestCrl(pub SequenceOf<DistributionPoint>);

impl FreshestCrl {
    /// No distribution points. It takes no memory.
    pub fn new(alloc: Global) -> FreshestCrl
        ensures { result.0 ≡ [] }
    {
        FreshestCrl(SequenceOf::new(alloc))
    }
}

impl AssociatedOid for FreshestCrl {
    ghost use Rattle.x509_ext.specs.Identifiers.{id_ce};

    ghost OID = { id_ce 46 };

    const OID: ObjectIdentifier = oid!(0x55, 0x1D, 46);
}

impl FixedCriticality for FreshestCrl {
    type Critical = Never;
}

impl Newtype for FreshestCrl {
    ghost use Rattle.x509_ext.specs.DistributionPoint.{freshest_crl_round};

    type Inner = SequenceOf<DistributionPoint>;

    ghost round = { freshest_crl_round };

    fn inner(&self) -> &SequenceOf<DistributionPoint> {
        &self.0
    }

    fn from_inner(inner: SequenceOf<DistributionPoint>) -> FreshestCrl {
        FreshestCrl(inner)
    }
}

impl From<SequenceOf<DistributionPoint>> for FreshestCrl {
    ghost from_gives = { λ points places. places.0 ≡ points };

    fn from(points: SequenceOf<DistributionPoint>) -> FreshestCrl {
        FreshestCrl(points)
    }
}

impl From<FreshestCrl> for SequenceOf<DistributionPoint> {
    ghost from_gives = { λ places points. points ≡ places.0 };

    fn from(places: FreshestCrl) -> SequenceOf<DistributionPoint> {
        let FreshestCrl(points) = places;
        points
    }
}

impl AsRef<SequenceOf<DistributionPoint>> for FreshestCrl {
    fn as_ref(&self) -> &SequenceOf<DistributionPoint>
        ensures { result.now ≡ self.now.0 }
    {
        &self.0
    }
}

impl AsMut<SequenceOf<DistributionPoint>> for FreshestCrl {
    ghost use Rattle.std.specs.Borrow.{Lends, sem};
    ghost use Rattle.x509_ext.specs.RevocationRows.{point_list_row};
    ghost use Rattle.x509_ext.specs.contracts.pkix.distribution_points.FreshestCrl.{the_row};

    fn as_mut(&mut self) -> &mut SequenceOf<DistributionPoint>
        ensures* writes_back { sem 𝓛 (Lends the_row point_list_row self.entry result (λ w. record { 0 = w })) }
        ensures value { result.now ≡ self.old.0 }
    {
        &mut self.0
    }
}
