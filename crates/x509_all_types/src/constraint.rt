//! Name constraints and CRL distribution points: a part of the table.

use std::alloc::Global;
use std::marker::PhantomData;
use x509_der::Error;
use x509_ext::pkix::constraints::name::GeneralSubtree;
use x509_ext::pkix::crl::dp::DistributionPoint;
use x509_ext::pkix::{
    CrlDistributionPoints, FreshestCrl, IssuingDistributionPoint, NameConstraints,
};
use x509_types::{Reencode, Table};

/// Name constraints and CRL distribution points. Other names are looked up in the next part of the table.
pub struct Constraints<T> {
    rest: PhantomData<T>,
}

#[tactic(auto, using(x509_types::specs::RowLaws::is_found, x509_types::specs::RowLaws::is_passed))]
impl<T: Table> Table for Constraints<T> {
    ghost use Rattle.std.specs.Prelude.{codes};
    ghost use Rattle.x509_types.specs.Table.{named, ◌otherwise◌};

    ghost table = { named (codes "CrlDistributionPoints") ⟦<CrlDistributionPoints as Reencode>⟧.reencodes otherwise
        named (codes "DistributionPoint") ⟦<DistributionPoint as Reencode>⟧.reencodes otherwise
        named (codes "FreshestCrl") ⟦<FreshestCrl as Reencode>⟧.reencodes otherwise
        named (codes "GeneralSubtree") ⟦<GeneralSubtree as Reencode>⟧.reencodes otherwise
        named (codes "IssuingDistributionPoint") ⟦<IssuingDistributionPoint as Reencode>⟧.reencodes otherwise
        named (codes "NameConstraints") ⟦<NameConstraints as Reencode>⟧.reencodes otherwise
        T.table };

    fn reencode(alloc: Global, name: &str, bytes: &[u8]) -> Result<Vec<u8>, Error> {
        match name {
            "CrlDistributionPoints" => CrlDistributionPoints::reencode_as(alloc, bytes),
            "DistributionPoint" => DistributionPoint::reencode_as(alloc, bytes),
            "FreshestCrl" => FreshestCrl::reencode_as(alloc, bytes),
            "GeneralSubtree" => GeneralSubtree::reencode_as(alloc, bytes),
            "IssuingDistributionPoint" => IssuingDistributionPoint::reencode_as(alloc, bytes),
            "NameConstraints" => NameConstraints::reencode_as(alloc, bytes),
            _ => T::reencode(alloc, name, bytes),
        }
    }
}
