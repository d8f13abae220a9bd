//! General names: a part of the table.

use std::alloc::Global;
use std::marker::PhantomData;
use x509_der::Error;
use x509_ext::pkix::name::{
    DistributionPointName, EdiPartyName, GeneralName, GeneralNames, HardwareModuleName, OtherName,
};
use x509_types::{Reencode, Table};

/// General names. Other names are looked up in the next part of the table.
pub struct GeneralNameTypes<T> {
    rest: PhantomData<T>,
}

#[tactic(auto, using(x509_types::specs::RowLaws::is_found, x509_types::specs::RowLaws::is_passed))]
impl<T: Table> Table for GeneralNameTypes<T> {
    ghost use Rattle.std.specs.Prelude.{codes};
    ghost use Rattle.x509_types.specs.Table.{named, ◌otherwise◌};

    ghost table = { named (codes "DistributionPointName") ⟦<DistributionPointName as Reencode>⟧.reencodes otherwise
        named (codes "EdiPartyName") ⟦<EdiPartyName as Reencode>⟧.reencodes otherwise
        named (codes "GeneralName") ⟦<GeneralName as Reencode>⟧.reencodes otherwise
        named (codes "GeneralNames") ⟦<GeneralNames as Reencode>⟧.reencodes otherwise
        named (codes "HardwareModuleName") ⟦<HardwareModuleName as Reencode>⟧.reencodes otherwise
        named (codes "OtherName") ⟦<OtherName as Reencode>⟧.reencodes otherwise
        T.table };

    fn reencode(alloc: Global, name: &str, bytes: &[u8]) -> Result<Vec<u8>, Error> {
        match name {
            "DistributionPointName" => DistributionPointName::reencode_as(alloc, bytes),
            "EdiPartyName" => EdiPartyName::reencode_as(alloc, bytes),
            "GeneralName" => GeneralName::reencode_as(alloc, bytes),
            "GeneralNames" => GeneralNames::reencode_as(alloc, bytes),
            "HardwareModuleName" => HardwareModuleName::reencode_as(alloc, bytes),
            "OtherName" => OtherName::reencode_as(alloc, bytes),
            _ => T::reencode(alloc, name, bytes),
        }
    }
}
