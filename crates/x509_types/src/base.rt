//! Times, validity, serial numbers and keys: a part of the table.

use crate::{Reencode, Table};
use std::alloc::Global;
use std::marker::PhantomData;
use x509_base::{
    AlgorithmIdentifier, GeneralizedTime, Profile, SerialNumber, SubjectPublicKeyInfo, Time,
    UtcTime, Validity,
};
use x509_der::Error;

/// Times, validity, serial numbers and keys. Other names are looked up in the next part of the table.
pub struct Base<P, T> {
    rest: PhantomData<(P, T)>,
}

#[tactic(auto, using(crate::specs::RowLaws::is_found, crate::specs::RowLaws::is_passed))]
impl<P: Profile, T: Table> Table for Base<P, T> {
    ghost use Rattle.std.specs.Prelude.{codes};
    ghost use Rattle.x509_types.specs.Table.{named, ◌otherwise◌};

    ghost table = { named (codes "AlgorithmIdentifier") ⟦<AlgorithmIdentifier as Reencode>⟧.reencodes otherwise
        named (codes "GeneralizedTime") ⟦<GeneralizedTime as Reencode>⟧.reencodes otherwise
        named (codes "SerialNumber") ⟦<SerialNumber<P> as Reencode>⟧.reencodes otherwise
        named (codes "SubjectPublicKeyInfo") ⟦<SubjectPublicKeyInfo as Reencode>⟧.reencodes otherwise
        named (codes "Time") ⟦<Time as Reencode>⟧.reencodes otherwise
        named (codes "UtcTime") ⟦<UtcTime as Reencode>⟧.reencodes otherwise
        named (codes "Validity") ⟦<Validity<P> as Reencode>⟧.reencodes otherwise
        T.table };

    fn reencode(alloc: Global, name: &str, bytes: &[u8]) -> Result<Vec<u8>, Error> {
        match name {
            "AlgorithmIdentifier" => AlgorithmIdentifier::reencode_as(alloc, bytes),
            "GeneralizedTime" => GeneralizedTime::reencode_as(alloc, bytes),
            "SerialNumber" => SerialNumber::<P>::reencode_as(alloc, bytes),
            "SubjectPublicKeyInfo" => SubjectPublicKeyInfo::reencode_as(alloc, bytes),
            "Time" => Time::reencode_as(alloc, bytes),
            "UtcTime" => UtcTime::reencode_as(alloc, bytes),
            "Validity" => Validity::<P>::reencode_as(alloc, bytes),
            _ => T::reencode(alloc, name, bytes),
        }
    }
}
