//! Extensions and those about keys: a part of the table.

use std::alloc::Global;
use std::marker::PhantomData;
use x509_der::Error;
use x509_ext::pkix::{
    BasicConstraints, ExtendedKeyUsage, KeyUsage, PrivateKeyUsagePeriod, SubjectKeyIdentifier,
};
use x509_ext::{Extension, Extensions};
use x509_types::{Reencode, Table};

/// Extensions and those about keys. Other names are looked up in the next part of the table.
pub struct Payloads<T> {
    rest: PhantomData<T>,
}

#[tactic(auto, using(x509_types::specs::RowLaws::is_found, x509_types::specs::RowLaws::is_passed))]
impl<T: Table> Table for Payloads<T> {
    ghost use Rattle.std.specs.Prelude.{codes};
    ghost use Rattle.x509_types.specs.Table.{named, ◌otherwise◌};

    ghost table = { named (codes "BasicConstraints") ⟦<BasicConstraints as Reencode>⟧.reencodes otherwise
        named (codes "ExtendedKeyUsage") ⟦<ExtendedKeyUsage as Reencode>⟧.reencodes otherwise
        named (codes "Extension") ⟦<Extension as Reencode>⟧.reencodes otherwise
        named (codes "Extensions") ⟦<Extensions as Reencode>⟧.reencodes otherwise
        named (codes "KeyUsage") ⟦<KeyUsage as Reencode>⟧.reencodes otherwise
        named (codes "PrivateKeyUsagePeriod") ⟦<PrivateKeyUsagePeriod as Reencode>⟧.reencodes otherwise
        named (codes "SubjectKeyIdentifier") ⟦<SubjectKeyIdentifier as Reencode>⟧.reencodes otherwise
        T.table };

    fn reencode(alloc: Global, name: &str, bytes: &[u8]) -> Result<Vec<u8>, Error> {
        match name {
            "BasicConstraints" => BasicConstraints::reencode_as(alloc, bytes),
            "ExtendedKeyUsage" => ExtendedKeyUsage::reencode_as(alloc, bytes),
            "Extension" => Extension::reencode_as(alloc, bytes),
            "Extensions" => Extensions::reencode_as(alloc, bytes),
            "KeyUsage" => KeyUsage::reencode_as(alloc, bytes),
            "PrivateKeyUsagePeriod" => PrivateKeyUsagePeriod::reencode_as(alloc, bytes),
            "SubjectKeyIdentifier" => SubjectKeyIdentifier::reencode_as(alloc, bytes),
            _ => T::reencode(alloc, name, bytes),
        }
    }
}
