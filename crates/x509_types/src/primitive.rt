//! The primitive types: a part of the table.

use crate::{Reencode, Table};
use std::alloc::Global;
use std::marker::PhantomData;
use x509_der::{Any, Error, ObjectIdentifier};
use x509_prim::{
    BitString, BmpString, Ia5String, Int, OctetString, PrintableString, TeletexString, Uint,
    Utf8String, VisibleString,
};

/// The primitive types. Other names are looked up in the next part of the table.
pub struct Primitives<T> {
    rest: PhantomData<T>,
}

#[tactic(auto, using(crate::specs::RowLaws::is_found, crate::specs::RowLaws::is_passed))]
impl<T: Table> Table for Primitives<T> {
    ghost use Rattle.std.specs.Prelude.{codes};
    ghost use Rattle.x509_types.specs.Table.{named, ◌otherwise◌};

    ghost table = { named (codes "Any") ⟦<Any as Reencode>⟧.reencodes otherwise
        named (codes "BitString") ⟦<BitString as Reencode>⟧.reencodes otherwise
        named (codes "BmpString") ⟦<BmpString as Reencode>⟧.reencodes otherwise
        named (codes "Ia5String") ⟦<Ia5String as Reencode>⟧.reencodes otherwise
        named (codes "Int") ⟦<Int as Reencode>⟧.reencodes otherwise
        named (codes "ObjectIdentifier") ⟦<ObjectIdentifier as Reencode>⟧.reencodes otherwise
        named (codes "OctetString") ⟦<OctetString as Reencode>⟧.reencodes otherwise
        named (codes "PrintableString") ⟦<PrintableString as Reencode>⟧.reencodes otherwise
        named (codes "TeletexString") ⟦<TeletexString as Reencode>⟧.reencodes otherwise
        named (codes "Uint") ⟦<Uint as Reencode>⟧.reencodes otherwise
        named (codes "Utf8String") ⟦<Utf8String as Reencode>⟧.reencodes otherwise
        named (codes "VisibleString") ⟦<VisibleString as Reencode>⟧.reencodes otherwise
        T.table };

    fn reencode(alloc: Global, name: &str, bytes: &[u8]) -> Result<Vec<u8>, Error> {
        match name {
            "Any" => Any::reencode_as(alloc, bytes),
            "BitString" => BitString::reencode_as(alloc, bytes),
            "BmpString" => BmpString::reencode_as(alloc, bytes),
            "Ia5String" => Ia5String::reencode_as(alloc, bytes),
            "Int" => Int::reencode_as(alloc, bytes),
            "ObjectIdentifier" => ObjectIdentifier::reencode_as(alloc, bytes),
            "OctetString" => OctetString::reencode_as(alloc, bytes),
            "PrintableString" => PrintableString::reencode_as(alloc, bytes),
            "TeletexString" => TeletexString::reencode_as(alloc, bytes),
            "Uint" => Uint::reencode_as(alloc, bytes),
            "Utf8String" => Utf8String::reencode_as(alloc, bytes),
            "VisibleString" => VisibleString::reencode_as(alloc, bytes),
            _ => T::reencode(alloc, name, bytes),
        }
    }
}
