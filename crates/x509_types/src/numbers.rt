//! The last part of the table: BOOLEAN and the INTEGERs of the language's number types.

use crate::reencode::Reencode;
use crate::table::{Nothing, Table};
use std::alloc::Global;
use x509_der::Error;

/// The last part of the table: BOOLEAN and the INTEGERs of the language's number types. Any other name is no type.
pub struct Numbers;

#[tactic(auto, using(crate::specs::RowLaws::is_found, crate::specs::RowLaws::is_passed))]
impl Table for Numbers {
    ghost use Rattle.std.specs.Prelude.{codes};
    ghost use Rattle.x509_types.specs.Table.{named, ◌otherwise◌};

    ghost table = { named (codes "bool") ⟦<bool as Reencode>⟧.reencodes otherwise
        named (codes "u128") ⟦<u128 as Reencode>⟧.reencodes otherwise
        named (codes "u16") ⟦<u16 as Reencode>⟧.reencodes otherwise
        named (codes "u32") ⟦<u32 as Reencode>⟧.reencodes otherwise
        named (codes "u64") ⟦<u64 as Reencode>⟧.reencodes otherwise
        named (codes "u8") ⟦<u8 as Reencode>⟧.reencodes otherwise
        ⟦<Nothing as Table>⟧.table };

    fn reencode(alloc: Global, name: &str, bytes: &[u8]) -> Result<Vec<u8>, Error> {
        match name {
            "bool" => bool::reencode_as(alloc, bytes),
            "u128" => u128::reencode_as(alloc, bytes),
            "u16" => u16::reencode_as(alloc, bytes),
            "u32" => u32::reencode_as(alloc, bytes),
            "u64" => u64::reencode_as(alloc, bytes),
            "u8" => u8::reencode_as(alloc, bytes),
            _ => Nothing::reencode(alloc, name, bytes),
        }
    }
}
