//! Tables of types.

use std::alloc::Global;
use x509_der::{Error, ErrorKind};

/// A part of a table, and the parts after it: types by their names, under one profile.
pub trait Table {
    ghost use Rattle.x509_types.specs.Table.{Table, IsAmong};

    /// What the bytes of the type with a name may give.
    ghost table: { Table };

    /// Decodes the bytes as the type with that name, and encodes the value again.
    ///
    /// # Errors
    ///
    /// `Failed` where the type is unknown: no part of the table has the name. Else those of decoding and of encoding;
    /// `Memory` when out of memory.
    fn reencode(alloc: Global, name: &str, bytes: &[u8]) -> Result<Vec<u8>, Error>
        ensures { IsAmong (λ encoding. encoding.items) (table name.now bytes.now) result };
}

/// The end of a table.
pub struct Nothing;

#[tactic(auto, unfolding(crate::specs::Table::IsAmong))]
impl Table for Nothing {
    ghost use Rattle.x509_types.specs.Table.{nothing};

    ghost table = { nothing };

    fn reencode(_alloc: Global, _name: &str, _bytes: &[u8]) -> Result<Vec<u8>, Error> {
        Err(ErrorKind::Failed.into())
    }
}
