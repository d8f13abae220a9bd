//! Lists of signed certificate timestamps (SCTs): a part of the table.

use std::alloc::Global;
use std::marker::PhantomData;
use x509_der::Error;
use x509_sct::SignedCertificateTimestampList;
use x509_types::{Reencode, Table};

/// Lists of signed certificate timestamps (SCTs). Other names are looked up in the next part of the table.
pub struct Timestamps<T> {
    rest: PhantomData<T>,
}

#[tactic(auto, using(x509_types::specs::RowLaws::is_found, x509_types::specs::RowLaws::is_passed))]
impl<T: Table> Table for Timestamps<T> {
    ghost use Rattle.std.specs.Prelude.{codes};
    ghost use Rattle.x509_types.specs.Table.{named, ◌otherwise◌};

    ghost table = { named (codes "SignedCertificateTimestampList") ⟦<SignedCertificateTimestampList as Reencode>⟧.reencodes otherwise
        T.table };

    fn reencode(alloc: Global, name: &str, bytes: &[u8]) -> Result<Vec<u8>, Error> {
        match name {
            "SignedCertificateTimestampList" => {
                SignedCertificateTimestampList::reencode_as(alloc, bytes)
            }
            _ => T::reencode(alloc, name, bytes),
        }
    }
}
