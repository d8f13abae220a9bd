//! The extensions of CRLs: a part of the table.

use std::alloc::Global;
use std::marker::PhantomData;
use x509_der::Error;
use x509_ext::pkix::crl::dp::Reasons;
use x509_ext::pkix::{BaseCrlNumber, CertificateIssuer, CrlNumber, CrlReason};
use x509_types::{Reencode, Table};

/// The extensions of CRLs. Other names are looked up in the next part of the table.
pub struct Revocation<T> {
    rest: PhantomData<T>,
}

#[tactic(auto, using(x509_types::specs::RowLaws::is_found, x509_types::specs::RowLaws::is_passed))]
impl<T: Table> Table for Revocation<T> {
    ghost use Rattle.std.specs.Prelude.{codes};
    ghost use Rattle.x509_types.specs.Table.{named, ◌otherwise◌};

    ghost table = { named (codes "BaseCrlNumber") ⟦<BaseCrlNumber as Reencode>⟧.reencodes otherwise
        named (codes "CertificateIssuer") ⟦<CertificateIssuer as Reencode>⟧.reencodes otherwise
        named (codes "CrlNumber") ⟦<CrlNumber as Reencode>⟧.reencodes otherwise
        named (codes "CrlReason") ⟦<CrlReason as Reencode>⟧.reencodes otherwise
        named (codes "Reasons") ⟦<Reasons as Reencode>⟧.reencodes otherwise
        T.table };

    fn reencode(alloc: Global, name: &str, bytes: &[u8]) -> Result<Vec<u8>, Error> {
        match name {
            "BaseCrlNumber" => BaseCrlNumber::reencode_as(alloc, bytes),
            "CertificateIssuer" => CertificateIssuer::reencode_as(alloc, bytes),
            "CrlNumber" => CrlNumber::reencode_as(alloc, bytes),
            "CrlReason" => CrlReason::reencode_as(alloc, bytes),
            "Reasons" => Reasons::reencode_as(alloc, bytes),
            _ => T::reencode(alloc, name, bytes),
        }
    }
}
