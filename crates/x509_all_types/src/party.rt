//! The extensions about the subject and the issuer: a part of the table.

use std::alloc::Global;
use std::marker::PhantomData;
use x509_der::Error;
use x509_ext::pkix::{
    AccessDescription, AuthorityInfoAccessSyntax, AuthorityKeyIdentifier, IssuerAltName,
    SubjectAltName, SubjectDirectoryAttributes, SubjectInfoAccessSyntax,
};
use x509_types::{Reencode, Table};

/// The extensions about the subject and the issuer. Other names are looked up in the next part of the table.
pub struct Parties<T> {
    rest: PhantomData<T>,
}

#[tactic(auto, using(x509_types::specs::RowLaws::is_found, x509_types::specs::RowLaws::is_passed))]
impl<T: Table> Table for Parties<T> {
    ghost use Rattle.std.specs.Prelude.{codes};
    ghost use Rattle.x509_types.specs.Table.{named, ◌otherwise◌};

    ghost table = { named (codes "AccessDescription") ⟦<AccessDescription as Reencode>⟧.reencodes otherwise
        named (codes "AuthorityInfoAccessSyntax") ⟦<AuthorityInfoAccessSyntax as Reencode>⟧.reencodes otherwise
        named (codes "AuthorityKeyIdentifier") ⟦<AuthorityKeyIdentifier as Reencode>⟧.reencodes otherwise
        named (codes "IssuerAltName") ⟦<IssuerAltName as Reencode>⟧.reencodes otherwise
        named (codes "SubjectAltName") ⟦<SubjectAltName as Reencode>⟧.reencodes otherwise
        named (codes "SubjectDirectoryAttributes") ⟦<SubjectDirectoryAttributes as Reencode>⟧.reencodes otherwise
        named (codes "SubjectInfoAccessSyntax") ⟦<SubjectInfoAccessSyntax as Reencode>⟧.reencodes otherwise
        T.table };

    fn reencode(alloc: Global, name: &str, bytes: &[u8]) -> Result<Vec<u8>, Error> {
        match name {
            "AccessDescription" => AccessDescription::reencode_as(alloc, bytes),
            "AuthorityInfoAccessSyntax" => AuthorityInfoAccessSyntax::reencode_as(alloc, bytes),
            "AuthorityKeyIdentifier" => AuthorityKeyIdentifier::reencode_as(alloc, bytes),
            "IssuerAltName" => IssuerAltName::reencode_as(alloc, bytes),
            "SubjectAltName" => SubjectAltName::reencode_as(alloc, bytes),
            "SubjectDirectoryAttributes" => SubjectDirectoryAttributes::reencode_as(alloc, bytes),
            "SubjectInfoAccessSyntax" => SubjectInfoAccessSyntax::reencode_as(alloc, bytes),
            _ => T::reencode(alloc, name, bytes),
        }
    }
}
