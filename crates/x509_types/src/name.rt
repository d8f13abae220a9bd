//! Attributes and names: a part of the table.

ghost use Rattle.x509_types.specs.NameAnswers.{rdn_answers, rdn_sequence_answers};
ghost use Rattle.x509_types.specs.Table.{IsAmong};

use crate::{Reencode, Table};
use std::alloc::Global;
use std::marker::PhantomData;
use x509_der::Error;
use x509_name::attr::{Attribute, AttributeTypeAndValue};
use x509_name::name::{DirectoryString, Name, RdnSequence, RelativeDistinguishedName};

/// Attributes and names. Other names are looked up in the next part of the table.
pub struct Names<T> {
    rest: PhantomData<T>,
}

#[tactic(auto, using(crate::specs::RowLaws::is_found, crate::specs::RowLaws::is_passed))]
impl<T: Table> Table for Names<T> {
    ghost use Rattle.std.specs.Prelude.{codes};
    ghost use Rattle.x509_types.specs.NameAnswers.{rdn_answers, rdn_sequence_answers};
    ghost use Rattle.x509_types.specs.Table.{named, ◌otherwise◌};

    ghost table = { named (codes "Attribute") ⟦<Attribute as Reencode>⟧.reencodes otherwise
        named (codes "AttributeTypeAndValue") ⟦<AttributeTypeAndValue as Reencode>⟧.reencodes otherwise
        named (codes "DirectoryString") ⟦<DirectoryString as Reencode>⟧.reencodes otherwise
        named (codes "Name") ⟦<Name as Reencode>⟧.reencodes otherwise
        named (codes "RdnSequence") rdn_sequence_answers otherwise
        named (codes "RelativeDistinguishedName") rdn_answers otherwise
        T.table };

    fn reencode(alloc: Global, name: &str, bytes: &[u8]) -> Result<Vec<u8>, Error> {
        match name {
            "Attribute" => Attribute::reencode_as(alloc, bytes),
            "AttributeTypeAndValue" => AttributeTypeAndValue::reencode_as(alloc, bytes),
            "DirectoryString" => DirectoryString::reencode_as(alloc, bytes),
            "Name" => Name::reencode_as(alloc, bytes),
            "RdnSequence" => reencode_rdn_sequence(alloc, bytes),
            "RelativeDistinguishedName" => reencode_rdn(alloc, bytes),
            _ => T::reencode(alloc, name, bytes),
        }
    }
}

// A type round a newtype can't be named in a clause, so the two answers are stated by their forms.
#[tactic(auto, unfolding(crate::specs::NameAnswers::rdn_sequence_answers))]
fn reencode_rdn_sequence(alloc: Global, bytes: &[u8]) -> Result<Vec<u8>, Error>
    ensures { IsAmong (λ encoding. encoding.items) (rdn_sequence_answers bytes.now) result }
{
    RdnSequence::reencode_as(alloc, bytes)
}

#[tactic(auto, unfolding(crate::specs::NameAnswers::rdn_answers))]
fn reencode_rdn(alloc: Global, bytes: &[u8]) -> Result<Vec<u8>, Error>
    ensures { IsAmong (λ encoding. encoding.items) (rdn_answers bytes.now) result }
{
    RelativeDistinguishedName::reencode_as(alloc, bytes)
}
