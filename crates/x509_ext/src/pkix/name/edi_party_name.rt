//! EDI party names.

use std::alloc::Global;
use x509_der::{
    Content, Error, PutPart, Room, Spelled, Tag, TryClone, end, explicit, option_has_spelling,
    optional_explicit, read_explicit, read_optional_explicit,
};
use x509_name::name::DirectoryString;

/// A name of a party in electronic data interchange (RFC 5280 4.2.1.6). Its tags are explicit, since what they tag is a
/// CHOICE (X.680 31.2.7).
///
/// ```text
/// EDIPartyName ::= SEQUENCE {
///     nameAssigner  [0] DirectoryString OPTIONAL,
///     partyName     [1] DirectoryString }
/// ```
#[derive(Debug, PartialEq, Eq)]
pub struct EdiPartyName {
    /// The authority that assigned the name.
    pub name_assigner: Option<DirectoryString>,

    /// The name.
    pub party_name: DirectoryString,
}

impl Drop for EdiPartyName {
    fn drop(self) {
        let EdiPartyName {
            name_assigner: _,
            party_name: _,
        } = self;
    }
}

impl TryClone for EdiPartyName {
    fn try_clone(&self, alloc: Global) -> Result<EdiPartyName, Error> {
        Ok(EdiPartyName {
            name_assigner: self.name_assigner.try_clone(alloc)?,
            party_name: self.party_name.try_clone(alloc)?,
        })
    }
}

#[tactic(auto, unfolding(crate::specs::EdiPartyName::edi_party_name_fields, x509_der::specs::Frames::fields_reading, x509_der::specs::Frames::fields_octets))]
impl Content for EdiPartyName {
    ghost use Rattle.x509_der.specs.declared.tag.Tag.TheVariants.{Sequence};
    ghost use Rattle.x509_ext.specs.EdiPartyName as grammar;

    ghost contents = { grammar.edi_party_name_contents };

    ghost IDENTIFIER = { Sequence };

    const IDENTIFIER: Tag = Tag::Sequence;

    fn read_content(alloc: Global, octets: &[u8]) -> Result<EdiPartyName, Error> {
        let mut rest = octets;
        let name_assigner = read_optional_explicit::<DirectoryString>(alloc, 0, &mut rest)?;
        let party_name = read_explicit::<DirectoryString>(alloc, 1, &mut rest)?;
        end(rest)?;
        Ok(EdiPartyName {
            name_assigner,
            party_name,
        })
    }

    fn write_content<R: Room>(&self, room: &mut R) -> Result<(), Error> {
        let parts = (
            optional_explicit(0, &self.name_assigner),
            explicit(1, &self.party_name),
        );
        parts.put_part(room)
    }

    ghost contents_lawful = { grammar.edi_party_name_contents_lawful };
}

#[tactic(auto, unfolding(crate::specs::EdiPartyName::edi_party_name_fields, x509_der::specs::Frames::fields_good))]
impl Spelled for EdiPartyName {
    fn has_spelling(&self) {
        option_has_spelling(&self.name_assigner);
        self.party_name.has_spelling();
    }
}
