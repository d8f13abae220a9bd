//! BOOLEAN (X.690 8.2, 11.1).

use crate::content::Content;
use crate::room::Room;
use crate::{Error, ErrorKind, Tag};
use std::alloc::Global;

#[tactic(auto, unfolding(crate::specs::Boolean::boolean_reading, crate::specs::Boolean::boolean_octets))]
impl Content for bool {
    ghost use Rattle.x509_der.specs.declared.tag.Tag.TheVariants.{Boolean};
    ghost use Rattle.x509_der.specs.Boolean.{boolean_contents, boolean_contents_lawful};

    ghost contents = { boolean_contents };

    ghost takes_memory = { ⊥ };

    ghost IDENTIFIER = { Boolean };

    const IDENTIFIER: Tag = Tag::Boolean;

    fn read_content(_alloc: Global, octets: &[u8]) -> Result<bool, Error> {
        match octets {
            [0x00] => Ok(false),
            [0xFF] => Ok(true),
            _ => Err(ErrorKind::Malformed.into()),
        }
    }

    fn write_content<R: Room>(&self, room: &mut R) -> Result<(), Error> {
        room.put(&[if *self { 0xFF } else { 0x00 }])
    }

    ghost contents_lawful = { boolean_contents_lawful };
}
