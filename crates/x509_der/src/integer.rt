//! INTEGER fields of the number types (X.690 8.3): each takes the numbers of its own range.

ghost use Rattle.std.specs.Prelude.{◌^◌};
ghost use Rattle.x509_der.specs.declared.tag.Tag.TheVariants.{Integer};
ghost use Rattle.x509_der.specs.Natural.{natural_contents};

use crate::content::Content;
use crate::natural::{put_natural, read_natural};
use crate::room::Room;
use crate::{Error, ErrorKind, Tag};
use std::alloc::Global;

#[tactic(auto, unfolding(crate::specs::Natural::natural_reading))]
impl Content for u8 {
    ghost use Rattle.x509_der.specs.NaturalLaws.{u8_contents_lawful};

    ghost contents = { natural_contents (2 ^ 8) };

    ghost takes_memory = { ⊥ };

    ghost IDENTIFIER = { Integer };

    const IDENTIFIER: Tag = Tag::Integer;

    fn read_content(_alloc: Global, octets: &[u8]) -> Result<u8, Error> {
        match u8::try_from(read_natural(octets)?) {
            Ok(number) => Ok(number),
            Err(_) => Err(ErrorKind::Malformed.into()),
        }
    }

    fn write_content<R: Room>(&self, room: &mut R) -> Result<(), Error> {
        put_natural(u128::from(*self), room)
    }

    ghost contents_lawful = { u8_contents_lawful };
}

#[tactic(auto, unfolding(crate::specs::Natural::natural_reading))]
impl Content for u16 {
    ghost use Rattle.x509_der.specs.NaturalLaws.{u16_contents_lawful};

    ghost contents = { natural_contents (2 ^ 16) };

    ghost takes_memory = { ⊥ };

    ghost IDENTIFIER = { Integer };

    const IDENTIFIER: Tag = Tag::Integer;

    fn read_content(_alloc: Global, octets: &[u8]) -> Result<u16, Error> {
        match u16::try_from(read_natural(octets)?) {
            Ok(number) => Ok(number),
            Err(_) => Err(ErrorKind::Malformed.into()),
        }
    }

    fn write_content<R: Room>(&self, room: &mut R) -> Result<(), Error> {
        put_natural(u128::from(*self), room)
    }

    ghost contents_lawful = { u16_contents_lawful };
}

#[tactic(auto, unfolding(crate::specs::Natural::natural_reading))]
impl Content for u32 {
    ghost use Rattle.x509_der.specs.NaturalLaws.{u32_contents_lawful};

    ghost contents = { natural_contents (2 ^ 32) };

    ghost takes_memory = { ⊥ };

    ghost IDENTIFIER = { Integer };

    const IDENTIFIER: Tag = Tag::Integer;

    fn read_content(_alloc: Global, octets: &[u8]) -> Result<u32, Error> {
        match u32::try_from(read_natural(octets)?) {
            Ok(number) => Ok(number),
            Err(_) => Err(ErrorKind::Malformed.into()),
        }
    }

    fn write_content<R: Room>(&self, room: &mut R) -> Result<(), Error> {
        put_natural(u128::from(*self), room)
    }

    ghost contents_lawful = { u32_contents_lawful };
}

#[tactic(auto, unfolding(crate::specs::Natural::natural_reading))]
impl Content for u64 {
    ghost use Rattle.x509_der.specs.NaturalLaws.{u64_contents_lawful};

    ghost contents = { natural_contents (2 ^ 64) };

    ghost takes_memory = { ⊥ };

    ghost IDENTIFIER = { Integer };

    const IDENTIFIER: Tag = Tag::Integer;

    fn read_content(_alloc: Global, octets: &[u8]) -> Result<u64, Error> {
        match u64::try_from(read_natural(octets)?) {
            Ok(number) => Ok(number),
            Err(_) => Err(ErrorKind::Malformed.into()),
        }
    }

    fn write_content<R: Room>(&self, room: &mut R) -> Result<(), Error> {
        put_natural(u128::from(*self), room)
    }

    ghost contents_lawful = { u64_contents_lawful };
}

#[tactic(auto, unfolding(crate::specs::Natural::natural_reading))]
impl Content for u128 {
    ghost use Rattle.x509_der.specs.NaturalLaws.{u128_contents_lawful};

    ghost contents = { natural_contents (2 ^ 128) };

    ghost takes_memory = { ⊥ };

    ghost IDENTIFIER = { Integer };

    const IDENTIFIER: Tag = Tag::Integer;

    fn read_content(_alloc: Global, octets: &[u8]) -> Result<u128, Error> {
        read_natural(octets)
    }

    fn write_content<R: Room>(&self, room: &mut R) -> Result<(), Error> {
        put_natural(*self, room)
    }

    ghost contents_lawful = { u128_contents_lawful };
}
