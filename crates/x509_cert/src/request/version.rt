//! The version of a CSR.

use std::alloc::Global;
use std::cmp::Ordering;
use x509_der::{
    Content, EncodingOrd, Error, Room, SetMember, SetOrd, Spelled, Tag, TryClone, ValueOrd,
};
use x509_prim::{NamedNumber, cmp_named_numbers, put_named_number, read_named_number};

/// The version of a CSR, of which there is one (RFC 2986 4.1).
///
/// ```text
/// Version ::= INTEGER { v1(0) }
/// ```
#[derive(Clone, Copy, Debug, Default, PartialEq, Eq)]
pub enum Version {
    /// Version 1.
    #[default]
    V1 = 0,
}

impl NamedNumber for Version {
    ghost use Rattle.x509_cert.specs.RequestVersion.{version_names};

    ghost names = { version_names };

    fn number(&self) -> u8 {
        *self as u8
    }

    fn from_number(number: u8) -> Option<Version> {
        match number {
            0 => Some(Version::V1),
            _ => None,
        }
    }
}

impl Content for Version {
    ghost use Rattle.x509_cert.specs.RequestVersion.{version_names};
    ghost use Rattle.x509_der.specs.declared.tag.Tag.TheVariants.{Integer};
    ghost use Rattle.x509_prim.specs.Names.{named_contents};
    ghost use Rattle.x509_prim.specs.NamesLaws.{named_contents_lawful};

    ghost contents = { named_contents version_names };

    ghost takes_memory = { ⊥ };

    ghost IDENTIFIER = { Integer };

    const IDENTIFIER: Tag = Tag::Integer;

    fn read_content(_alloc: Global, octets: &[u8]) -> Result<Version, Error> {
        read_named_number(octets)
    }

    fn write_content<R: Room>(&self, room: &mut R) -> Result<(), Error> {
        put_named_number(self, room)
    }

    ghost contents_lawful = { named_contents_lawful version_names };
}

impl ValueOrd for Version {
    ghost use Rattle.x509_cert.specs.RequestVersion.{version_names};
    ghost use Rattle.x509_der.specs.Writing.{plain, writes};
    ghost use Rattle.x509_der.specs.declared.tag.Tag.TheVariants.{Integer};
    ghost use Rattle.x509_prim.specs.NamesLaws.{named_order, named_ordered};

    ghost order = { named_order Integer version_names };

    fn value_cmp(&self, other: &Version) -> Ordering {
        cmp_named_numbers(self, other)
    }

    ghost ordered = { named_ordered Integer version_names (writes plain) };
}

impl SetOrd for Version {
    ghost set_order = { ⟦<Version as EncodingOrd>⟧.encoding_order };
}

impl SetMember for Version {
    ghost use Rattle.std.specs.Prelude.{refl};

    ghost in_der_order = { refl };
}

impl Spelled for Version {
    fn has_spelling(&self) {}
}

impl TryClone for Version {
    ghost use Rattle.std.specs.Prelude.{◌≡◌, Ok};

    fn try_clone(&self, _alloc: Global) -> Result<Version, Error>
        ensures { result ≡ Ok self.now }
    {
        Ok(*self)
    }
}
