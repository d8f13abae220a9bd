//! The version of the description of a trust anchor.

use std::alloc::Global;
use std::cmp::Ordering;
use x509_der::{
    Content, DefaultValue, EncodingOrd, Error, Room, SetMember, SetOrd, Spelled, Tag, TryClone,
    ValueOrd,
};
use x509_prim::{NamedNumber, cmp_named_numbers, put_named_number, read_named_number};

/// The version of a [`TrustAnchorInfo`](crate::anchor::TrustAnchorInfo) (RFC 5914 2.1). There is one, and since it is the
/// default it is never encoded there. Alone it is the INTEGER 0; RFC 5914 numbers it 1.
///
/// ```text
/// TrustAnchorInfoVersion ::= INTEGER { v1(0) }
/// ```
#[derive(Clone, Copy, Debug, PartialEq, Eq)]
pub enum Version {
    /// Version 1.
    V1 = 0,
}

/// V1.
impl Default for Version {
    ghost use Rattle.std.specs.Prelude.{◌≡◌};
    ghost use Rattle.x509_cert.specs.declared.anchor.version.Version.TheVariants.{V1};

    ghost is_default = { λ version. version ≡ V1 };

    fn default() -> Version {
        Version::V1
    }
}

impl NamedNumber for Version {
    ghost use Rattle.x509_cert.specs.AnchorVersion.{version_names};

    ghost names = { version_names };

    fn number(&self) -> u8 {
        *self as u8
    }

    fn from_number(number: u8) -> Option<Version> {
        match number {
            0 => Some(Version::V1),
            _ => None,
        }
    }
}

impl Content for Version {
    ghost use Rattle.x509_cert.specs.AnchorVersion.{version_names};
    ghost use Rattle.x509_der.specs.declared.tag.Tag.TheVariants.{Integer};
    ghost use Rattle.x509_prim.specs.Names.{named_contents};
    ghost use Rattle.x509_prim.specs.NamesLaws.{named_contents_lawful};

    ghost contents = { named_contents version_names };

    ghost takes_memory = { ⊥ };

    ghost IDENTIFIER = { Integer };

    const IDENTIFIER: Tag = Tag::Integer;

    fn read_content(_alloc: Global, octets: &[u8]) -> Result<Version, Error> {
        read_named_number(octets)
    }

    fn write_content<R: Room>(&self, room: &mut R) -> Result<(), Error> {
        put_named_number(self, room)
    }

    ghost contents_lawful = { named_contents_lawful version_names };
}

impl ValueOrd for Version {
    ghost use Rattle.x509_cert.specs.AnchorVersion.{version_names};
    ghost use Rattle.x509_der.specs.Writing.{plain, writes};
    ghost use Rattle.x509_der.specs.declared.tag.Tag.TheVariants.{Integer};
    ghost use Rattle.x509_prim.specs.NamesLaws.{named_order, named_ordered};

    ghost order = { named_order Integer version_names };

    fn value_cmp(&self, other: &Version) -> Ordering {
        cmp_named_numbers(self, other)
    }

    ghost ordered = { named_ordered Integer version_names (writes plain) };
}

impl SetOrd for Version {
    ghost set_order = { ⟦<Version as EncodingOrd>⟧.encoding_order };
}

impl SetMember for Version {
    ghost use Rattle.std.specs.Prelude.{refl};

    ghost in_der_order = { refl };
}

impl Spelled for Version {
    fn has_spelling(&self) {}
}

/// V1.
impl DefaultValue for Version {
    ghost use Rattle.x509_cert.specs.AnchorVersion.{version_default, version_default_lawful};

    ghost default = { version_default };

    fn default_value() -> Version {
        Version::V1
    }

    fn is_default(&self) -> bool {
        match self {
            Version::V1 => true,
        }
    }

    ghost default_lawful = { version_default_lawful };
}

impl TryClone for Version {
    ghost use Rattle.std.specs.Prelude.{◌≡◌, Ok};

    fn try_clone(&self, _alloc: Global) -> Result<Version, Error>
        ensures { result ≡ Ok self.now }
    {
        Ok(*self)
    }
}
