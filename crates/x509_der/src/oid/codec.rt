//! OBJECT IDENTIFIER, decoded and encoded (X.690 8.19).

ghost use Rattle.std.specs.Prelude.{◌≡◌, Ok};

use crate::oid::identifier::ObjectIdentifier;
use crate::{
    Any, Content, EncodingOrd, Error, FromAny, Room, SetMember, SetOrd, Spelled, Tag, TryClone,
    ValueOrd,
};
use std::alloc::Global;
use std::cmp::Ordering;

#[tactic(auto, unfolding(crate::specs::ObjectIdentifierForm::object_identifier_reading))]
impl Content for ObjectIdentifier {
    ghost use Rattle.x509_der.specs.declared.tag.Tag.TheVariants as tags;
    ghost use Rattle.x509_der.specs.ObjectIdentifierForm as grammar;

    ghost contents = { grammar.object_identifier_contents };

    ghost takes_memory = { ⊥ };

    ghost IDENTIFIER = { tags.ObjectIdentifier };

    const IDENTIFIER: Tag = Tag::ObjectIdentifier;

    #[inline(always)]
    fn read_content(_alloc: Global, octets: &[u8]) -> Result<ObjectIdentifier, Error> {
        ObjectIdentifier::from_bytes(octets)
    }

    fn write_content<R: Room>(&self, room: &mut R) -> Result<(), Error> {
        room.put(self.as_bytes())
    }

    ghost contents_lawful = { grammar.object_identifier_contents_lawful };
}

#[tactic(auto, using(crate::specs::ObjectIdentifierForm::pass_arcs))]
impl Spelled for ObjectIdentifier {
    fn has_spelling(&self) {
        let _content = self.as_bytes();
    }
}

/// The OID whose element it is; `Malformed` exactly where it is the element of none. It takes no memory.
impl FromAny<'_> for ObjectIdentifier {
    ghost use Rattle.x509_der.specs.ObjectIdentifierForm as grammar;
    ghost use Rattle.x509_der.specs.ReadsElement.{ReadsElement};

    ghost from_any_gives = { ReadsElement grammar.object_identifier ⊥ };

    fn from_any(alloc: Global, any: &Any) -> Result<ObjectIdentifier, Error> {
        any.decode_as(alloc)
    }
}

impl ValueOrd for ObjectIdentifier {
    ghost use Rattle.x509_der.specs.Writing.{plain, writes};
    ghost use Rattle.x509_der.specs.ObjectIdentifierForm as grammar;
    ghost use Rattle.x509_der.specs.Ordered.{by_bytes};

    ghost order = { by_bytes grammar.object_identifier };

    fn value_cmp(&self, other: &ObjectIdentifier) -> Ordering {
        self.as_bytes().cmp(other.as_bytes())
    }

    ghost ordered = { grammar.object_identifier_ordered (writes plain) };
}

impl SetOrd for ObjectIdentifier {
    ghost set_order = { ⟦<ObjectIdentifier as EncodingOrd>⟧.encoding_order };
}

impl SetMember for ObjectIdentifier {
    ghost use Rattle.std.specs.Prelude.{refl};

    ghost in_der_order = { refl };
}

impl TryClone for ObjectIdentifier {
    fn try_clone(&self, _alloc: Global) -> Result<ObjectIdentifier, Error>
        ensures { result ≡ Ok self.now }
    {
        Ok(*self)
    }
}
