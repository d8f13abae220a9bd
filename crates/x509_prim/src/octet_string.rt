//! OCTET STRING.

ghost use Rattle.std.specs.Prelude.{◌≡◌, ◌≤◌, ◌<◌, ◌⊎◌, length, bytes_eq, IfOk, IfErr};
ghost use Rattle.std.proofs.Common.{rules};
ghost use Rattle.std.specs.Hash as fed;
ghost use Rattle.std.specs.Cmp.{partial_equiv_from_equiv};
ghost use Rattle.std.specs.Cmp.Lexicographic.{nat_list_eq_equiv};
ghost use Rattle.std.specs.Cmp.Rules.{hashing};
ghost use Rattle.x509_der.specs.declared.error.ErrorKind.TheVariants as errors;
ghost use Rattle.x509_der.specs.Element.{limit};
ghost use Rattle.x509_der.specs.Form.{spelling};
ghost use Rattle.x509_prim.specs.OctetString.{octet_string};

use std::alloc::Global;
use std::cmp::Ordering;
use std::fmt;
use std::hash::{Hash, Hasher};
use std::marker::Model;
use x509_der::{
    Any, Bytes, Content, EncodingOrd, Error, FromAny, Room, SetMember, SetOrd, Spelled, Tag,
    TryClone, ValueOrd, check_content,
};

/// OCTET STRING: any octets (X.690 8.7). Contracts see their list.
#[derive(Drop)]
pub struct OctetString {
    bytes: Bytes,
}

impl Model for OctetString {
    ghost use Rattle.std.specs.Prelude.{List, ℕ};

    ghost Value = { List ℕ };

    ghost view = { λ string. string.bytes };
}

impl OctetString {
    /// A copy of the octets.
    ///
    /// # Errors
    ///
    /// `Overlength` exactly where their element would be longer than [`Length::MAX`](x509_der::Length::MAX). Else
    /// `Memory` when out of memory, only for more than 24 octets.
    pub fn new(alloc: Global, octets: &[u8]) -> Result<OctetString, Error>
        ensures ok { IfOk result (λ string. (string ≡ octets.now) × (length (spelling octet_string octets.now) ≤ limit)) }
        ensures err { IfErr result (λ e. ((e.kind ≡ errors.Memory) × (24 < length octets.now) × (length (spelling octet_string octets.now) ≤ limit))
            ⊎ ((e.kind ≡ errors.Overlength) × (limit < length (spelling octet_string octets.now)))) }
    {
        check_content(octets)?;
        Ok(OctetString {
            bytes: Bytes::from_slice(alloc, octets)?,
        })
    }

    /// The octets of the vector, without a copy.
    ///
    /// # Errors
    ///
    /// `Overlength` exactly where their element would be longer than [`Length::MAX`](x509_der::Length::MAX).
    pub fn from_vec(octets: Vec<u8>) -> Result<OctetString, Error>
        ensures ok { IfOk result (λ string. (string ≡ octets.items) × (length (spelling octet_string octets.items) ≤ limit)) }
        ensures err { IfErr result (λ e. (e.kind ≡ errors.Overlength) × (limit < length (spelling octet_string octets.items))) }
    {
        check_content(octets.as_slice())?;
        Ok(OctetString {
            bytes: Bytes::from(octets),
        })
    }

    /// The octets.
    pub fn as_bytes(&self) -> &[u8]
        ensures { result.now ≡ self.now }
    {
        self.bytes.as_slice()
    }

    /// The vector of the octets. Up to 24 octets may lie inside the value; those are copied.
    ///
    /// # Errors
    ///
    /// `Memory` when out of memory, only for up to 24 octets.
    pub fn into_bytes(self) -> Result<Vec<u8>, Error>
        ensures ok { IfOk result (λ octets. octets.items ≡ self) }
        ensures err { IfErr result (λ e. (e.kind ≡ errors.Memory) × (length self ≤ 24)) }
    {
        let OctetString { bytes } = self;
        bytes.into_vec()
    }
}

impl Content for OctetString {
    ghost use Rattle.x509_der.specs.declared.tag.Tag.TheVariants as tags;
    ghost use Rattle.x509_prim.specs.OctetString.{octet_string_contents, octet_string_contents_lawful};

    ghost contents = { octet_string_contents };

    ghost IDENTIFIER = { tags.OctetString };

    const IDENTIFIER: Tag = Tag::OctetString;

    #[inline(always)]
    fn read_content(alloc: Global, octets: &[u8]) -> Result<OctetString, Error> {
        Ok(OctetString {
            bytes: Bytes::from_slice(alloc, octets)?,
        })
    }

    fn write_content<R: Room>(&self, room: &mut R) -> Result<(), Error> {
        room.put(self.as_bytes())
    }

    ghost contents_lawful = { octet_string_contents_lawful };
}

impl Spelled for OctetString {
    fn has_spelling(&self) {}
}

/// The octet string whose element it is; `Malformed` exactly where it is the element of none. `Memory` when out of
/// memory, only for more than 24 octets.
impl FromAny<'_> for OctetString {
    ghost use Rattle.x509_der.specs.ReadsElement.{ReadsElement};
    ghost use Rattle.x509_prim.specs.OctetString.{octet_string};

    ghost from_any_gives = { ReadsElement octet_string (Unit {0}) };

    fn from_any(alloc: Global, any: &Any) -> Result<OctetString, Error> {
        any.decode_as(alloc)
    }
}

impl ValueOrd for OctetString {
    ghost use Rattle.x509_prim.specs.OctetString.{octet_string};
    ghost use Rattle.x509_der.specs.Writing.{plain, writes};
    ghost use Rattle.x509_der.specs.Ordered.{by_bytes, by_bytes_lawful};

    ghost order = { by_bytes octet_string };

    fn value_cmp(&self, other: &OctetString) -> Ordering {
        self.as_bytes().cmp(other.as_bytes())
    }

    ghost ordered = { by_bytes_lawful octet_string (writes plain) (λ x y p q. q) };
}

impl SetOrd for OctetString {
    ghost set_order = { ⟦<OctetString as EncodingOrd>⟧.encoding_order };
}

impl SetMember for OctetString {
    ghost use Rattle.std.specs.Prelude.{refl};

    ghost in_der_order = { refl };
}

impl TryClone for OctetString {
    fn try_clone(&self, alloc: Global) -> Result<OctetString, Error> {
        Ok(OctetString {
            bytes: self.bytes.try_clone(alloc)?,
        })
    }
}

impl PartialEq for OctetString {
    ghost eq = { bytes_eq };

    ghost laws = { partial_equiv_from_equiv nat_list_eq_equiv };

    fn eq(&self, other: &OctetString) -> bool {
        self.as_bytes() == other.as_bytes()
    }
}

impl Eq for OctetString {
    ghost laws = { nat_list_eq_equiv };
}

impl Hash for OctetString {
    ghost hash_input = { fed.slice fed.u8 };

    ghost respects_eq = { Prim.search (hashing, rules) };

    fn hash<H: Hasher>(&self, state: &mut H) {
        self.as_bytes().hash(state);
    }
}

impl fmt::Debug for OctetString {
    ghost use Rattle.std.specs.Prelude.{Some};
    ghost use Rattle.std.specs.Fmt.{debug_list, decimal};

    ghost debug_output = { debug_list (λ octet. Some (decimal octet)) };

    fn fmt<W: fmt::Write>(&self, f: &mut fmt::Formatter<W>) -> fmt::Result {
        fmt::Debug::fmt(&self.as_bytes(), f)
    }
}
