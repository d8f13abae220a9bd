//! Elements that aren't decoded further.

ghost use Rattle.std.specs.Prelude.{◌≡◌, ◌≢◌, ◌<◌, ◌≤◌, ◌↔◌, ◌⊎◌, [], length, drop, false, IfOk, IfErr, IsErrAnd, IsTrue};
ghost use Rattle.x509_der.specs.declared.error.ErrorKind.TheVariants as errors;
ghost use Rattle.x509_der.specs.declared.tag.Tag.TheVariants.{Null};
ghost use Rattle.x509_der.specs.Element.{element, is_identifier, limit};
ghost use Rattle.x509_der.specs.Outcome.{Gives};
ghost use Rattle.x509_der.specs.Form.{spelling};
ghost use Rattle.x509_der.specs.Tag.{octet_of};
ghost use Rattle.x509_der.specs.declared.error.ErrorKind.TheVariants.{Malformed};
ghost use Rattle.x509_der.specs.Any.{any_reading};
ghost use Rattle.x509_der.specs.declared.any.Any.{Any};
ghost use Rattle.x509_der.specs.Writing.{writes, written_spelling, IsWritable, IsUnwritable};

use crate::{
    AnyRef, Bytes, Decode, Encode, EncodingOrd, Error, ErrorKind, Grammar, Growing, Length, Room,
    SetMember, SetOrd, Tag, TryClone, ValueOrd, check_content, check_identifier, take_element,
};
use std::alloc::Global;
use std::cmp::Ordering;

/// An element whose content isn't decoded further: its identifier and its content octets (X.690 8.1).
#[derive(Debug, Drop, PartialEq, Eq, Hash)]
pub struct Any {
    tag: Tag,
    value: Bytes,
}

// Takes the first octets away. The others stay where they are in memory, or move within it.
fn drop_front(octets: &mut Vec<u8>, count: usize)
    requires { count ≤ length octets.old.items }
    ensures { octets.new.items ≡ drop count octets.old.items }
{
    octets.drain(..count);
}

impl Any {
    /// The element with the identifier and a copy of the content.
    ///
    /// # Errors
    ///
    /// `Overlength` exactly where it would be longer than `Length::MAX`. Else `Memory` when out of memory, only for
    /// more than 24 octets of content.
    pub fn new(alloc: Global, tag: Tag, bytes: &[u8]) -> Result<Any, Error>
        ensures ok { IfOk result (λ any. (any.tag ≡ tag) × (any.value ≡ bytes.now)) }
        ensures overlength { limit < length (element (octet_of tag) bytes.now) → IsErrAnd result (λ e. e.kind ≡ errors.Overlength) }
        ensures err { length (element (octet_of tag) bytes.now) ≤ limit → IfErr result (λ e. (e.kind ≡ errors.Memory) × (24 < length bytes.now)) }
    {
        check_content(bytes)?;
        Ok(Any {
            tag,
            value: Bytes::from_slice(alloc, bytes)?,
        })
    }

    /// The element with the identifier and the content, which is not copied.
    ///
    /// # Errors
    ///
    /// `Overlength` exactly where it would be longer than `Length::MAX`.
    pub fn from_vec(tag: Tag, content: Vec<u8>) -> Result<Any, Error>
        ensures ok { IfOk result (λ any. (any.tag ≡ tag) × (any.value ≡ content.items) × (length (element (octet_of tag) content.items) ≤ limit)) }
        ensures err { IfErr result (λ e. (e.kind ≡ errors.Overlength) × (limit < length (element (octet_of tag) content.items))) }
    {
        check_content(content.as_slice())?;
        Ok(Any {
            tag,
            value: Bytes::from(content),
        })
    }

    /// The element that the octets are, whose content is not copied.
    ///
    /// # Errors
    ///
    /// `Overlength` exactly where they are more than `Length::MAX`, and else `Malformed` exactly where they are no
    /// element (X.690 8.1, 10.1).
    pub fn from_octets(mut octets: Vec<u8>) -> Result<Any, Error>
        ensures ok { IfOk result (λ any. (octets.items ≡ element (octet_of any.tag) any.value) × (length octets.items ≤ limit)) }
        ensures overlength { limit < length octets.items → IsErrAnd result (λ e. e.kind ≡ errors.Overlength) }
        ensures malformed { length octets.items ≤ limit → IfErr result (λ e. (e.kind ≡ errors.Malformed)
            × ((any : Any) → octets.items ≢ element (octet_of any.tag) any.value)) }
    {
        if octets.len() > Length::MAX.as_u32() as usize {
            return Err(ErrorKind::Overlength.into());
        }
        let (element, rest) = take_element(octets.as_slice())?;
        if !rest.is_empty() {
            return Err(ErrorKind::Malformed.into());
        }
        let tag = element.tag();
        let header_len = octets.len() - element.value().len();
        drop_front(&mut octets, header_len);
        Ok(Any {
            tag,
            value: Bytes::from(octets),
        })
    }

    /// The identifier.
    pub fn tag(&self) -> Tag
        ensures { result ≡ self.now.tag }
    {
        self.tag
    }

    /// The content octets.
    pub fn value(&self) -> &[u8]
        ensures { result.now ≡ self.now.value }
    {
        self.value.as_slice()
    }

    /// The value of which this is the element: what the type's decoder answers on it.
    ///
    /// # Errors
    ///
    /// `Malformed`, or an error of the type's own, exactly where it is the element of no value. `Memory` when out of
    /// memory, only where decoding the type may take memory.
    pub fn decode_as<T: Decode>(&self, alloc: Global) -> Result<T, Error>
        ensures found { IfOk result (λ value. T.form.good value × (element (octet_of self.now.tag) self.now.value ≡ spelling T.form value)) }
        ensures refused { IfErr result (λ e. ((e.kind ≡ errors.Memory) × T.wants_memory) ⊎ ((e.kind ≡ errors.Malformed) ⊎ T.refuses e.kind)) }
        ensures only { (value : T) → T.form.good value → element (octet_of self.now.tag) self.now.value ≡ spelling T.form value
            → IfErr result (λ e. (e.kind ≡ errors.Memory) × T.wants_memory) }
        ensures value { (value : T) → T.form.good value → element (octet_of self.now.tag) self.now.value ≡ spelling T.form value
            → IfOk result (λ found. found ≡ value) }
        ensures which { Gives result (T.form.reading (octet_of self.now.tag) self.now.value) }
    {
        T::read(alloc, self.tag.octet(), self.value.as_slice())
    }

    /// The element of the value, as `to_der` encodes it.
    ///
    /// # Errors
    ///
    /// Those of `to_der`; `Memory` when out of memory.
    pub fn encode_from<T: Encode>(alloc: Global, value: &T) -> Result<Any, Error>
        ensures ok { IfOk result (λ any. (element (octet_of any.tag) any.value ≡ written_spelling T.form (writes T.writing value.now))
            × IsWritable T.form (writes T.writing value.now) limit) }
        ensures err { IfErr result (λ e. (e.kind ≡ errors.Memory) ⊎ IsUnwritable T.form (writes T.writing value.now) limit e.kind) }
    {
        let mut room = Growing::new(alloc);
        value.put_content(&mut room)?;
        let content = room.into_vec();
        check_content(content.as_slice())?;
        Ok(Any {
            tag: value.identifier(),
            value: Bytes::from(content),
        })
    }

    /// The element of ASN.1 NULL, which has no content (X.690 8.8). It takes no memory.
    pub fn null(alloc: Global) -> Any
        ensures tag { result.tag ≡ Null }
        ensures content { result.value ≡ [] }
    {
        Any {
            tag: Tag::Null,
            value: Bytes::from(Vec::new(alloc)),
        }
    }

    /// Whether the element is a NULL, with no content (X.690 8.8).
    pub fn is_null(&self) -> bool
        ensures { IsTrue result ↔ ((self.now.tag ≡ Null) × (self.now.value ≡ [])) }
    {
        self.tag == Tag::Null && self.value.as_slice().is_empty()
    }
}

impl Grammar for Any {
    ghost use Rattle.x509_der.specs.Any.{any, any_lawful};

    ghost form = { any };

    fn identifier(&self) -> Tag {
        self.tag
    }

    #[tactic(auto, using(crate::specs::Any::is_in_identifiers))]
    fn is_start(octet: u8) -> bool {
        check_identifier(octet)
    }

    ghost lawful = { any_lawful };
}

#[tactic(auto, using(crate::specs::Any::any_found, crate::specs::Any::any_not_found, crate::specs::Any::begins_an_element))]
impl Decode for Any {
    #[inline(always)]
    fn read(alloc: Global, tag: u8, content: &[u8]) -> Result<Any, Error>
        ensures exact { Gives result (any_reading tag content.now) }
        ensures malformed { is_identifier tag ≡ false → IfErr result (λ e. e.kind ≡ Malformed) }
        ensures memory { IfErr result (λ e. e.kind ≡ errors.Memory → 24 < length content.now) }
    {
        Ok(Any {
            tag: Tag::from_octet(tag)?,
            value: Bytes::from_slice(alloc, content)?,
        })
    }
}

impl Encode for Any {
    ghost use Rattle.std.specs.Prelude.{refl};

    fn put_content<R: Room>(&self, room: &mut R) -> Result<(), Error> {
        room.put(self.value.as_slice())
    }

    ghost same_tag = { λ value. refl };
}

/// `value_cmp` leaves the identifiers out.
impl ValueOrd for Any {
    ghost use Rattle.x509_der.specs.Any.{any, any_ordered};
    ghost use Rattle.x509_der.specs.Writing.{plain, writes};
    ghost use Rattle.x509_der.specs.Ordered.{by_bytes};

    ghost order = { by_bytes any };

    fn value_cmp(&self, other: &Any) -> Ordering {
        self.value.as_slice().cmp(other.value.as_slice())
    }

    ghost ordered = { any_ordered (writes plain) };
}

impl SetOrd for Any {
    ghost set_order = { ⟦<Any as EncodingOrd>⟧.encoding_order };
}

impl SetMember for Any {
    ghost use Rattle.std.specs.Prelude.{refl};

    ghost in_der_order = { refl };
}

impl TryClone for Any {
    fn try_clone(&self, alloc: Global) -> Result<Any, Error> {
        Ok(Any {
            tag: self.tag,
            value: self.value.try_clone(alloc)?,
        })
    }
}

/// A value that is converted from an element, and may borrow from it.
pub trait FromAny<'a>: Sized {
    ghost use Rattle.x509_der.specs.declared.error.Error.{Error};
    ghost use Rattle.std.specs.Prelude.{Result};
    ghost use Rattle.x509_der.specs.declared.any.Any.{Any};

    /// What may be answered on an element.
    ghost from_any_gives: { Any → Result Self Error → Type 0 };

    /// The value in the element.
    ///
    /// # Errors
    ///
    /// The conversion's own; each type says them.
    fn from_any(alloc: Global, any: &'a Any) -> Result<Self, Error>
        ensures { from_any_gives any.now result };
}
