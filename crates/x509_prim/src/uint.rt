//! INTEGER that is not negative.

ghost use Rattle.std.specs.Prelude.{◌≡◌, ◌^◌, ◌<◌, ◌⊎◌, true, [], length, bytes_eq, IfOk, IfErr, IsOkAnd};
ghost use Rattle.std.proofs.Common.{rules};
ghost use Rattle.std.specs.Hash as fed;
ghost use Rattle.std.specs.Cmp.{partial_equiv_from_equiv};
ghost use Rattle.std.specs.Cmp.Lexicographic.{nat_list_eq_equiv};
ghost use Rattle.std.specs.Cmp.Rules.{hashing};
ghost use Rattle.x509_der.specs.declared.error.ErrorKind.TheVariants as errors;
ghost use Rattle.x509_der.specs.Natural.{natural_octets};
ghost use Rattle.x509_prim.specs.Integer.{integer_value, is_unsigned, natural_below, number, with_sign, without_zeros};

use crate::content::{check_unsigned, is_signed, natural_u64, natural_u128, strip_zeros};
use std::alloc::Global;
use std::cmp::Ordering;
use std::fmt;
use std::hash::{Hash, Hasher};
use std::marker::Model;
use x509_der::{
    Bytes, Content, EncodingOrd, Error, ErrorKind, Room, SetMember, SetOrd, Spelled, Tag, TryClone,
    ValueOrd,
};

/// How many octets [`Bytes`] keep inside the value.
const SHORT: usize = 24;

/// INTEGER that isn't negative: a whole number of any size (X.690 8.3). Contracts see its content octets.
#[derive(Drop)]
pub struct Uint {
    content: Bytes,
}

impl Model for Uint {
    ghost use Rattle.std.specs.Prelude.{List, ℕ, ◌≡◌, true};
    ghost use Rattle.x509_prim.specs.Integer.{is_unsigned};

    ghost Value = { List ℕ };

    ghost view = { λ uint. uint.content };

    ghost invariant = { λ uint. is_unsigned uint.content ≡ true };
}

impl Uint {
    /// The number of these octets, most significant first, which may begin with zeros.
    ///
    /// # Errors
    ///
    /// `Value` exactly where there are no octets. Else `Memory` when out of memory, only for more than 24 content
    /// octets.
    pub fn new(alloc: Global, octets: &[u8]) -> Result<Uint, Error>
        ensures ok { IfOk result (λ uint. uint ≡ with_sign (without_zeros octets.now)) }
        ensures number { IfOk result (λ uint. number uint ≡ number octets.now) }
        ensures err { IfErr result (λ e. ((e.kind ≡ errors.Memory) × (24 < length (with_sign (without_zeros octets.now))))
            ⊎ ((e.kind ≡ errors.Value) × (octets.now ≡ []))) }
    {
        if octets.is_empty() {
            return Err(ErrorKind::Value.into());
        }
        Ok(Uint {
            content: signed_content(alloc, strip_zeros(octets))?,
        })
    }

    /// The number with that value. It takes no memory.
    ///
    /// # Errors
    ///
    /// None: it is never refused.
    pub fn from_u128(alloc: Global, number: u128) -> Result<Uint, Error>
        ensures { IsOkAnd result (λ uint. uint ≡ natural_octets number) }
    {
        Uint::new(alloc, &number.to_be_bytes())
    }

    /// The octets of the number, most significant first, without leading zeros; the number 0 has one octet.
    pub fn as_bytes(&self) -> &[u8]
        ensures octets { result.now ≡ without_zeros self.now }
        ensures number { number result.now ≡ number self.now }
        ensures some { 0 < length result.now }
    {
        strip_zeros(self.content.as_slice())
    }

    /// The number where it is below 2^64, else `None`.
    pub fn to_u64(&self) -> Option<u64>
        ensures { result ≡ natural_below (2 ^ 64) (integer_value self.now) }
    {
        natural_u64(self.content.as_slice())
    }

    /// The number where it is below 2^128, else `None`.
    pub fn to_u128(&self) -> Option<u128>
        ensures { result ≡ natural_below (2 ^ 128) (integer_value self.now) }
    {
        natural_u128(self.content.as_slice())
    }

    /// The content octets, without a copy.
    pub(crate) fn into_content(self) -> Bytes
        ensures content { result ≡ self }
        ensures unsigned { is_unsigned self ≡ true }
    {
        let Uint { content } = self;
        content
    }
}

/// The octets, with a zero in front where bit 8 of the first is 1. More than 24 in all take memory.
fn signed_content(alloc: Global, octets: &[u8]) -> Result<Bytes, Error>
    ensures ok { IfOk result (λ content. content ≡ with_sign octets.now) }
    ensures err { IfErr result (λ e. (e.kind ≡ errors.Memory) × (24 < length (with_sign octets.now))) }
{
    if !is_signed(octets) {
        return Bytes::from_slice(alloc, octets);
    }
    if octets.len() < SHORT {
        let mut content = [0x00; SHORT];
        let (_, behind) = content.split_at_mut(1);
        let (place, _) = behind.split_at_mut(octets.len());
        place.copy_from_slice(octets);
        return Bytes::from_slice(alloc, &content[..octets.len() + 1]);
    }
    let mut content = Vec::from_slice(alloc, &[0x00])?;
    content.extend_from_slice(octets)?;
    Ok(Bytes::from(content))
}

#[tactic(auto, unfolding(x509_der::specs::Tested::tested_reading))]
impl Content for Uint {
    ghost use Rattle.x509_der.specs.declared.tag.Tag.TheVariants as tags;
    ghost use Rattle.x509_prim.specs.Integer.{unsigned_integer_contents};
    ghost use Rattle.x509_prim.specs.IntegerLaws.{unsigned_integer_contents_lawful};

    ghost contents = { unsigned_integer_contents };

    ghost IDENTIFIER = { tags.Integer };

    const IDENTIFIER: Tag = Tag::Integer;

    fn read_content(alloc: Global, octets: &[u8]) -> Result<Uint, Error> {
        if !check_unsigned(octets) {
            return Err(ErrorKind::Malformed.into());
        }
        Ok(Uint {
            content: Bytes::from_slice(alloc, octets)?,
        })
    }

    fn write_content<R: Room>(&self, room: &mut R) -> Result<(), Error> {
        room.put(self.content.as_slice())
    }

    ghost contents_lawful = { unsigned_integer_contents_lawful };
}

impl Spelled for Uint {
    fn has_spelling(&self) {
        let _content = &self.content;
    }
}

impl ValueOrd for Uint {
    ghost use Rattle.x509_prim.specs.Integer.{unsigned_integer};
    ghost use Rattle.x509_der.specs.Writing.{plain, writes};
    ghost use Rattle.x509_der.specs.Ordered.{by_bytes, by_bytes_lawful};

    ghost order = { by_bytes unsigned_integer };

    fn value_cmp(&self, other: &Uint) -> Ordering {
        self.content.as_slice().cmp(other.content.as_slice())
    }

    ghost ordered = { by_bytes_lawful unsigned_integer (writes plain) (λ x y p q. q) };
}

impl SetOrd for Uint {
    ghost set_order = { ⟦<Uint as EncodingOrd>⟧.encoding_order };
}

impl SetMember for Uint {
    ghost use Rattle.std.specs.Prelude.{refl};

    ghost in_der_order = { refl };
}

impl TryClone for Uint {
    fn try_clone(&self, alloc: Global) -> Result<Uint, Error> {
        Ok(Uint {
            content: self.content.try_clone(alloc)?,
        })
    }
}

impl PartialEq for Uint {
    ghost eq = { bytes_eq };

    ghost laws = { partial_equiv_from_equiv nat_list_eq_equiv };

    fn eq(&self, other: &Uint) -> bool {
        self.content.as_slice() == other.content.as_slice()
    }
}

impl Eq for Uint {
    ghost laws = { nat_list_eq_equiv };
}

impl Hash for Uint {
    ghost hash_input = { fed.slice fed.u8 };

    ghost respects_eq = { Prim.search (hashing, rules) };

    fn hash<H: Hasher>(&self, state: &mut H) {
        self.content.as_slice().hash(state);
    }
}

impl fmt::Debug for Uint {
    ghost use Rattle.std.specs.Prelude.{Some};
    ghost use Rattle.std.specs.Fmt.{debug_list, decimal};

    ghost debug_output = { debug_list (λ octet. Some (decimal octet)) };

    fn fmt<W: fmt::Write>(&self, f: &mut fmt::Formatter<W>) -> fmt::Result {
        fmt::Debug::fmt(&self.content.as_slice(), f)
    }
}
