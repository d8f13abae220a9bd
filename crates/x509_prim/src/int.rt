//! INTEGER.

ghost use Rattle.std.specs.Prelude.{◌≡◌, ◌^◌, ◌<◌, ◌⊎◌, true, false, length, bytes_eq, IfOk, IfErr};
ghost use Rattle.std.proofs.Common.{rules};
ghost use Rattle.std.specs.Hash as fed;
ghost use Rattle.std.specs.Cmp.{partial_equiv_from_equiv};
ghost use Rattle.std.specs.Cmp.Lexicographic.{nat_list_eq_equiv};
ghost use Rattle.std.specs.Cmp.Rules.{hashing};
ghost use Rattle.x509_der.specs.declared.error.ErrorKind.TheVariants as errors;
ghost use Rattle.x509_prim.specs.Integer.{integer_value, is_integer, natural_below};

use crate::content::{check_integer, natural_u64, natural_u128};
use crate::uint::Uint;
use std::alloc::Global;
use std::cmp::Ordering;
use std::fmt;
use std::hash::{Hash, Hasher};
use std::marker::Model;
use x509_der::{
    Bytes, Content, EncodingOrd, Error, ErrorKind, Room, SetMember, SetOrd, Spelled, Tag, TryClone,
    ValueOrd,
};

/// INTEGER: a whole number of any size (X.690 8.3). Contracts see its content octets.
#[derive(Drop)]
pub struct Int {
    content: Bytes,
}

impl Model for Int {
    ghost use Rattle.std.specs.Prelude.{List, ℕ, ◌≡◌, true};
    ghost use Rattle.x509_prim.specs.Integer.{is_integer};

    ghost Value = { List ℕ };

    ghost view = { λ int. int.content };

    ghost invariant = { λ int. is_integer int.content ≡ true };
}

impl Int {
    /// The number with these content octets.
    ///
    /// # Errors
    ///
    /// `Value` exactly where they aren't the content octets of an INTEGER. Else `Memory` when out of memory, only for
    /// more than 24 octets.
    pub fn new(alloc: Global, content: &[u8]) -> Result<Int, Error>
        ensures ok { IfOk result (λ int. (int ≡ content.now) × (is_integer content.now ≡ true)) }
        ensures err { IfErr result (λ e. ((e.kind ≡ errors.Memory) × (24 < length content.now) × (is_integer content.now ≡ true))
            ⊎ ((e.kind ≡ errors.Value) × (is_integer content.now ≡ false))) }
    {
        if !check_integer(content) {
            return Err(ErrorKind::Value.into());
        }
        Ok(Int {
            content: Bytes::from_slice(alloc, content)?,
        })
    }

    /// The content octets.
    pub fn as_bytes(&self) -> &[u8]
        ensures content { result.now ≡ self.now }
        ensures integer { is_integer self.now ≡ true }
    {
        self.content.as_slice()
    }

    /// The number where it is from 0 to 2^64 - 1, else `None`.
    pub fn to_u64(&self) -> Option<u64>
        ensures { result ≡ natural_below (2 ^ 64) (integer_value self.now) }
    {
        natural_u64(self.content.as_slice())
    }

    /// The number where it is from 0 to 2^128 - 1, else `None`.
    pub fn to_u128(&self) -> Option<u128>
        ensures { result ≡ natural_below (2 ^ 128) (integer_value self.now) }
    {
        natural_u128(self.content.as_slice())
    }
}

impl From<Uint> for Int {
    ghost from_gives = { λ uint int. int ≡ uint };

    fn from(uint: Uint) -> Int {
        Int {
            content: uint.into_content(),
        }
    }
}

#[tactic(auto, unfolding(x509_der::specs::Tested::tested_reading))]
impl Content for Int {
    ghost use Rattle.x509_der.specs.declared.tag.Tag.TheVariants as tags;
    ghost use Rattle.x509_prim.specs.Integer.{integer_contents};
    ghost use Rattle.x509_prim.specs.IntegerLaws.{integer_contents_lawful};

    ghost contents = { integer_contents };

    ghost IDENTIFIER = { tags.Integer };

    const IDENTIFIER: Tag = Tag::Integer;

    fn read_content(alloc: Global, octets: &[u8]) -> Result<Int, Error> {
        if !check_integer(octets) {
            return Err(ErrorKind::Malformed.into());
        }
        Ok(Int {
            content: Bytes::from_slice(alloc, octets)?,
        })
    }

    fn write_content<R: Room>(&self, room: &mut R) -> Result<(), Error> {
        room.put(self.content.as_slice())
    }

    ghost contents_lawful = { integer_contents_lawful };
}

impl Spelled for Int {
    fn has_spelling(&self) {
        let _content = self.as_bytes();
    }
}

impl ValueOrd for Int {
    ghost use Rattle.x509_prim.specs.Integer.{integer};
    ghost use Rattle.x509_der.specs.Writing.{plain, writes};
    ghost use Rattle.x509_der.specs.Ordered.{by_bytes, by_bytes_lawful};

    ghost order = { by_bytes integer };

    fn value_cmp(&self, other: &Int) -> Ordering {
        self.content.as_slice().cmp(other.content.as_slice())
    }

    ghost ordered = { by_bytes_lawful integer (writes plain) (λ x y p q. q) };
}

impl SetOrd for Int {
    ghost set_order = { ⟦<Int as EncodingOrd>⟧.encoding_order };
}

impl SetMember for Int {
    ghost use Rattle.std.specs.Prelude.{refl};

    ghost in_der_order = { refl };
}

impl TryClone for Int {
    fn try_clone(&self, alloc: Global) -> Result<Int, Error> {
        Ok(Int {
            content: self.content.try_clone(alloc)?,
        })
    }
}

impl PartialEq for Int {
    ghost eq = { bytes_eq };

    ghost laws = { partial_equiv_from_equiv nat_list_eq_equiv };

    fn eq(&self, other: &Int) -> bool {
        self.content.as_slice() == other.content.as_slice()
    }
}

impl Eq for Int {
    ghost laws = { nat_list_eq_equiv };
}

impl Hash for Int {
    ghost hash_input = { fed.slice fed.u8 };

    ghost respects_eq = { Prim.search (hashing, rules) };

    fn hash<H: Hasher>(&self, state: &mut H) {
        self.content.as_slice().hash(state);
    }
}

impl fmt::Debug for Int {
    ghost use Rattle.std.specs.Prelude.{Some};
    ghost use Rattle.std.specs.Fmt.{debug_list, decimal};

    ghost debug_output = { debug_list (λ octet. Some (decimal octet)) };

    fn fmt<W: fmt::Write>(&self, f: &mut fmt::Formatter<W>) -> fmt::Result {
        fmt::Debug::fmt(&self.content.as_slice(), f)
    }
}
