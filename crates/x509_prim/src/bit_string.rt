//! BIT STRING.

ghost use Rattle.std.specs.Prelude.{◌≡◌, ◌<◌, ◌⊎◌, length, true, false, IfOk, IfErr, IfSome, IfNone};
ghost use Rattle.x509_der.specs.declared.error.ErrorKind.TheVariants as errors;
ghost use Rattle.x509_prim.specs.BitString as grammar;

use std::alloc::Global;
use std::cmp::Ordering;
use std::fmt;
use std::marker::Model;
use x509_der::{
    Bytes, Content, EncodingOrd, Error, ErrorKind, Room, SetMember, SetOrd, Spelled, Tag, TryClone,
    ValueOrd,
};

/// BIT STRING: a list of bits (X.690 8.6). Contracts see the octets that hold them, bit 8 of the first octet first, and
/// how many bits of the last octet are unused; those are zero (X.690 11.2.1).
#[derive(Drop, PartialEq, Eq, Hash)]
pub struct BitString {
    unused: u8,
    octets: Bytes,
}

impl Model for BitString {
    ghost use Rattle.std.specs.Prelude.{◌≡◌, true};
    ghost use Rattle.x509_prim.specs.BitString.{BitParts, parts_of, is_padded};

    ghost Value = { BitParts };

    ghost view = { λ string. parts_of string.unused string.octets };

    ghost invariant = { λ string. is_padded (parts_of string.unused string.octets) ≡ true };

    ghost inverse = { λ parts. record { unused = parts.unused; octets = parts.octets } };
}

/// Whether at most seven bits are unused, and all of them are zero bits of the last octet.
#[tactic(auto, unfolding(crate::specs::BitString::is_padded))]
fn check_padding(unused: u8, octets: &[u8]) -> bool
    ensures { result ≡ grammar.is_padded (grammar.parts_of unused octets.now) }
{
    match octets {
        _ if unused == 0 => true,
        [.., last] => unused < 8 && *last % (1 << unused) == 0,
        [] => false,
    }
}

impl BitString {
    /// A copy of the octets, of the last of which some bits are unused.
    ///
    /// # Errors
    ///
    /// `Value` exactly where more than seven bits are unused, or one of them isn't zero, or there is no octet and yet
    /// an unused bit. Else `Memory` when out of memory, only for more than 24 octets.
    pub fn new(alloc: Global, unused: u8, octets: &[u8]) -> Result<BitString, Error>
        ensures ok { IfOk result (λ string. (string ≡ grammar.parts_of unused octets.now) × (grammar.is_padded (grammar.parts_of unused octets.now) ≡ true)) }
        ensures err { IfErr result (λ e. ((e.kind ≡ errors.Memory) × (24 < length octets.now)
            × (grammar.is_padded (grammar.parts_of unused octets.now) ≡ true))
            ⊎ ((e.kind ≡ errors.Value) × (grammar.is_padded (grammar.parts_of unused octets.now) ≡ false))) }
    {
        if !check_padding(unused, octets) {
            return Err(ErrorKind::Value.into());
        }
        Ok(BitString {
            unused,
            octets: Bytes::from_slice(alloc, octets)?,
        })
    }

    /// A copy of the octets, all bits of which are used.
    ///
    /// # Errors
    ///
    /// `Memory` when out of memory, only for more than 24 octets.
    #[tactic(auto, unfolding(crate::specs::BitString::is_padded))]
    pub fn from_bytes(alloc: Global, octets: &[u8]) -> Result<BitString, Error>
        ensures ok { IfOk result (λ string. string ≡ grammar.parts_of 0 octets.now) }
        ensures err { IfErr result (λ e. (e.kind ≡ errors.Memory) × (24 < length octets.now)) }
    {
        Ok(BitString {
            unused: 0,
            octets: Bytes::from_slice(alloc, octets)?,
        })
    }

    /// The octets that hold the bits, the unused bits too.
    pub fn raw_bytes(&self) -> &[u8]
        ensures octets { result.now ≡ self.now.octets }
        ensures padded { grammar.is_padded self.now ≡ true }
    {
        self.octets.as_slice()
    }

    /// How many bits of the last octet are unused.
    pub fn unused_bits(&self) -> u8
        ensures unused { result ≡ self.now.unused }
        ensures padded { grammar.is_padded self.now ≡ true }
    {
        self.unused
    }

    /// The octets where all their bits are used, else `None`.
    pub fn as_bytes(&self) -> Option<&[u8]>
        ensures some { IfSome result (λ octets. (self.now.unused ≡ 0) × (octets.now ≡ self.now.octets)) }
        ensures none { IfNone result (0 < self.now.unused) }
    {
        if self.unused == 0 {
            Some(self.raw_bytes())
        } else {
            None
        }
    }
}

#[tactic(auto, unfolding(crate::specs::BitString::bit_string_reading))]
impl Content for BitString {
    ghost use Rattle.x509_der.specs.declared.tag.Tag.TheVariants as tags;
    ghost use Rattle.x509_prim.specs.BitString.{bit_string_contents};
    ghost use Rattle.x509_prim.specs.BitStringLaws.{bit_string_contents_lawful};

    ghost contents = { bit_string_contents };

    ghost IDENTIFIER = { tags.BitString };

    const IDENTIFIER: Tag = Tag::BitString;

    fn read_content(alloc: Global, octets: &[u8]) -> Result<BitString, Error> {
        let [unused, octets @ ..] = octets else {
            return Err(ErrorKind::Malformed.into());
        };
        if !check_padding(*unused, octets) {
            return Err(ErrorKind::Malformed.into());
        }
        Ok(BitString {
            unused: *unused,
            octets: Bytes::from_slice(alloc, octets)?,
        })
    }

    fn write_content<R: Room>(&self, room: &mut R) -> Result<(), Error> {
        room.put(self.raw_bytes())?;
        room.put(&[self.unused_bits()])
    }

    ghost contents_lawful = { bit_string_contents_lawful };
}

impl Spelled for BitString {
    fn has_spelling(&self) {
        let _unused = self.unused_bits();
    }
}

impl ValueOrd for BitString {
    ghost use Rattle.x509_der.specs.Writing.{plain, writes};
    ghost use Rattle.x509_der.specs.Ordered.{by_bytes, by_bytes_lawful};
    ghost use Rattle.x509_prim.specs.BitString.{bit_string};
    ghost use Rattle.x509_prim.specs.BitStringLaws.{one_bit_string};

    ghost order = { by_bytes bit_string };

    fn value_cmp(&self, other: &BitString) -> Ordering {
        self.unused
            .cmp(&other.unused)
            .then(self.raw_bytes().cmp(other.raw_bytes()))
    }

    ghost ordered = { by_bytes_lawful bit_string (writes plain) (λ x y p q. one_bit_string x y q) };
}

impl SetOrd for BitString {
    ghost set_order = { ⟦<BitString as EncodingOrd>⟧.encoding_order };
}

impl SetMember for BitString {
    ghost use Rattle.std.specs.Prelude.{refl};

    ghost in_der_order = { refl };
}

impl TryClone for BitString {
    fn try_clone(&self, alloc: Global) -> Result<BitString, Error> {
        Ok(BitString {
            unused: self.unused,
            octets: self.octets.try_clone(alloc)?,
        })
    }
}

impl fmt::Debug for BitString {
    ghost use Rattle.std.specs.Prelude.{Some, codes, ◌++◌};
    ghost use Rattle.std.specs.Fmt.{debug_list, decimal, ◌++?◌};

    ghost debug_output = { λ string. debug_list (λ octet. Some (decimal octet)) string.octets ++? Some
        (codes ", " ++ decimal string.unused ++ codes " unused") };

    fn fmt<W: fmt::Write>(&self, f: &mut fmt::Formatter<W>) -> fmt::Result {
        write!(f, "{:?}, {} unused", self.raw_bytes(), self.unused_bits())
    }
}
