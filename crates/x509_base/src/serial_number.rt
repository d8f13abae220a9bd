//! Serial numbers.

ghost use Rattle.std.specs.Prelude.{◌≡◌, ◌^◌, ◌<◌, ◌≤◌, true, [], length, bytes_eq, IfOk, IsOk, IsOkAnd, IsErrAnd};
ghost use Rattle.std.proofs.Common.{rules};
ghost use Rattle.std.specs.Hash as fed;
ghost use Rattle.std.specs.Cmp.{partial_equiv_from_equiv};
ghost use Rattle.std.specs.Cmp.Lexicographic.{nat_list_eq_equiv};
ghost use Rattle.std.specs.Cmp.Rules.{hashing};
ghost use Rattle.x509_der.specs.declared.error.ErrorKind.TheVariants as errors;
ghost use Rattle.x509_der.specs.Natural.{natural_octets};
ghost use Rattle.x509_prim.specs.Integer.{integer_value, is_integer, natural_below, number, with_sign};
ghost use Rattle.x509_base.specs.Serial.{number_content};

use crate::{Profile, Rfc5280};
use std::alloc::Global;
use std::cmp::Ordering;
use std::fmt;
use std::hash::{Hash, Hasher};
use std::marker::{Model, PhantomData};
use x509_der::{
    Content, DerOrd, EncodingOrd, Error, ErrorKind, Room, SetMember, SetOrd, Spelled, Tag,
    TryClone, ValueOrd,
};
use x509_prim::{Int, Uint, strip_zeros};

/// The serial number that the issuer of a certificate gave it (RFC 5280 4.1.2.2). Decoding asks the profile whether the
/// content octets are allowed; encoding doesn't. Contracts see the content octets.
///
/// ```text
/// CertificateSerialNumber ::= INTEGER
/// ```
#[derive(Drop)]
pub struct SerialNumber<P: Profile = Rfc5280> {
    number: Int,
    profile: PhantomData<P>,
}

impl<P: Profile> Model for SerialNumber<P> {
    ghost use Rattle.std.specs.Prelude.{List, ℕ};

    ghost Value = { List ℕ };

    ghost view = { λ serial. serial.number };
}

impl SerialNumber<Rfc5280> {
    /// The most content octets of a number that [`SerialNumber::new`] makes, under any profile (RFC 5280 4.1.2.2).
    pub const MAX_LEN: usize = 20;
}

impl<P: Profile> SerialNumber<P> {
    /// The serial number with these octets, most significant first; they may begin with zeros.
    ///
    /// # Errors
    ///
    /// `Value` exactly where there are no octets; `Overlength` exactly where the content has more than
    /// [`SerialNumber::MAX_LEN`] octets, the first of which may be there for the sign. No memory is taken.
    pub fn new(alloc: Global, octets: &[u8]) -> Result<SerialNumber<P>, Error>
        ensures value { IfOk result (λ serial. serial ≡ number_content octets.now) }
        ensures number { IfOk result (λ serial. number serial ≡ number octets.now) }
        ensures empty { octets.now ≡ [] → IsErrAnd result (λ e. e.kind ≡ errors.Value) }
        ensures overlength { 20 < length (number_content octets.now) → IsErrAnd result (λ e. e.kind ≡ errors.Overlength) }
        ensures taken { 0 < length octets.now → length (number_content octets.now) ≤ 20 → IsOk result }
    {
        if octets.is_empty() {
            return Err(ErrorKind::Value.into());
        }
        if signed_len(strip_zeros(octets)) > SerialNumber::<Rfc5280>::MAX_LEN {
            return Err(ErrorKind::Overlength.into());
        }
        Ok(SerialNumber::from_number(Int::from(Uint::new(alloc, octets)?)))
    }

    /// The serial number with that value. It takes no memory.
    ///
    /// # Errors
    ///
    /// None: it is never refused.
    pub fn from_u8(alloc: Global, number: u8) -> Result<SerialNumber<P>, Error>
        ensures { IsOkAnd result (λ serial. serial ≡ natural_octets number) }
    {
        SerialNumber::from_u16(alloc, u16::from(number))
    }

    /// The serial number with that value. It takes no memory.
    ///
    /// # Errors
    ///
    /// None: it is never refused.
    pub fn from_u16(alloc: Global, number: u16) -> Result<SerialNumber<P>, Error>
        ensures { IsOkAnd result (λ serial. serial ≡ natural_octets number) }
    {
        SerialNumber::from_u32(alloc, u32::from(number))
    }

    /// The serial number with that value. It takes no memory.
    ///
    /// # Errors
    ///
    /// None: it is never refused.
    pub fn from_u32(alloc: Global, number: u32) -> Result<SerialNumber<P>, Error>
        ensures { IsOkAnd result (λ serial. serial ≡ natural_octets number) }
    {
        SerialNumber::from_u64(alloc, u64::from(number))
    }

    /// The serial number with that value. It takes no memory.
    ///
    /// # Errors
    ///
    /// None: it is never refused.
    pub fn from_u64(alloc: Global, number: u64) -> Result<SerialNumber<P>, Error>
        ensures { IsOkAnd result (λ serial. serial ≡ natural_octets number) }
    {
        let uint = Uint::from_u128(alloc, u128::from(number))?;
        Ok(SerialNumber::from_number(Int::from(uint)))
    }

    /// The serial number with that value. It takes no memory.
    ///
    /// # Errors
    ///
    /// None: it is never refused.
    pub fn from_usize(alloc: Global, number: usize) -> Result<SerialNumber<P>, Error>
        ensures { IsOkAnd result (λ serial. serial ≡ natural_octets number) }
    {
        SerialNumber::from_u64(alloc, number as u64)
    }

    /// The content octets: the number in two's complement, most significant first (X.690 8.3.3).
    pub fn as_bytes(&self) -> &[u8]
        ensures content { result.now ≡ self.now }
        ensures integer { is_integer self.now ≡ true }
    {
        self.number.as_bytes()
    }

    /// The number where it is from 0 to 2^64 - 1, else `None`.
    pub fn to_u64(&self) -> Option<u64>
        ensures { result ≡ natural_below (2 ^ 64) (integer_value self.now) }
    {
        self.number.to_u64()
    }

    /// The number where it is from 0 to 2^128 - 1, else `None`.
    pub fn to_u128(&self) -> Option<u128>
        ensures { result ≡ natural_below (2 ^ 128) (integer_value self.now) }
    {
        self.number.to_u128()
    }

    fn from_number(number: Int) -> SerialNumber<P>
        ensures { result ≡ number }
    {
        SerialNumber {
            number,
            profile: PhantomData,
        }
    }
}

/// How many content octets a number from 0 on has, by its octets without leading zeros (X.690 8.3.3).
fn signed_len(digits: &[u8]) -> usize
    ensures { result ≡ length (with_sign digits.now) }
{
    match digits {
        [first, ..] if *first >= 0x80 => digits.len() + 1,
        _ => digits.len(),
    }
}

impl<P: Profile> From<SerialNumber<P>> for Int {
    ghost from_gives = { λ serial int. int ≡ serial };

    fn from(serial: SerialNumber<P>) -> Int {
        let SerialNumber { number, profile: _ } = serial;
        number
    }
}

#[tactic(auto, unfolding(crate::specs::Checked::checked_reading))]
impl<P: Profile> Content for SerialNumber<P> {
    ghost use Rattle.x509_base.specs.Checked.{CheckRefuses};
    ghost use Rattle.x509_base.specs.Serial.{serial_number_contents, serial_number_contents_lawful};
    ghost use Rattle.x509_der.specs.declared.tag.Tag.TheVariants as tags;

    ghost contents = { serial_number_contents P.serial_check };

    ghost refusals = { CheckRefuses P.serial_check };

    ghost IDENTIFIER = { tags.Integer };

    const IDENTIFIER: Tag = Tag::Integer;

    #[inline(always)]
    fn read_content(alloc: Global, octets: &[u8]) -> Result<SerialNumber<P>, Error> {
        let number = Int::read_content(alloc, octets)?;
        P::check_serial_number(octets)?;
        Ok(SerialNumber::from_number(number))
    }

    fn write_content<R: Room>(&self, room: &mut R) -> Result<(), Error> {
        room.put(self.as_bytes())
    }

    ghost contents_lawful = { serial_number_contents_lawful P.serial_check };
}

impl<P: Profile> Spelled for SerialNumber<P> {
    ghost use Rattle.std.specs.Prelude.{Ok};

    ghost premise = { λ serial. P.serial_check serial ≡ Ok tt };

    fn has_spelling(&self) {
        let _content = self.as_bytes();
    }
}

impl<P: Profile> TryClone for SerialNumber<P> {
    fn try_clone(&self, alloc: Global) -> Result<SerialNumber<P>, Error> {
        Ok(SerialNumber::from_number(self.number.try_clone(alloc)?))
    }
}

impl<P: Profile> PartialEq for SerialNumber<P> {
    ghost eq = { bytes_eq };

    ghost laws = { partial_equiv_from_equiv nat_list_eq_equiv };

    fn eq(&self, other: &SerialNumber<P>) -> bool {
        self.as_bytes() == other.as_bytes()
    }
}

impl<P: Profile> Eq for SerialNumber<P> {
    ghost laws = { nat_list_eq_equiv };
}

impl<P: Profile> ValueOrd for SerialNumber<P> {
    ghost use Rattle.x509_der.specs.Writing.{plain, writes};
    ghost use Rattle.x509_der.specs.Ordered.{by_bytes};
    ghost use Rattle.x509_base.specs.Serial.{serial_number};
    ghost use Rattle.x509_base.specs.SerialOrder.{serial_ordered};

    ghost order = { by_bytes (serial_number P.serial_check) };

    fn value_cmp(&self, other: &SerialNumber<P>) -> Ordering {
        self.as_bytes().cmp(other.as_bytes())
    }

    ghost ordered = { serial_ordered P.serial_check (writes plain) };
}

impl<P: Profile> SetOrd for SerialNumber<P> {
    ghost set_order = { ⟦<SerialNumber<P> as EncodingOrd>⟧.encoding_order };
}

impl<P: Profile> SetMember for SerialNumber<P> {
    ghost use Rattle.std.specs.Prelude.{refl};

    ghost in_der_order = { refl };
}

/// Serial numbers are ordered by their encodings, as [`DerOrd`] compares them.
impl<P: Profile> Ord for SerialNumber<P> {
    ghost use Rattle.std.specs.Prelude.{refl};
    ghost use Rattle.x509_base.specs.SerialOrder.{serial_order, serial_total, serial_ties};

    ghost cmp = { serial_order P.serial_check };

    ghost total = { serial_total P.serial_check };

    ghost matches_partial_cmp = { λ x y. refl };

    ghost matches_eq = { serial_ties P.serial_check };

    fn cmp(&self, other: &SerialNumber<P>) -> Ordering {
        self.der_cmp(other)
    }
}

impl<P: Profile> PartialOrd for SerialNumber<P> {
    ghost use Rattle.std.specs.Ordering.{as_partial_cmp};
    ghost use Rattle.std.specs.Cmp.{po};
    ghost use Rattle.x509_base.specs.SerialOrder.{serial_order, serial_total, serial_ties};

    ghost partial_cmp = { as_partial_cmp (serial_order P.serial_check) };

    ghost laws = { po (serial_total P.serial_check) (serial_ties P.serial_check) };

    fn partial_cmp(&self, other: &SerialNumber<P>) -> Option<Ordering> {
        Some(self.cmp(other))
    }
}

impl<P: Profile> Hash for SerialNumber<P> {
    ghost hash_input = { fed.slice fed.u8 };

    ghost respects_eq = { Prim.search (hashing, rules) };

    fn hash<H: Hasher>(&self, state: &mut H) {
        self.as_bytes().hash(state);
    }
}

impl<P: Profile> fmt::Debug for SerialNumber<P> {
    fn fmt<W: fmt::Write>(&self, f: &mut fmt::Formatter<W>) -> fmt::Result {
        fmt::Debug::fmt(&self.as_bytes(), f)
    }
}

impl<P: Profile> fmt::Display for SerialNumber<P> {
    ghost use Rattle.std.specs.Prelude.{Some};
    ghost use Rattle.x509_base.specs.Serial.{colon_hex};

    ghost output = { λ serial. Some (colon_hex serial) };

    fn fmt<W: fmt::Write>(&self, f: &mut fmt::Formatter<W>) -> fmt::Result {
        let octets = self.as_bytes();
        let [first, ..] = octets else {
            return Ok(());
        };
        write!(f, "{first:02X}")?;
        for i in 1..octets.len() {
            let octet = octets[i];
            write!(f, ":{octet:02X}")?;
        }
        Ok(())
    }
}
