//! Vectors of bytes.

ghost use Rattle.std.specs.Prelude.{◌≡◌, ◌<◌, ◌≤◌, ◌⊎◌, ◌++◌, length, bytes_eq, IfOk, IfErr, OnOk};
ghost use Rattle.std.specs.Cmp.{partial_equiv_from_equiv};
ghost use Rattle.std.specs.Cmp.Lexicographic.{nat_list_eq_equiv};
ghost use Rattle.x509_sct.specs.declared.tls.error.TlsError.TheVariants.{InvalidVectorLength, Memory};
ghost use Rattle.x509_sct.specs.Form.{Spells};
ghost use Rattle.x509_sct.specs.Numbers.{vector24};

use crate::tls::error::TlsError;
use crate::tls::octets::take_octets;
use crate::tls::tls::Tls;
use std::alloc::{AllocError, Global};
use std::fmt;
use std::marker::Model;

/// Up to 65,535 bytes, `opaque<0..2^16-1>` (RFC 5246 section 4.3). Contracts see their list.
#[derive(Drop)]
pub struct TlsByteVecU16 {
    octets: Vec<u8>,
}

impl Model for TlsByteVecU16 {
    ghost use Rattle.std.specs.Prelude.{List, ℕ, ◌≤◌, length};

    ghost Value = { List ℕ };

    ghost view = { λ vector. vector.octets.items };

    ghost invariant = { λ vector. length vector.octets.items ≤ 65535 };
}

impl TlsByteVecU16 {
    /// The most bytes that a vector has.
    pub const MAX_LEN: usize = 65_535;

    /// The vector of the bytes, without a copy.
    ///
    /// # Errors
    ///
    /// `InvalidVectorLength` exactly where there are more than [`MAX_LEN`](TlsByteVecU16::MAX_LEN).
    pub fn new(octets: Vec<u8>) -> Result<TlsByteVecU16, TlsError>
        ensures ok { IfOk result (λ vector. (vector ≡ octets.items) × (length octets.items ≤ 65535)) }
        ensures err { IfErr result (λ e. (e ≡ InvalidVectorLength) × (65535 < length octets.items)) }
    {
        check_len(octets.len())?;
        Ok(TlsByteVecU16 { octets })
    }

    /// The vector of a copy of the bytes.
    ///
    /// # Errors
    ///
    /// `InvalidVectorLength` exactly where there are more than [`MAX_LEN`](TlsByteVecU16::MAX_LEN). Else `Memory` when
    /// out of memory.
    pub fn from_slice(alloc: Global, octets: &[u8]) -> Result<TlsByteVecU16, TlsError>
        ensures ok { IfOk result (λ vector. (vector ≡ octets.now) × (length octets.now ≤ 65535)) }
        ensures err { IfErr result (λ e. ((e ≡ InvalidVectorLength) × (65535 < length octets.now)) ⊎ ((e ≡ Memory) × (length octets.now ≤ 65535))) }
    {
        check_len(octets.len())?;
        Ok(TlsByteVecU16 {
            octets: Vec::from_slice(alloc, octets)?,
        })
    }

    /// The bytes, at most [`MAX_LEN`](TlsByteVecU16::MAX_LEN).
    pub fn as_slice(&self) -> &[u8]
        ensures value { result.now ≡ self.now }
        ensures short { length result.now ≤ 65535 }
    {
        self.octets.as_slice()
    }
}

/// `InvalidVectorLength` exactly where a vector can't have that many bytes.
fn check_len(len: usize) -> Result<(), TlsError>
    ensures ok { IfOk result (λ _. len ≤ 65535) }
    ensures err { IfErr result (λ e. (e ≡ InvalidVectorLength) × (65535 < len)) }
{
    if len > TlsByteVecU16::MAX_LEN {
        return Err(TlsError::InvalidVectorLength);
    }
    Ok(())
}

/// The vector of the encoding of a value.
///
/// # Errors
///
/// `InvalidVectorLength` exactly where the value has more than [`MAX_LEN`](TlsByteVecU16::MAX_LEN) bytes. Else `Memory`
/// when out of memory.
pub fn serialize_vector<T: Tls>(alloc: Global, value: &T) -> Result<TlsByteVecU16, TlsError>
    ensures ok { IfOk result (λ vector. Spells T.form value.now vector × (length (T.form.bytes value.now) ≤ 65535)) }
    ensures err { IfErr result (λ e. ((e ≡ InvalidVectorLength) × (65535 < length (T.form.bytes value.now)))
        ⊎ ((e ≡ Memory) × (length (T.form.bytes value.now) ≤ 65535))) }
{
    check_len(value.tls_len())?;
    let octets = value.tls_serialize(alloc)?;
    Ok(TlsByteVecU16 { octets })
}

/// How many bytes the vector of the bytes has, `opaque<1..2^24-1>` (RFC 5246 section 4.3): three, which say how many there
/// are, and these.
///
/// # Errors
///
/// `InvalidVectorLength` exactly where there are none, or more than 16,777,215.
pub fn vector24_len(octets: &[u8]) -> Result<usize, TlsError>
    ensures ok { IfOk result (λ len. vector24.good octets.now × (len ≡ length (vector24.bytes octets.now))) }
    ensures short { IfOk result (λ len. len ≤ 16777218) }
    ensures err { IfErr result (λ e. (e ≡ InvalidVectorLength) × (vector24.good octets.now → ⊥)) }
{
    let len = octets.len();
    if len == 0 || len > 16_777_215 {
        return Err(TlsError::InvalidVectorLength);
    }
    Ok(3 + len)
}

/// Puts the vector of the bytes, `opaque<1..2^24-1>` (RFC 5246 section 4.3), behind those that stand: as many as
/// [`vector24_len`] says.
///
/// # Errors
///
/// `AllocError` when out of memory; part of the vector may stand then.
pub fn put_vector24(octets: &[u8], out: &mut Vec<u8>) -> Result<(), AllocError>
    requires { vector24.good octets.now }
    ensures { OnOk result (out.new.items ≡ out.old.items ++ vector24.bytes octets.now) }
{
    let [_, a, b, c] = (octets.len() as u32).to_be_bytes();
    out.extend_from_slice(&[a, b, c])?;
    out.extend_from_slice(octets)
}

#[tactic(auto, unfolding(crate::specs::FieldReading::octets_at, crate::specs::FieldReading::counted_at))]
impl Tls for TlsByteVecU16 {
    ghost use Rattle.std.specs.Prelude.{◌≡◌, ◌≤◌, length};
    ghost use Rattle.x509_sct.specs.Numbers.{vector16, vector16_lawful};

    ghost form = { vector16 };

    fn take(alloc: Global, bytes: &[u8]) -> Result<(TlsByteVecU16, &[u8]), TlsError> {
        let (len, rest) = <u16 as Tls>::take(alloc, bytes)?;
        let (octets, rest) = take_octets(len as usize, rest)?;
        let vector = TlsByteVecU16 {
            octets: Vec::from_slice(alloc, octets)?,
        };
        Ok((vector, rest))
    }

    fn tls_len(&self) -> usize
        ensures exact { result ≡ length (vector16.bytes self.now) }
        ensures short { result ≤ 65537 }
    {
        2 + self.octets.len()
    }

    fn put(&self, out: &mut Vec<u8>) -> Result<(), AllocError> {
        (self.octets.len() as u16).put(out)?;
        out.extend_from_slice(self.octets.as_slice())
    }

    ghost lawful = { vector16_lawful };
}

impl PartialEq for TlsByteVecU16 {
    ghost eq = { bytes_eq };

    ghost laws = { partial_equiv_from_equiv nat_list_eq_equiv };

    fn eq(&self, other: &TlsByteVecU16) -> bool {
        self.as_slice() == other.as_slice()
    }
}

impl Eq for TlsByteVecU16 {
    ghost laws = { nat_list_eq_equiv };
}

impl fmt::Debug for TlsByteVecU16 {
    fn fmt<W: fmt::Write>(&self, f: &mut fmt::Formatter<W>) -> fmt::Result {
        fmt::Debug::fmt(&self.as_slice(), f)
    }
}
