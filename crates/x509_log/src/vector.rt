//! Vectors of at least one byte.

ghost use Rattle.std.specs.Prelude.{◌≡◌, ◌⊎◌, ◌≤◌, length, bytes_eq, IfOk, IfErr};
ghost use Rattle.std.specs.Cmp.{partial_equiv_from_equiv};
ghost use Rattle.std.specs.Cmp.Lexicographic.{nat_list_eq_equiv};
ghost use Rattle.x509_sct.specs.FieldReading.{counted_at};
ghost use Rattle.x509_sct.specs.Numbers.{uint24, vector24};
ghost use Rattle.x509_sct.specs.Outcome.{GivesBy};
ghost use Rattle.x509_sct.specs.declared.tls.error.TlsError.TheVariants.{EndOfStream, InvalidVectorLength, Memory};

use std::alloc::{AllocError, Global};
use std::fmt;
use std::marker::Model;
use x509_sct::tls::{Tls, TlsError, TlsItem, put_vector24, vector24_len};

/// From 1 to 16,777,215 bytes, `opaque<1..2^24-1>` (RFC 5246 section 4.3), as ASN.1Cert of RFC 6962 3.1. Contracts see their list.
#[derive(Drop)]
pub struct TlsByteVecU24 {
    octets: Vec<u8>,
}

impl Model for TlsByteVecU24 {
    ghost use Rattle.std.specs.Prelude.{List, ℕ};
    ghost use Rattle.x509_sct.specs.Numbers.{vector24};

    ghost Value = { List ℕ };

    ghost view = { λ vector. vector.octets.items };

    ghost invariant = { λ vector. vector24.good vector.octets.items };
}

impl TlsByteVecU24 {
    /// The vector of the bytes, without a copy.
    ///
    /// # Errors
    ///
    /// `InvalidVectorLength` exactly where there are none, or more than 16,777,215.
    pub fn new(octets: Vec<u8>) -> Result<TlsByteVecU24, TlsError>
        ensures ok { IfOk result (λ vector. (vector ≡ octets.items) × vector24.good octets.items) }
        ensures err { IfErr result (λ e. (e ≡ InvalidVectorLength) × (vector24.good octets.items → ⊥)) }
    {
        vector24_len(octets.as_slice())?;
        Ok(TlsByteVecU24 { octets })
    }

    /// The vector of a copy of the bytes.
    ///
    /// # Errors
    ///
    /// `InvalidVectorLength` exactly where there are none, or more than 16,777,215. Else `Memory` when out of memory.
    pub fn from_slice(alloc: Global, octets: &[u8]) -> Result<TlsByteVecU24, TlsError>
        ensures ok { IfOk result (λ vector. (vector ≡ octets.now) × vector24.good octets.now) }
        ensures err { IfErr result (λ e. ((e ≡ InvalidVectorLength) × (vector24.good octets.now → ⊥)) ⊎ ((e ≡ Memory) × vector24.good octets.now)) }
    {
        vector24_len(octets)?;
        Ok(TlsByteVecU24 {
            octets: Vec::from_slice(alloc, octets)?,
        })
    }

    /// The bytes.
    pub fn as_slice(&self) -> &[u8]
        ensures value { result.now ≡ self.now }
        ensures good { vector24.good result.now }
    {
        self.octets.as_slice()
    }
}

/// As many octets as the three bytes at the front say, and what follows them.
///
/// # Errors
///
/// `EndOfStream` exactly where bytes are missing.
#[tactic(auto, unfolding(x509_sct::specs::FieldReading::octets_at, x509_sct::specs::FieldReading::number_at, x509_sct::specs::FieldReading::counted_at))]
pub fn take_counted(bytes: &[u8]) -> Result<(&[u8], &[u8]), TlsError>
    ensures exact { GivesBy (λ x. (x.0.now, x.1.now)) result (counted_at uint24.reading bytes.now) }
    ensures err { IfErr result (λ e. e ≡ EndOfStream) }
    ensures short { IfOk result (λ x. length x.0.now ≤ 16777215) }
{
    let [a, b, c, rest @ ..] = bytes else {
        return Err(TlsError::EndOfStream);
    };
    let len = 65_536 * *a as usize + 256 * *b as usize + *c as usize;
    if rest.len() < len {
        return Err(TlsError::EndOfStream);
    }
    Ok(rest.split_at(len))
}

#[tactic(auto, unfolding(x509_sct::specs::FieldReading::filled_at), using(crate::specs::Vectors::none_filled, crate::specs::Vectors::some_filled))]
impl Tls for TlsByteVecU24 {
    ghost use Rattle.std.specs.Prelude.{◌≡◌, ◌≤◌, length};
    ghost use Rattle.x509_sct.specs.Numbers.{vector24, vector24_lawful};

    ghost form = { vector24 };

    fn take(alloc: Global, bytes: &[u8]) -> Result<(TlsByteVecU24, &[u8]), TlsError> {
        let (octets, rest) = take_counted(bytes)?;
        if octets.is_empty() {
            return Err(TlsError::InvalidVectorLength);
        }
        let vector = TlsByteVecU24 {
            octets: Vec::from_slice(alloc, octets)?,
        };
        Ok((vector, rest))
    }

    fn tls_len(&self) -> usize
        ensures exact { result ≡ length (vector24.bytes self.now) }
        ensures short { result ≤ 16777218 }
    {
        3 + self.octets.len()
    }

    fn put(&self, out: &mut Vec<u8>) -> Result<(), AllocError> {
        put_vector24(self.octets.as_slice(), out)
    }

    ghost lawful = { vector24_lawful };
}

impl TlsItem for TlsByteVecU24 {
    ghost use Rattle.x509_log.specs.Vectors.{vector24_moves};

    ghost moves = { vector24_moves };
}

impl PartialEq for TlsByteVecU24 {
    ghost eq = { bytes_eq };

    ghost laws = { partial_equiv_from_equiv nat_list_eq_equiv };

    fn eq(&self, other: &TlsByteVecU24) -> bool {
        self.as_slice() == other.as_slice()
    }
}

impl Eq for TlsByteVecU24 {
    ghost laws = { nat_list_eq_equiv };
}

impl fmt::Debug for TlsByteVecU24 {
    fn fmt<W: fmt::Write>(&self, f: &mut fmt::Formatter<W>) -> fmt::Result {
        fmt::Debug::fmt(&self.as_slice(), f)
    }
}
