//! Serialized timestamps.

ghost use Rattle.std.specs.Prelude.{◌≡◌, ◌<◌, ◌≤◌, ◌⊎◌, length, IfOk, IfErr};
ghost use Rattle.x509_sct.specs.declared.error.Error.TheVariants as errors;
ghost use Rattle.x509_sct.specs.Timestamp.{timestamp as form};
ghost use Rattle.x509_sct.specs.declared.tls.error.TlsError.TheVariants.{InvalidVectorLength, Memory};
ghost use Rattle.x509_sct.specs.Answers.{Answers};
ghost use Rattle.x509_sct.specs.Form.{Spells, IsWholeFault};

use crate::error::Error;
use crate::timestamp::SignedCertificateTimestamp;
use crate::tls::{Tls, TlsByteVecU16, TlsError, TlsItem, read_whole, serialize_vector};
use std::alloc::{AllocError, Global};

/// The bytes of a timestamp, as a list holds them (RFC 6962 section 3.3). They needn't be those of a timestamp of a
/// known version, and may be none.
#[derive(Debug, Drop, PartialEq, Eq)]
pub struct SerializedSct {
    octets: TlsByteVecU16,
}

impl SerializedSct {
    /// The encoding of that timestamp in TLS.
    ///
    /// # Errors
    ///
    /// `InvalidVectorLength` exactly where it has more than [`TlsByteVecU16::MAX_LEN`] bytes. Else `Memory` when out of
    /// memory.
    pub fn new(
        alloc: Global,
        timestamp: SignedCertificateTimestamp,
    ) -> Result<SerializedSct, TlsError>
        ensures ok { IfOk result (λ serialized. Spells form timestamp serialized.octets × (length (form.bytes timestamp) ≤ 65535)) }
        ensures err { IfErr result (λ e. ((e ≡ InvalidVectorLength) × (65535 < length (form.bytes timestamp)))
            ⊎ ((e ≡ Memory) × (length (form.bytes timestamp) ≤ 65535))) }
    {
        Ok(SerializedSct {
            octets: serialize_vector(alloc, &timestamp)?,
        })
    }

    /// The timestamp of which these bytes, all of them, are the encoding.
    ///
    /// # Errors
    ///
    /// As [`Error::Tls`], the first error from the left: `EndOfStream` where bytes are missing, `UnknownValue` where a
    /// byte is of no version or no algorithm, and `TrailingData` where bytes follow the timestamp. `Memory` when out of
    /// memory.
    pub fn parse_timestamp(&self, alloc: Global) -> Result<SignedCertificateTimestamp, Error>
        ensures { Answers (λ x. x) (λ e. errors.Tls e) (λ x. Spells form x self.now.octets) (IsWholeFault form self.now.octets) Unit result }
    {
        Ok(read_whole(alloc, self.octets.as_slice())?)
    }
}

#[tactic(auto, unfolding(crate::specs::FieldReading::struct_at))]
impl Tls for SerializedSct {
    ghost use Rattle.std.specs.Prelude.{◌≡◌, ◌≤◌, length};
    ghost use Rattle.x509_sct.specs.TimestampList as grammar;

    ghost form = { grammar.serialized };

    fn take(alloc: Global, bytes: &[u8]) -> Result<(SerializedSct, &[u8]), TlsError> {
        let (octets, rest) = TlsByteVecU16::take(alloc, bytes)?;
        Ok((SerializedSct { octets }, rest))
    }

    fn tls_len(&self) -> usize {
        self.octets.tls_len()
    }

    fn put(&self, out: &mut Vec<u8>) -> Result<(), AllocError> {
        self.octets.put(out)
    }

    ghost lawful = { grammar.serialized_lawful };
}

impl TlsItem for SerializedSct {
    ghost use Rattle.x509_sct.specs.TimestampList as grammar;

    ghost moves = { grammar.serialized_moves };
}
