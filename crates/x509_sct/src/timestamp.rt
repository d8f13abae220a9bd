//! Signed certificate timestamps (SCTs).

ghost use Rattle.std.specs.Prelude.{◌≡◌, ◌↔◌, ◌≤◌, ◌/◌, IsOk, Ok, IfOk, IfErr};
ghost use Rattle.x509_base.specs.CivilTime.{CivilTime, last_date_time, IsDateTime, unix_seconds};
ghost use Rattle.x509_der.specs.declared.error.ErrorKind.TheVariants.{Value};

use crate::signed::DigitallySigned;
use crate::tls::{NamedByte, Tls, TlsByteVecU16, TlsError};
use std::alloc::{AllocError, Global};
use std::time::Duration;
use x509_base::DateTime;
use x509_der::Error;

/// The version of a timestamp (RFC 6962 section 3.2).
#[derive(Clone, Copy, Debug, PartialEq, Eq)]
pub enum Version {
    /// Version 1, 0.
    V1,
}

impl NamedByte for Version {
    ghost use Rattle.std.specs.Prelude.{[], ◌∷◌};
    ghost use Rattle.x509_sct.specs.Timestamp as grammar;
    ghost use Rattle.x509_sct.specs.declared.timestamp.Version.TheVariants.{V1};

    ghost byte_of = { grammar.version_byte };

    ghost values = { V1 ∷ [] };

    fn from_byte(byte: u8) -> Option<Version> {
        match byte {
            0 => Some(Version::V1),
            _ => None,
        }
    }

    fn byte(&self) -> u8 {
        match self {
            Version::V1 => 0,
        }
    }

    ghost are_named = { grammar.versions_named };
}

/// The ID of a log (RFC 6962 section 3.2).
#[derive(Clone, Copy, Debug, PartialEq, Eq)]
pub struct LogId {
    /// The SHA-256 digest of the log's public key.
    pub key_id: [u8; 32],
}

#[tactic(auto, unfolding(crate::specs::FieldReading::struct_at))]
impl Tls for LogId {
    ghost use Rattle.x509_sct.specs.Timestamp as grammar;

    ghost form = { grammar.log_id };

    ghost wants_memory = { ⊥ };

    fn take(alloc: Global, bytes: &[u8]) -> Result<(LogId, &[u8]), TlsError> {
        let (key_id, rest) = <[u8; 32] as Tls>::take(alloc, bytes)?;
        Ok((LogId { key_id }, rest))
    }

    fn tls_len(&self) -> usize {
        32
    }

    fn put(&self, out: &mut Vec<u8>) -> Result<(), AllocError> {
        self.key_id.put(out)
    }

    ghost lawful = { grammar.log_id_lawful };
}

/// A signed certificate timestamp (SCT): a log's promise to have the certificate, or to have it soon (RFC 6962 section
/// 3.2).
#[derive(Debug, Drop, PartialEq, Eq)]
pub struct SignedCertificateTimestamp {
    /// The version.
    pub version: Version,

    /// The log.
    pub log_id: LogId,

    /// The milliseconds since 1970-01-01T00:00:00Z, without leap seconds.
    pub timestamp: u64,

    /// The extensions, of which version 1 has none.
    pub extensions: TlsByteVecU16,

    /// The log's signature.
    pub signature: DigitallySigned,
}

impl SignedCertificateTimestamp {
    /// The date-time of the whole seconds of the timestamp. It takes no memory.
    ///
    /// # Errors
    ///
    /// `Value` exactly after [`DateTime::INFINITY`].
    pub fn timestamp(&self) -> Result<DateTime, Error>
        ensures succeeds { IsOk result ↔ (self.now.timestamp / 1000 ≤ unix_seconds last_date_time) }
        ensures found { IfOk result (λ d. IsDateTime d × (unix_seconds d ≡ self.now.timestamp / 1000)) }
        ensures every { (d : CivilTime) → IsDateTime d → unix_seconds d ≡ self.now.timestamp / 1000 → result ≡ Ok d }
        ensures refused { IfErr result (λ e. e.kind ≡ Value) }
    {
        DateTime::from_unix_duration(Duration::from_millis(self.timestamp))
    }
}

#[tactic(auto, unfolding(crate::specs::FieldReading::struct_at, crate::specs::Timestamp::timestamp_fields))]
impl Tls for SignedCertificateTimestamp {
    ghost use Rattle.x509_sct.specs.Timestamp as grammar;

    ghost form = { grammar.timestamp };

    fn take(alloc: Global, bytes: &[u8]) -> Result<(SignedCertificateTimestamp, &[u8]), TlsError> {
        let (version, rest) = Version::take(alloc, bytes)?;
        let (log_id, rest) = LogId::take(alloc, rest)?;
        let (timestamp, rest) = <u64 as Tls>::take(alloc, rest)?;
        let (extensions, rest) = TlsByteVecU16::take(alloc, rest)?;
        let (signature, rest) = DigitallySigned::take(alloc, rest)?;
        let timestamp = SignedCertificateTimestamp {
            version,
            log_id,
            timestamp,
            extensions,
            signature,
        };
        Ok((timestamp, rest))
    }

    fn tls_len(&self) -> usize {
        self.version.tls_len()
            + self.log_id.tls_len()
            + self.timestamp.tls_len()
            + self.extensions.tls_len()
            + self.signature.tls_len()
    }

    fn put(&self, out: &mut Vec<u8>) -> Result<(), AllocError> {
        self.version.put(out)?;
        self.log_id.put(out)?;
        self.timestamp.put(out)?;
        self.extensions.put(out)?;
        self.signature.put(out)
    }

    ghost lawful = { grammar.timestamp_lawful };
}
