//! The leaves of a log's tree.

use crate::vector::TlsByteVecU24;
use std::alloc::{AllocError, Global};
use x509_sct::Version;
use x509_sct::tls::{NamedByte, Tls, TlsByteVecU16, TlsError};

/// What a leaf is of (RFC 6962 section 3.4).
#[derive(Clone, Copy, Debug, PartialEq, Eq)]
pub enum MerkleLeafType {
    /// An entry with its timestamp, 0.
    TimestampedEntry,
}

impl NamedByte for MerkleLeafType {
    ghost use Rattle.x509_log.specs.Entries as grammar;

    ghost byte_of = { grammar.leaf_type_byte };

    ghost values = { grammar.leaf_types_all };

    fn from_byte(byte: u8) -> Option<MerkleLeafType> {
        match byte {
            0 => Some(MerkleLeafType::TimestampedEntry),
            _ => None,
        }
    }

    fn byte(&self) -> u8 {
        match self {
            MerkleLeafType::TimestampedEntry => 0,
        }
    }

    ghost are_named = { grammar.leaf_types_named };
}

/// A precertificate as a log has it (RFC 6962 section 3.2): for which issuer, and what the certificate will say.
#[derive(Debug, Drop, PartialEq, Eq)]
pub struct LoggedPreCert {
    /// The SHA-256 digest of the public key, a SubjectPublicKeyInfo in DER, of the issuer of the certificate.
    pub issuer_key_hash: [u8; 32],

    /// The DER of the TBSCertificate, without the poison and without timestamps.
    pub tbs_certificate: TlsByteVecU24,
}

#[tactic(auto, unfolding(x509_sct::specs::FieldReading::struct_at))]
impl Tls for LoggedPreCert {
    ghost use Rattle.std.specs.Prelude.{◌≡◌, ◌≤◌, length};
    ghost use Rattle.x509_log.specs.Entries as grammar;

    ghost form = { grammar.logged_pre_cert };

    fn take(alloc: Global, bytes: &[u8]) -> Result<(LoggedPreCert, &[u8]), TlsError> {
        let (issuer_key_hash, rest) = <[u8; 32] as Tls>::take(alloc, bytes)?;
        let (tbs_certificate, rest) = TlsByteVecU24::take(alloc, rest)?;
        let pre_cert = LoggedPreCert {
            issuer_key_hash,
            tbs_certificate,
        };
        Ok((pre_cert, rest))
    }

    fn tls_len(&self) -> usize
        ensures exact { result ≡ length (grammar.logged_pre_cert.bytes self.now) }
        ensures short { result ≤ 16777250 }
    {
        32 + self.tbs_certificate.tls_len()
    }

    fn put(&self, out: &mut Vec<u8>) -> Result<(), AllocError> {
        self.issuer_key_hash.put(out)?;
        self.tbs_certificate.put(out)
    }

    ghost lawful = { grammar.logged_pre_cert_lawful };
}

/// An entry of a log (RFC 6962 section 3.1).
#[derive(Debug, Drop, PartialEq, Eq)]
pub enum LogEntry {
    /// A certificate, by its DER: `x509_entry`, 0.
    X509(TlsByteVecU24),

    /// A precertificate: `precert_entry`, 1.
    Precert(LoggedPreCert),
}

#[tactic(auto, unfolding(x509_sct::specs::FieldReading::struct_at, x509_sct::specs::FieldReading::select_at))]
impl Tls for LogEntry {
    ghost use Rattle.std.specs.Prelude.{◌≡◌, ◌≤◌, length};
    ghost use Rattle.x509_log.specs.Entries as grammar;

    ghost form = { grammar.log_entry };

    fn take(alloc: Global, bytes: &[u8]) -> Result<(LogEntry, &[u8]), TlsError> {
        let (entry_type, rest) = <u16 as Tls>::take(alloc, bytes)?;
        match entry_type {
            0 => {
                let (certificate, rest) = TlsByteVecU24::take(alloc, rest)?;
                Ok((LogEntry::X509(certificate), rest))
            }
            1 => {
                let (pre_cert, rest) = LoggedPreCert::take(alloc, rest)?;
                Ok((LogEntry::Precert(pre_cert), rest))
            }
            other => Err(TlsError::UnknownValue(other)),
        }
    }

    fn tls_len(&self) -> usize
        ensures exact { result ≡ length (grammar.log_entry.bytes self.now) }
        ensures short { result ≤ 16777252 }
    {
        match self {
            LogEntry::X509(certificate) => 2 + certificate.tls_len(),
            LogEntry::Precert(pre_cert) => 2 + pre_cert.tls_len(),
        }
    }

    fn put(&self, out: &mut Vec<u8>) -> Result<(), AllocError> {
        match self {
            LogEntry::X509(certificate) => {
                0u16.put(out)?;
                certificate.put(out)
            }
            LogEntry::Precert(pre_cert) => {
                1u16.put(out)?;
                pre_cert.put(out)
            }
        }
    }

    ghost lawful = { grammar.log_entry_lawful };
}

/// An entry of a log with its timestamp (RFC 6962 section 3.4).
#[derive(Debug, Drop, PartialEq, Eq)]
pub struct TimestampedEntry {
    /// The milliseconds since 1970-01-01T00:00:00Z, without leap seconds.
    pub timestamp: u64,

    /// The entry.
    pub entry: LogEntry,

    /// The extensions, of which version 1 has none.
    pub extensions: TlsByteVecU16,
}

#[tactic(auto, unfolding(x509_sct::specs::FieldReading::struct_at, crate::specs::Entries::timestamped_entry_fields))]
impl Tls for TimestampedEntry {
    ghost use Rattle.std.specs.Prelude.{◌≡◌, ◌≤◌, length};
    ghost use Rattle.x509_log.specs.Entries as grammar;

    ghost form = { grammar.timestamped_entry };

    fn take(alloc: Global, bytes: &[u8]) -> Result<(TimestampedEntry, &[u8]), TlsError> {
        let (timestamp, rest) = <u64 as Tls>::take(alloc, bytes)?;
        let (entry, rest) = LogEntry::take(alloc, rest)?;
        let (extensions, rest) = TlsByteVecU16::take(alloc, rest)?;
        let timestamped = TimestampedEntry {
            timestamp,
            entry,
            extensions,
        };
        Ok((timestamped, rest))
    }

    fn tls_len(&self) -> usize
        ensures exact { result ≡ length (grammar.timestamped_entry.bytes self.now) }
        ensures short { result ≤ 16842797 }
    {
        8 + self.entry.tls_len() + self.extensions.tls_len()
    }

    fn put(&self, out: &mut Vec<u8>) -> Result<(), AllocError> {
        self.timestamp.put(out)?;
        self.entry.put(out)?;
        self.extensions.put(out)
    }

    ghost lawful = { grammar.timestamped_entry_lawful };
}

/// A leaf of a log's tree (RFC 6962 section 3.4): its leaf hash is that of 0 and its encoding (section 2.1).
#[derive(Debug, Drop, PartialEq, Eq)]
pub struct MerkleTreeLeaf {
    /// The version.
    pub version: Version,

    /// What it is of.
    pub leaf_type: MerkleLeafType,

    /// The entry with its timestamp.
    pub timestamped_entry: TimestampedEntry,
}

#[tactic(auto, unfolding(x509_sct::specs::FieldReading::struct_at, crate::specs::Entries::merkle_tree_leaf_fields))]
impl Tls for MerkleTreeLeaf {
    ghost use Rattle.x509_log.specs.Entries as grammar;

    ghost form = { grammar.merkle_tree_leaf };

    fn take(alloc: Global, bytes: &[u8]) -> Result<(MerkleTreeLeaf, &[u8]), TlsError> {
        let (version, rest) = Version::take(alloc, bytes)?;
        let (leaf_type, rest) = MerkleLeafType::take(alloc, rest)?;
        let (timestamped_entry, rest) = TimestampedEntry::take(alloc, rest)?;
        let leaf = MerkleTreeLeaf {
            version,
            leaf_type,
            timestamped_entry,
        };
        Ok((leaf, rest))
    }

    fn tls_len(&self) -> usize {
        2 + self.timestamped_entry.tls_len()
    }

    fn put(&self, out: &mut Vec<u8>) -> Result<(), AllocError> {
        self.version.put(out)?;
        self.leaf_type.put(out)?;
        self.timestamped_entry.put(out)
    }

    ghost lawful = { grammar.merkle_tree_leaf_lawful };
}
