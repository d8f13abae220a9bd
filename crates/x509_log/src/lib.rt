//! For clients of logs (RFC 6962): what the SCTs of a certificate are signatures of, the entries of logs and their tree heads.
//!
//! - [`LoggedPart`]: the signed part of a precertificate, as a log has it, cut out of a certificate or of a precertificate.
//! - [`is_precertificate_signing`]: whether a certificate signs precertificates for an issuer.
//! - [`EmbeddedTimestamps`]: the SCTs of a certificate, and the octets that the signature of each is over.
//! - [`TreeHead`]: what the signature of a tree head is over.
//! - [`MerkleTreeLeaf`], [`CertificateChain`], [`PrecertChainEntry`]: the entries of a log, as it gives them.
//!
//! Words of our own are explained in `docs/MAP.md`.
#![tactic(auto)]

mod around;
mod chain;
mod embedded;
mod error;
mod key_hash;
pub mod laws;
mod leaf;
mod members;
mod part;
mod put;
mod signing;
mod tree_head;
mod vector;

pub use chain::{CertificateChain, PrecertChainEntry};
pub use embedded::{EmbeddedTimestamps, SignedTimestamp};
pub use error::LogError;
pub use key_hash::issuer_key_hash;
pub use leaf::{LogEntry, LoggedPreCert, MerkleLeafType, MerkleTreeLeaf, TimestampedEntry};
pub use part::LoggedPart;
pub use signing::is_precertificate_signing;
pub use tree_head::TreeHead;
pub use vector::{TlsByteVecU24, take_counted};
