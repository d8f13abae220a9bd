//! Signed certificate timestamps, SCTs (RFC 6962 sections 3.2 and 3.3): the extension that holds them, their encoding
//! in [`tls`], what they say, and what their signatures are over; and the poison extension of precertificates (section 3.1).
//! Words of our own, such as law, are explained in `docs/MAP.md`.
#![tactic(auto)]

mod entry;
mod error;
pub mod laws;
mod list;
mod poison;
mod serialized;
mod signed;
mod timestamp;
pub mod tls;

pub use entry::{PreCert, SignatureType, SignedEntry};
pub use error::Error;
pub use list::SignedCertificateTimestampList;
pub use poison::CtPrecertificatePoison;
pub use serialized::SerializedSct;
pub use signed::{DigitallySigned, HashAlgorithm, SignatureAlgorithm, SignatureAndHashAlgorithm};
pub use timestamp::{LogId, SignedCertificateTimestamp, Version};
pub use tls::{Tls, TlsByteVecU16, TlsError};
