//! Whether a certificate is to be trusted as a peer's, in one call ([`verify_peer`]): it names the peer (RFC 9525; RFC 5280
//! 4.2.1.6), a path leads to it from what is trusted (RFC 5280 6.1), and CRLs let it and those of its path through (RFC 5280
//! 6.3.3).
//!
//! What is asked is what the crates `x509_peer`, `x509_verify` and `x509_revocation` say, each by its own definition. The library
//! has no signature algorithm: the caller hands in a [`SliceVerifier`](x509_path::SliceVerifier). Words of our own are explained in
//! `docs/MAP.md`.
#![tactic(auto)]

mod candidates;
mod error;
mod peer;
mod revocation;
mod search;
mod settings;
mod statuses;
mod verify;

pub use error::{RefusedCertificate, VerifyError};
pub use peer::PeerName;
pub use revocation::{RevocationCheck, RevocationScope};
pub use settings::VerifySettings;
pub use verify::verify_peer;
