//! What certification paths are validated under, and the steps of their validation (RFC 5280 6.1, RFC 5937): what is trusted, of a
//! certificate or of a trust anchor ([`Trusted`], [`TrustedBuf`]); what a caller asks ([`PathSettings`]); why a path isn't valid
//! ([`ValidationFault`]), and what a valid one gives ([`Validated`]); and by module what is kept of the certificates above one,
//! and asked of it: keys, names, purposes, policies.
//!
//! `validate_path` of the crate `x509_validation` takes these steps down a path. That crate passes on the types that it takes and
//! gives, so that its callers name this one only in proofs. Words of our own are explained in `docs/MAP.md`.
#![tactic(auto)]

pub mod above;
pub mod applied;
pub mod asked;
pub mod common_names;
pub mod initial;
mod keys;
mod limits;
pub mod matching;
mod oids;
pub mod payloads;
pub mod policies;
pub mod purposes;
pub mod readable;
mod settings;
mod trusted;
mod trusted_buf;
mod validated;
mod validation_fault;

pub use keys::working_key;
pub use settings::PathSettings;
pub use trusted::Trusted;
pub use trusted_buf::TrustedBuf;
pub use validated::Validated;
pub use validation_fault::{ValidationFault, ValidationReason};
