//! Certification paths under what is trusted, validated (RFC 5280 6.1, RFC 5937): whether each certificate is signed by the one
//! above it, has its subject as issuer, is valid at the time, has names that those above allow, is under acceptable policies, and
//! may have others below it ([`validate_path`]). Revocation isn't checked.
//!
//! The library has no signature algorithm: the caller hands in a [`Verifier`](x509_path::Verifier). Words of our own are explained
//! in `docs/MAP.md`.
#![tactic(auto)]

mod details;
mod last;
pub mod laws;
mod own;
mod processed;
mod validate;
mod validator;

pub use details::{OutOfDate, fault_extension, out_of_date};
pub use last::last_fault;
pub use validate::{validate_path, validate_path_lent};
pub use x509_path_steps::{
    PathSettings, Trusted, TrustedBuf, Validated, ValidationFault, ValidationReason, working_key,
};
pub use x509_policy::AnchorFlags;
