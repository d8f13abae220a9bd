//! Certification paths under a trust anchor (RFC 5280 6.1): whether each certificate is signed by the one above it, has
//! its subject as issuer, is valid at the time, and may have others below it. [`check_path`] knows no policies and no name
//! constraints, and compares names as they are encoded; all of RFC 5280 6.1 is `validate_path` of the crate
//! `x509_validation`. Revocation isn't checked.
//!
//! The library has no signature algorithm: the caller hands in a [`Verifier`]. Words of our own are explained in
//! `docs/MAP.md`.
#![tactic(auto)]

mod anchor;
mod anchor_ref;
pub mod certificate;
pub mod extensions;
mod fault;
mod judge;
pub mod laws;
pub mod lengths;
mod path;
pub mod trust;
mod verifier;

pub use anchor::Anchor;
pub use anchor_ref::AnchorRef;
pub use fault::{PathFault, PathReason};
pub use path::{check_path, check_path_lent, check_path_slices};
pub use verifier::{AnySignature, SliceVerifier, Verifier};
