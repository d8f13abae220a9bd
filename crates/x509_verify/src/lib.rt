//! Certification paths, found (RFC 5280 6.1): over any number of candidates, from what is trusted to a certificate
//! ([`find_path`]). What is found is a path that `validate_path` of the crate `x509_validation` accepts; where none is found,
//! there is none.
//!
//! Words of our own, such as lent, are explained in `docs/MAP.md`.
#![tactic(auto)]

mod anchors;
mod candidate;
mod find;
mod find_error;
mod found;
mod key_ids;
mod keyed;
pub mod laws;
mod limits;
mod pool;
mod progress;
mod refusal;
mod search;
mod signatures;

pub use anchors::Anchors;
pub use find::find_path;
pub use find_error::FindError;
pub use found::Found;
pub use limits::SearchLimits;
pub use pool::Pool;
pub use refusal::Refusal;
