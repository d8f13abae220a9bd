//! The types of this library by their public names: the parts of the table for extensions, certificates and what stands on
//! them, over those of `x509_types`, and paths of certificates for the program. Words of our own are explained in `docs/MAP.md`.
#![tactic(auto)]

mod anchor;
mod certificate;
mod constraint;
mod extension;
mod general_name;
pub mod laws;
mod party;
mod paths;
mod policy;
mod revocation;
mod timestamp;
mod types;

pub use types::Types;
