//! Builders of certificates, CRLs and PKCS #10 requests (CSRs; RFC 5280, 2986), under the paths that the module
//! `builder` of the Rust crate `x509-cert` has.
//!
//! A builder is made of what its signed part is to hold; [`Builder::build`] has a [`Signer`] sign the encoding of that
//! part. What is promised stands at these traits; what each builder makes, in the definitions beside its struct. A name
//! is made of values by [`name`]. Words of our own are explained in `docs/MAP.md`.
#![tactic(auto)]

mod builder;
mod certificate_builder;
mod crl_builder;
mod error;
mod extensions;
pub mod laws;
pub mod name;
pub mod profile;
pub mod request;
mod signer;

pub use builder::Builder;
pub use certificate_builder::CertificateBuilder;
pub use crl_builder::CrlBuilder;
pub use error::{Error, KeyError, Result, SignError};
pub use profile::BuilderProfile;
pub use signer::Signer;
