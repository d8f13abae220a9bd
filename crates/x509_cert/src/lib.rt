//! X.509 certificates, CRLs, PKCS #10 requests (CSRs) and trust anchors in strict DER (RFC 5280, 2986, 5914), under the
//! paths that the Rust crate `x509-cert` has.
//!
//! Values are decoded by `from_der` of [`der::Decode`] and encoded by `to_der` of [`der::Encode`]. What is promised of
//! these calls stands at the traits; what the bytes are, in the definitions of this crate and of those that it
//! re-exports. Words of our own, such as form, spelling and profile, are explained in `docs/MAP.md`.
#![tactic(auto)]

pub mod anchor;
pub mod attr;
pub mod certificate;
pub mod crl;
pub mod der;
mod digest;
pub mod ext;
pub mod laws;
pub mod name;
pub mod request;
pub mod serial_number;
mod signed;
pub mod spki;
pub mod time;

pub use certificate::{Certificate, PkiPath, TbsCertificate, Version};
pub use signed::slice::signed_slice;
pub use x509_base::{AlgorithmIdentifier, SubjectPublicKeyInfo};
