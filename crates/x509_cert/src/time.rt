//! Times and the validity of certificates (RFC 5280 4.1.2.5).

pub use x509_base::{DateTime, Time, Validity};
