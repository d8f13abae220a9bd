//! Public keys and their algorithms (RFC 5280 4.1.1.2, 4.1.2.7).

pub use x509_base::{AlgorithmIdentifier, SubjectPublicKeyInfo, SubjectPublicKeyInfoRef};
pub use x509_der::{AssociatedOid, ObjectIdentifier};
