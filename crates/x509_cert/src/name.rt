//! Names (RFC 5280 4.1.2.4) and their texts (RFC 4514).

pub use x509_name::name::{
    DistinguishedName, Name, NameIter, RdnIter, RdnSequence, RdnSequenceIter,
    RelativeDistinguishedName,
};
