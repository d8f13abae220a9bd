//! Extensions (RFC 5280 4.2): how they stand in certificates, and what they hold.

pub mod pkix;

pub use x509_ext::{
    Always, Criticality, Extension, Extensions, FilterExtensions, FixedCriticality, Never,
    ToExtension, filter_extensions, get_extension, has_repeated_extension, members,
};
