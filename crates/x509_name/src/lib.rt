//! Names as bytes (RFC 5280 4.1.2.4) and as text (RFC 4514), and attributes (RFC 2986 4.1). A name is a sequence of
//! relative distinguished names (RDNs), each a set of attributes. Words of our own, such as law, are explained in
//! `docs/MAP.md`.
#![tactic(auto)]

pub mod attr;
pub mod laws;
pub mod name;
pub mod text;
