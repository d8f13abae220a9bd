//! The calls from C, which `include/x509.h` declares. Each is a call of the libraries below, and answers its status as
//! a number. The parameter `room` is the caller's buffer for what is written. Words of our own are explained in
//! `docs/MAP.md`.
#![tactic(auto)]

mod anchor;
mod build;
mod certificate;
mod described;
mod document;
mod key;
mod lint;
mod list;
mod log;
mod name;
mod name_values;
mod party;
mod path;
mod payload;
mod peer;
mod point;
mod policy;
mod profile;
mod request;
mod revocation;
mod subtree;
mod text;
mod timestamp;
mod whole;
