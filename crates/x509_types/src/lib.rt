//! Types by their public names: bytes of a type are decoded, and the value is encoded again. Here are the types of names and
//! below; those of extensions, certificates and what stands on them are in `x509_all_types`. Words of our own are explained
//! in `docs/MAP.md`.
//!
//! A table is made of parts. Each has the types of one layer, and hands a name that it doesn't have to the next. The
//! last is [`Numbers`]. A type joins by two lines in the file of its layer: one of the match, and one of the table above
//! it.
#![tactic(auto)]

mod base;
mod by_profile;
pub mod laws;
mod name;
mod numbers;
mod primitive;
mod reencode;
mod table;
mod types;

pub use base::Base;
pub use by_profile::ByProfile;
pub use name::Names;
pub use numbers::Numbers;
pub use primitive::Primitives;
pub use reencode::Reencode;
pub use table::{Nothing, Table};
pub use types::NameTypes;
