//! What a table of types, a decoder of names and a checker of paths answer: the traits between the library's types and those
//! that ask for a type by its name, as programs and callers from C do. Words of our own are explained in `docs/MAP.md`.
#![tactic(auto)]

mod codec;
mod profile_name;
mod signatures;

pub use codec::{Codec, NameCodec, PathCodec};
pub use profile_name::ProfileName;
pub use signatures::Signatures;
