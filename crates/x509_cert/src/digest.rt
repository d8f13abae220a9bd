//! Digests of the encodings of values.

pub(crate) mod digest;
pub(crate) mod encoding;
