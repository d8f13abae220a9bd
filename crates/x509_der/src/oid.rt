//! OBJECT IDENTIFIER (X.690 8.19): its content octets, its arcs and its dotted text.

pub(crate) mod associated;
mod codec;
pub(crate) mod content;
pub(crate) mod identifier;
pub(crate) mod numbers;
