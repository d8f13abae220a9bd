//! What the texts of names are made of: the table of attribute names, escapes, and the splitting at separators.

pub(crate) mod attributes;
pub(crate) mod escapes;
pub(crate) mod hex_text;
pub(crate) mod keys;
pub(crate) mod parts;
pub(crate) mod printing;

pub use attributes::{read_attribute, write_attribute};
pub use escapes::unescape;
pub use keys::{KEYS, Key, Row, TextType, key_named, key_of, tag_for};
pub use parts::{Parts, count_parts};
pub use printing::write_escaped;
