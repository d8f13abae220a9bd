//! Names that are made of values: attributes of texts, RDNs of attributes, names of RDNs, and the escapes of a text.
//!
//! Here nothing of a value is taken for a part of the name, as it is where a text of a name is put together by hand.

mod attribute;
mod escaped;
mod parts;
mod string_type;

pub use attribute::attribute_of;
pub use escaped::Escaped;
pub use parts::{name_of, relative_name_of};
pub use string_type::StringType;
