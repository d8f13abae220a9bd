//! Attributes: a type with a value, as names have them, and a type with a set of values, as CSRs have them.

pub(crate) mod attribute;
pub mod attribute_types;
pub(crate) mod type_and_value;

pub use attribute::{Attribute, Attributes};
pub use type_and_value::{AttributeType, AttributeTypeAndValue, AttributeValue};
