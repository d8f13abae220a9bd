//! Attributes of names and of CSRs.

pub use x509_name::attr::{
    Attribute, AttributeType, AttributeTypeAndValue, AttributeValue, Attributes, attribute_types,
};
