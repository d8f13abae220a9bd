//! How a field stands in its sequence: the calls with which fields are decoded and encoded.

pub(crate) mod default_value;
mod default_values;
pub(crate) mod identifiers;
pub(crate) mod part;
pub(crate) mod reading;
pub(crate) mod spelled;
