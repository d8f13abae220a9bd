//! Whether attributes, RDNs and names match (RFC 5280 7.1), and keys of them that are equal where they do. Texts are
//! compared as RFC 4518 prepares them, with the data of Unicode 18. Words of our own, such as law, are explained in
//! `docs/MAP.md`.
#![tactic(auto)]

mod attribute;
mod checked;
mod encoded;
mod key;
pub mod laws;
mod lent;
mod names;
mod plain;
mod text;
mod value;

pub use checked::checked_names_match;
pub use encoded::encoded_names_match;
pub use key::{MatchedName, RdnKey, attribute_key};
pub use names::{MAX_IN_PLACE, attributes_match, names_match, rdns_match};
pub use value::is_compared;
