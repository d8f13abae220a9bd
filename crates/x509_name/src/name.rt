//! Relative distinguished names (RDNs), sequences of them, and names; DirectoryString, a text of a name.

pub(crate) mod directory_string;
mod iterators;
mod look_up;
mod name;
mod rdn;
mod rdn_sequence;
mod short;
mod text;
pub(crate) mod text_ref;

pub use directory_string::DirectoryString;
pub use iterators::{NameIter, RdnIter, RdnSequenceIter};
pub use name::Name;
pub use rdn::RelativeDistinguishedName;
pub use rdn_sequence::{DistinguishedName, RdnSequence};
pub use text_ref::TextRef;
