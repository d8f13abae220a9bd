//! Names of hosts (RFC 1034 3.5, RFC 1123 2.1): hosts as name constraints compare them, DNS names as a peer has them, names in the
//! preferred syntax as a certificate has them, and wildcards.
//!
//! Words of our own are explained in `docs/MAP.md`.
#![tactic(auto)]

mod labels;
mod names;
mod wildcard;

pub use labels::{are_ldh_labels, is_label_octet};
pub use names::{is_dns_name, is_host, is_same, without_root};
pub use wildcard::{behind_wildcard, is_host_or_wildcard, is_preferred_name, is_wildcard_of};
