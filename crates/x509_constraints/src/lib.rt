//! Name constraints (RFC 5280 4.2.1.10, 6.1.3 (b), (c), 6.1.4 (g)): which names are permitted and not excluded.
//!
//! Words of our own are explained in `docs/MAP.md`.
#![tactic(auto)]

mod address;
mod comparable;
mod distinguished;
mod email;
mod form;
mod host_keys;
mod key;
mod marks;
mod merging;
mod prefixes;
mod sets;
mod stacks;
mod subtree_keys;
mod uri;
mod usable;

pub use address::{is_address, is_address_subtree};
pub use email::{is_mailbox, split_mailbox};
pub use key::Key;
pub use prefixes::Prefixes;
pub use sets::ConstraintSets;
pub use uri::host_of_uri;
pub use usable::is_usable;
