//! Certificate policies of certification paths (RFC 5280 6.1, RFC 9618): what the valid policy tree says of a path, and
//! the calls that answer the same by a graph with one set of policies a certificate.
#![tactic(auto)]

mod anchor;
mod checks;
mod counters;
pub mod laws;
mod level;
mod set;
mod state;
mod values;
mod way_back;

pub use anchor::{AnchorFlags, merged_policies};
pub use checks::{ANY_POLICY, has_policy, is_any_policy, maps_any_policy};
pub use counters::PolicyCounters;
pub use set::PolicySet;
pub use state::{PolicyOutcome, PolicyReason, PolicyState, check_policies};
pub use values::{MappingView, PolicySettings, PolicyView};
