//! The calls from C on the rules that objects break, without pointers, as `x509_c_calls` has the others: which rules those are, as lines of JSON, and a walk
//! over these. Words of our own are explained in `docs/MAP.md`.
#![tactic(auto)]

mod finding;
mod object;

pub use finding::{FindingView, finding_next};
pub use object::lint_object;
