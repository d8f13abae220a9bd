//! The rules of the Baseline Requirements for TLS server certificates (TLS BR) of the CA/Browser Forum, of version 2.0 and later, that a certificate
//! alone shows: which of those in force at a moment it breaks.
//!
//! Words of our own are explained in `docs/MAP.md`.
#![tactic(auto)]

mod addresses;
mod algorithms;
mod common_names;
mod constraints;
mod countries;
mod day;
mod entry;
mod factors;
mod hosts;
mod keys;
mod labels;
mod lint;
mod names;
mod numbers;
mod orders;
mod places;
mod policies;
mod precertificates;
mod report;
mod responders;
mod roots;
pub mod rule;
mod scope;
mod seen;
mod subjects;
mod times;
mod usages;
mod values;

pub use day::Day;
pub use entry::WebEntry;
pub use lint::lint_web;
pub use report::lint_web_bytes;
pub use rule::WebRule;
