//! The rules on certificates (RFC 5280; their keys and signatures: RFC 3279, 4055, 5480, 5758, 8017, 8410, 8813, 9295; what stands in names and extensions: RFC 3739, 3986,
//! 4519, 4985, 5891, 6818, 6960, 6962, 7633, 9598, X.501), CRLs (RFC 5280), CSRs (RFC 2986, 2985) and trust anchors (RFC 5914) that no grammar has: which of them an object
//! breaks.
//!
//! Words of our own are explained in `docs/MAP.md`.
#![tactic(auto)]

mod algorithms;
mod anchor;
mod asserted;
mod basic_constraints;
mod beyond;
mod certificate;
mod crl;
mod dates;
mod entries;
mod entry;
pub mod extensions;
mod facts;
mod group;
pub mod labels;
pub mod lists;
mod names;
mod notices;
mod other_types;
mod places;
mod read;
mod repeats;
mod report;
mod request;
pub mod rule;
pub mod seen;
mod skip_certs;
mod texts;
mod times;
mod uris;
mod values;

pub use anchor::lint_anchor;
pub use basic_constraints::AnyBasicConstraints;
pub use certificate::lint_certificate;
pub use crl::lint_crl;
pub use entry::{Entry, Severity};
pub use report::{Kind, Report, Style, json_line, lint_bytes, lint_kind};
pub use request::lint_request;
pub use rule::Rule;
