//! Extensions of certificates, of CRLs and of CSRs (RFC 5280 4.2): how they are made of their values, how one is found
//! among them, and in [`pkix`] what they hold. The glossary in `docs/MAP.md` explains form, good
//! value, spelling and law.
#![tactic(auto)]

mod criticality;
mod extension;
mod filter;
pub mod laws;
mod look_up;
pub mod pkix;
mod to_extension;

pub use criticality::{Always, Criticality, FixedAnswer, FixedCriticality, Never};
pub use extension::{Extension, Extensions};
pub use filter::{FilterExtensions, filter_extensions};
pub use look_up::{get_extension, has_repeated_extension, members};
pub use to_extension::ToExtension;
