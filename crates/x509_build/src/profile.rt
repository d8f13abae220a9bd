//! Profiles: which names and extensions certificates of some kinds have.

mod attribute_types;
mod builder_profile;
mod ca_naming;
pub mod cabf;
pub mod devid;
mod encoding;
mod lists;
pub(crate) mod null_algorithm;
mod usages;

pub use builder_profile::BuilderProfile;
pub use null_algorithm::no_algorithm;
