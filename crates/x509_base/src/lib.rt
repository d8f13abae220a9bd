//! Serial numbers, times, profiles, validity and keys of certificates. Times are seconds since 1970, with their texts and
//! content octets. A profile says which serial numbers decoding allows and how dates are encoded; words of our own are
//! explained in `docs/MAP.md`.
#![tactic(auto)]

mod algorithm_identifier;
mod date_time;
mod generalized_time;
mod generate;
pub mod laws;
mod profile;
mod serial_number;
mod subject_public_key_info;
mod subject_public_key_info_ref;
mod time;
mod utc_time;
mod validity;

pub use algorithm_identifier::AlgorithmIdentifier;
pub use date_time::DateTime;
pub use generalized_time::GeneralizedTime;
pub use profile::{Profile, Raw, Rfc5280};
pub use serial_number::SerialNumber;
pub use subject_public_key_info::SubjectPublicKeyInfo;
pub use subject_public_key_info_ref::SubjectPublicKeyInfoRef;
pub use time::Time;
pub use utc_time::UtcTime;
pub use validity::Validity;
