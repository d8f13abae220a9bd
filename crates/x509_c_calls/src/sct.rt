//! The signed certificate timestamps (SCTs) of a certificate, one after the other, and what each says.

mod timestamp;
mod walk;

pub(crate) use timestamp::refusal_of;
pub use timestamp::{TimestampView, timestamp_view};
pub use walk::timestamp_next;
