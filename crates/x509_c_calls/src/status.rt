//! The status of a call from C, and the calls on any type: decoding a value, and encoding it.

mod reading;
mod room;
mod status;
mod writing;

pub use reading::{check, read};
pub use room::fill;
pub(crate) use room::put;
pub use status::Status;
pub use writing::{reencode, write};
