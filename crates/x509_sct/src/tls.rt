//! The presentation language of TLS (RFC 5246 section 4): fields, and values that are their fields one after the other.
//! A form is the grammar of a type as one record; this and other words of our own are explained in `docs/MAP.md`.

mod error;
pub mod laws;
mod list;
mod named;
mod numbers;
mod octets;
mod tls;
mod vector;

pub use error::TlsError;
pub use list::{TlsItem, read_list, serialize_list};
pub use named::NamedByte;
pub use tls::{Tls, read_whole};
pub use vector::{TlsByteVecU16, put_vector24, serialize_vector, vector24_len};
