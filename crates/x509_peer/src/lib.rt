//! Names of the peer (RFC 9525): whether a certificate is that of the host or the mailbox that was meant. It is told by the
//! SubjectAltName alone, without memory.
//!
//! Words of our own are explained in `docs/MAP.md`.
#![tactic(auto)]

mod address;
mod dns;
mod email;
mod error;
pub mod laws;
mod matching;
mod peer;
mod server;

pub use dns::DnsName;
pub use email::EmailAddress;
pub use error::InvalidName;
pub use matching::{matches_email, matches_name};
pub use server::ServerName;
