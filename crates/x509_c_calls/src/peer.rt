//! Names of peers (RFC 9525): texts of them, and whether a certificate names one.

mod email;
mod matching;
mod server;

pub use email::{EmailView, email_address};
pub use matching::{certificate_matches_email, certificate_matches_name};
pub use server::{ServerNameView, server_name};
