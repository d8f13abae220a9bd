//! Where bytes stop being a certificate, a CRL or a CSR: the first field that can't be read, and its byte offset. It is for those who tell why an
//! input is refused. No memory is taken but for words.
//!
//! Serial numbers are those of the profile [`Raw`](x509_base::Raw): any. Words of our own are explained in `docs/MAP.md`.
#![tactic(auto)]

mod field;
pub mod laws;
mod pass;
mod place;
mod walk;
mod words;

pub use field::Field;
pub use place::{Kind, Place, Refusal, farthest, first_unread, refusal_as};
pub use words::{refusal_words, wrong_words};
