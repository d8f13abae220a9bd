//! Public keys, algorithms and signatures: of which kind they are, and where their parts stand.

mod algorithm;
mod key;
mod kinds;
mod rsa;
mod signed;
mod working;

pub use algorithm::AlgorithmView;
pub use key::{KeyView, key_view};
pub use kinds::{KeyKind, SignatureKind};
pub use rsa::{RsaKeyView, RsaPublicKey, rsa_key};
pub use signed::signature_at;
pub use working::working_key;
