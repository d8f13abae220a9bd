//! What C calls to build: the bytes to be signed of certificates, CRLs and CSRs, for a signer elsewhere, encodings
//! of extensions, of entries of CRLs and of names, and the whole of a signed part, an algorithm and a signature.

mod assembly;
mod certificate;
mod crl;
mod device;
mod encode;
mod input;
mod name;
mod profile;
mod request;
mod root;
mod signed;
mod teller;
mod tls;

pub use assembly::assemble;
pub use certificate::build_certificate;
pub use crl::build_crl;
pub use device::build_device;
pub use encode::{entry_encode, extension_encode};
pub(crate) use input::read_each;
pub use name::{attribute_encode, build_name, escape, relative_name_encode};
pub use request::build_request;
pub use root::build_root;
pub use tls::{SubscriberUses, build_subordinate, build_subscriber};
