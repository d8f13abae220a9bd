//! PKCS #10 requests (CSRs; RFC 2986), and the attributes that they hold.

pub mod attributes;
mod cert_req;
mod extension_req;
mod look_up;
mod version;

pub use cert_req::{CertReq, CertReqInfo};
pub use extension_req::{ExtensionReq, extension_req_attribute};
pub use look_up::get_attribute;
pub use version::Version;
