//! Certificates (RFC 5280 4.1), the profiles under which they are decoded and encoded, and what is made of their bytes.

mod certificate;
pub(crate) mod laws;
mod tbs_certificate;
mod version;

pub use crate::digest::digest::CertDigest;
pub use crate::signed::certificate_slices::{CertificateSlices, TbsCertificateSlices};
pub use crate::signed::slice::signed_slice;
pub use certificate::{Certificate, CertificateInner, PkiPath};
pub use tbs_certificate::{TbsCertificate, TbsCertificateInner};
pub use version::Version;
pub use x509_base::{Profile, Raw, Rfc5280};
pub use x509_ext::FilterExtensions;
