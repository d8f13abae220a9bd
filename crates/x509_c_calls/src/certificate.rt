//! What a certificate says, and where its parts stand in the bytes.

mod dates;
mod extension;
mod signature;
mod view;
mod whole;

pub use dates::certificate_out_of_date;
pub use extension::{ExtensionView, certificate_extension};
pub(crate) use signature::signature_of;
pub use signature::{SignatureView, certificate_signature};
pub(crate) use view::view_of;
pub use view::{CertificateView, is_written, seconds};
pub use whole::certificate_view;
