//! Trust anchors, from which certification paths start (RFC 5914).

mod cert_path_controls;
mod cert_policies;
pub(crate) mod laws;
mod trust_anchor_choice;
mod trust_anchor_info;
mod version;

pub use crate::certificate::CertificateInner;
pub use cert_path_controls::CertPathControls;
pub use cert_policies::{CertPolicies, CertPolicyFlags};
pub use trust_anchor_choice::TrustAnchorChoice;
pub use trust_anchor_info::TrustAnchorInfo;
pub use version::Version;
