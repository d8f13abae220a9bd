//! Whether CRLs say that a certificate is revoked (RFC 5280 6.3.3), over lent certificates and CRLs.
//!
//! Used are the CRLs of the certificate's issuer, and those of its distribution points, among them those for some reasons,
//! those for CA or end entity certificates alone, and indirect ones, with entries of other issuers. Delta CRLs are used with the
//! complete ones that they are to. Whose key signs the CRLs is the caller's to validate; [`may_sign_crls`] says whether a
//! certificate's may. The library has no signature algorithm: the caller hands in a
//! [`SliceVerifier`](x509_path::SliceVerifier). Words of our own are explained in `docs/MAP.md`.
#![tactic(auto)]

mod dates;
mod deltas;
mod entries;
mod extensions;
mod fault;
mod faults;
mod issuers;
pub mod laws;
mod names;
mod numbers;
mod older_crl;
mod points;
mod reasons;
mod revocation;
mod scope;
mod settings;
mod signed_crl;
mod signers;
mod status;
mod steps;

pub use fault::CrlFault;
pub use faults::crl_fault;
pub use revocation::revocation_status;
pub use settings::RevocationSettings;
pub use signed_crl::SignedCrl;
pub use signers::may_sign_crls;
pub use status::RevocationStatus;
