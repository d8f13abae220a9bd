//! Certificate revocation lists, CRLs (RFC 5280 5.1). Their times are encoded as they are, under every profile.

mod certificate_list;
mod issuers;
mod revoked_cert;
mod tbs_cert_list;

pub use certificate_list::CertificateList;
pub use revoked_cert::RevokedCert;
pub use tbs_cert_list::TbsCertList;
