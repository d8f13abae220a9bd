//! The bytes that a signature is over, as they stand in what was signed, and the fields of a certificate, lent from its
//! bytes. A signed part is TBSCertificate, TBSCertList or CertificationRequestInfo.

pub(crate) mod certificate_slices;
pub(crate) mod laws;
mod lent;
pub(crate) mod slice;
