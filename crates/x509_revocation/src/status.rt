//! What is answered.

use x509_base::Time;
use x509_ext::pkix::CrlReason;
use x509_ext::pkix::crl::dp::ReasonFlags;

/// The status of a certificate by some CRLs (RFC 5280 6.3.3).
#[derive(Clone, Copy, Debug, PartialEq, Eq)]
pub enum RevocationStatus {
    /// The CRLs cover all reasons, and the certificate isn't revoked.
    Unrevoked,

    /// The certificate is revoked.
    Revoked {
        /// The place of the CRL that says so, from 0.
        crl: usize,

        /// When it was revoked.
        date: Time,

        /// Why; `Unspecified` where the entry gives no reason that can be decoded.
        reason: CrlReason,
    },

    /// No CRL says that the certificate is revoked, and they don't cover all reasons.
    Undetermined {
        /// The reasons that no CRL covered.
        reasons: ReasonFlags,
    },
}

/// That a certificate is revoked.
#[derive(Clone, Copy)]
pub(crate) struct Revocation {
    /// The place of the CRL that says so, from 0.
    pub(crate) crl: usize,

    /// When it was revoked.
    pub(crate) date: Time,

    /// Why.
    pub(crate) reason: CrlReason,
}
