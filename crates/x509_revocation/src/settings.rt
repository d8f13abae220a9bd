//! What a status is asked with.

use x509_base::DateTime;

/// For which time a status is asked, and which CRLs are used.
#[derive(Clone, Copy, Debug, PartialEq, Eq)]
pub struct RevocationSettings {
    /// The time.
    pub moment: DateTime,

    /// Whether a CRL is in date that doesn't say by when the next one will be issued, which RFC 5280 5.1.2.5 wants each to
    /// say.
    pub without_next_update: bool,

    /// Whether delta CRLs are used (RFC 5280 6.3.1 (b)).
    pub use_deltas: bool,
}
