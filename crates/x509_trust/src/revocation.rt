//! What is asked of revocation.

use x509_revocation::{RevocationSettings, SignedCrl};

/// Which certificates of a path are asked for their status.
#[derive(Clone, Copy, Debug, PartialEq, Eq)]
pub enum RevocationScope {
    /// The last one alone.
    Leaf,

    /// Each.
    Path,
}

/// That certificates of a path aren't revoked, by CRLs at hand (RFC 5280 6.3.3).
#[derive(Clone, Copy, Debug)]
pub struct RevocationCheck<'s, 'c, 'b> {
    /// The CRLs, with their signers. That these may sign CRLs is the caller's to validate ([`SignedCrl`]).
    pub crls: &'s [SignedCrl<'c, 'b>],

    /// For which time a status is asked, and which CRLs are used.
    pub settings: RevocationSettings,

    /// Which certificates are asked for their status.
    pub scope: RevocationScope,

    /// Whether a certificate is let through of which the CRLs don't say whether it is revoked, as where there is none for it. Who
    /// withholds a CRL then gets a revoked one through.
    pub allows_undetermined: bool,

    /// How many candidates may be left out for their statuses, each of which costs another search.
    pub max_refused: u8,
}
