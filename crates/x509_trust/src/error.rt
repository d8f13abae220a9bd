//! Why a certificate isn't to be trusted as a peer's.

use x509_revocation::RevocationStatus;
use x509_verify::FindError;

/// A certificate that isn't let through, by its status (RFC 5280 6.3.3).
#[derive(Clone, Copy, Debug)]
pub struct RefusedCertificate<'a> {
    /// Its encoding.
    pub certificate: &'a [u8],

    /// Its status.
    pub status: RevocationStatus,
}

/// Why a certificate isn't to be trusted as a peer's.
#[derive(Debug, Drop)]
pub enum VerifyError<'a> {
    /// It doesn't name the peer (RFC 9525 6; of e-mail RFC 5280 4.2.1.6).
    OtherName,

    /// No path is found, whatever the statuses of certificates are: what [`find_path`](x509_verify::find_path) tells. Out of memory
    /// and limits that are reached are told by this too, wherever they come.
    Path(FindError<'a>),

    /// No path has only certificates that are let through by their statuses: this is the certificate that was asked for, or a
    /// candidate that stands in a path that is valid else.
    Revocation(RefusedCertificate<'a>),

    /// More candidates aren't let through by their statuses than may be left out. Whether there is a path isn't known.
    TooManyRefused,
}
