//! What a valid path gives.

use x509_check::CertificateRef;
use x509_path::AnchorRef;

/// What a valid path gives (RFC 5280 6.1.6).
#[derive(Debug, Drop)]
pub struct Validated<'a> {
    /// The subject and the public key of the last certificate, lent from it.
    pub subject: AnchorRef<'a>,

    /// The parameters with which that key is used, as their element: those of its algorithm, or where these are left out or
    /// NULL those of the nearest key above it that has any, where each key between is of the same algorithm; none where there
    /// are none (RFC 5280 6.1.4 (d) to (f)).
    pub parameters: Option<&'a [u8]>,

    /// The policies under which the path is valid, the user-constrained policy set: each once, as the content octets of its
    /// OID, lent from a certificate, from what is trusted or from the settings. Any-policy is one of them. There are none
    /// where the certificates name none and none is asked for.
    pub policies: Vec<&'a [u8]>,

    /// The certificates of the path, the topmost first, lent from their bytes: a caller who verifies the signatures has in them the
    /// signed parts, the algorithms, the signatures and the keys, without another walk over the bytes.
    pub certificates: Vec<CertificateRef<'a>>,
}
