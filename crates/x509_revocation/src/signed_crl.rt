//! CRLs with their signers.

use x509_check::CrlRef;
use x509_path::AnchorRef;

/// A CRL, and the name and the key under which it is to be verified. That the key may sign CRLs under this name is the
/// caller's to validate (RFC 5280 6.3.3 (f)): it is that of the certificate's issuer, or of another certificate with this
/// subject, and the key usage there, if any, has cRLSign. A delta CRL is verified for the key of the complete one's signer, and its
/// own signer isn't asked (6.3.3 (h)).
#[derive(Clone, Copy, Debug)]
pub struct SignedCrl<'c, 'a> {
    /// The CRL.
    pub crl: &'c CrlRef<'a>,

    /// Its signer.
    pub signer: AnchorRef<'a>,
}
