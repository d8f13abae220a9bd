//! What is asked of a peer's certificate.

use crate::peer::PeerName;
use crate::revocation::RevocationCheck;
use x509_validation::PathSettings;
use x509_verify::SearchLimits;

/// What is asked of a peer's certificate.
#[derive(Clone, Copy, Debug)]
pub struct VerifySettings<'n, 's, 'c, 'b, 'a> {
    /// What its path has to be; in [`PathSettings::purposes`] what the certificate is to serve for, as serverAuth (RFC 5280 4.2.1.12).
    pub path: PathSettings<'a>,

    /// How long a path is searched for, and how long it may be.
    pub limits: SearchLimits,

    /// The peer that it has to name; none where absent.
    pub name: Option<PeerName<'n>>,

    /// Which certificates of its path may not be revoked; none is asked for its status where absent.
    pub revocation: Option<RevocationCheck<'s, 'c, 'b>>,
}
