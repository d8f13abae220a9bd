//! Why no path is found.

use crate::refusal::Refusal;
use x509_validation::ValidationReason;

/// Why no path is found.
#[derive(Debug, Drop)]
pub enum FindError<'a> {
    /// Out of memory.
    Memory,

    /// To try all paths takes more steps, paths or signatures than are allowed. Whether there is a path isn't known.
    Limit,

    /// The bytes aren't the encoding of a certificate.
    Decode,

    /// There is no path, since the certificate isn't valid in any, whatever stands above it
    /// ([`last_fault`](x509_validation::last_fault)): the first thing that is wrong with it.
    Leaf(ValidationReason),

    /// There is no path, since no candidates lead by their names from what is trusted to the certificate: one of the issuers isn't
    /// known.
    UnknownIssuer,

    /// There is no path. Of those that lead by their names to the certificate this is the one of which the fewest certificates are
    /// left, from the first fault on.
    Refused(Refusal<'a>),
}
