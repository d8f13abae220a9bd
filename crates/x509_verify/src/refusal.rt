//! Why a path isn't valid.

use x509_validation::{Trusted, ValidationFault};

/// A path whose names are linked from what is trusted to the certificate, and that isn't valid.
#[derive(Debug, Drop)]
pub struct Refusal<'a> {
    /// What it is under.
    pub trusted: Trusted<'a>,

    /// The certificates, topmost first.
    pub path: Vec<&'a [u8]>,

    /// A fault that it has: the first one of the lowest place apart from signatures, else the lowest place of a signature that isn't
    /// accepted.
    pub fault: ValidationFault,
}
