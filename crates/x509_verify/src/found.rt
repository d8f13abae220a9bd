//! What a search finds.

use x509_validation::{Trusted, Validated};

/// A path that was found, and what it gives.
#[derive(Debug, Drop)]
pub struct Found<'a> {
    /// What it is under.
    pub trusted: Trusted<'a>,

    /// The certificates, topmost first: candidates, and the one that was asked for as the last.
    pub path: Vec<&'a [u8]>,

    /// What a valid path gives.
    pub validated: Validated<'a>,
}
