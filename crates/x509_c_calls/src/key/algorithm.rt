//! Algorithms.

use crate::key::kinds::SignatureKind;
use crate::{Span, View, enter, step_content, step_optional};
use x509_base::AlgorithmIdentifier;

/// An algorithm with its parameters (RFC 5280 4.1.1.2), by its place.
#[derive(Clone, Copy)]
#[repr(C)]
pub struct AlgorithmView {
    /// The number of its [`SignatureKind`].
    pub kind: u32,

    /// Where the content octets of its OID stand.
    pub oid: Span,

    /// Where its parameters stand, a whole element; both numbers are 0 where they are left out.
    pub parameters: Span,
}

impl View for AlgorithmView {
    ghost use Rattle.x509_c_calls.specs.Algorithms.{IsAlgorithm};

    type Value = AlgorithmIdentifier;

    ghost shows = { IsAlgorithm };

    fn view(input: &[u8], place: usize, value: &AlgorithmIdentifier) -> AlgorithmView {
        let mut at = place;
        enter(input, &mut at);
        AlgorithmView {
            kind: SignatureKind::of(value).number(),
            oid: step_content(input, &mut at),
            parameters: step_optional(input, &mut at, value.parameters.is_some()),
        }
    }
}
