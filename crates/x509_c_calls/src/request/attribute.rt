//! The attributes of a CSR.

use crate::{Span, View, enter, step, step_content};
use x509_name::attr::Attribute;

/// An attribute of a CSR (RFC 2986 4.1), by its place.
#[derive(Clone, Copy)]
#[repr(C)]
pub struct RequestAttributeView {
    /// Where the content octets of the OID of its type stand.
    pub oid: Span,

    /// Where its values stand, a whole SET.
    pub values: Span,
}

impl View for RequestAttributeView {
    ghost use Rattle.x509_c_calls.specs.RequestAttributes.{IsRequestAttribute};

    type Value = Attribute;

    ghost shows = { IsRequestAttribute };

    fn view(input: &[u8], place: usize, _value: &Attribute) -> RequestAttributeView {
        let mut at = place;
        enter(input, &mut at);
        let oid = step_content(input, &mut at);
        RequestAttributeView {
            oid,
            values: step(input, &mut at, true),
        }
    }
}
