//! Elements of any type.

use crate::payloads::calls::View;
use crate::payloads::walk::content_at;
use crate::{Span, step};
use x509_der::Any;

/// An element (X.690 8.1), by its place.
#[derive(Clone, Copy)]
#[repr(C)]
pub struct ElementView {
    /// Its identifier octet.
    pub tag: u32,

    /// Where it stands, with its identifier and length octets.
    pub element: Span,

    /// Where its content octets stand.
    pub content: Span,
}

impl View for ElementView {
    ghost use Rattle.x509_c_calls.specs.Elements.{IsElement};

    type Value = Any;

    ghost shows = { IsElement };

    fn view(input: &[u8], place: usize, value: &Any) -> ElementView {
        let content = content_at(input, place);
        let mut at = place;
        ElementView {
            tag: u32::from(value.tag().octet()),
            element: step(input, &mut at, true),
            content,
        }
    }
}
