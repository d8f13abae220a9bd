//! The attributes of names.

use crate::payloads::calls::View;
use crate::payloads::walk::{content_at, step_content};
use crate::{Span, enter, step};
use x509_name::attr::AttributeTypeAndValue;

/// An attribute of a name (RFC 5280 4.1.2.4), by its place in the bytes of a relative distinguished name.
#[derive(Clone, Copy)]
#[repr(C)]
pub struct AttributeView {
    /// Where the content octets of its type stand.
    pub oid: Span,

    /// The identifier octet of its value.
    pub tag: u32,

    /// Where its value stands, a whole element.
    pub element: Span,

    /// Where the content octets of its value stand.
    pub content: Span,
}

impl View for AttributeView {
    ghost use Rattle.x509_c_calls.specs.Attributes.{IsAttribute};

    type Value = AttributeTypeAndValue;

    ghost shows = { IsAttribute };

    fn view(input: &[u8], place: usize, value: &AttributeTypeAndValue) -> AttributeView {
        let mut at = place;
        enter(input, &mut at);
        let oid = step_content(input, &mut at);
        let content = content_at(input, at);
        AttributeView {
            oid,
            tag: u32::from(value.value.tag().octet()),
            element: step(input, &mut at, true),
            content,
        }
    }
}
