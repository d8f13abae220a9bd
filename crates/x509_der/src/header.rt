//! Headers of elements.

ghost use Rattle.std.specs.Prelude.{◌≡◌};

use crate::length::Length;
use crate::tag::Tag;

/// The identifier of an element and the length of its content (X.690 8.1.2, 8.1.3).
#[derive(Clone, Copy, Debug, PartialEq, Eq)]
pub struct Header {
    /// The identifier.
    pub tag: Tag,

    /// The length of the content.
    pub length: Length,
}

impl Header {
    /// The header of an element with that identifier and that length of content.
    pub fn new(tag: Tag, length: Length) -> Header
        ensures { result ≡ record { tag = tag; length = length } }
    {
        Header { tag, length }
    }
}
