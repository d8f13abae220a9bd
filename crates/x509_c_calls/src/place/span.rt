//! A part of bytes.

/// A part of bytes: where it begins, and how many octets it has.
#[derive(Clone, Copy)]
#[repr(C)]
pub struct Span {
    /// How many octets stand in front of it.
    pub place: usize,

    /// How many octets it has.
    pub len: usize,
}
