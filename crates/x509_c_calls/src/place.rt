//! Places of parts in the bytes that were decoded.

mod signed;
mod span;
mod walk;

pub use signed::{signed_place, signed_span};
pub use span::Span;
pub use walk::{enter, pass, step};
