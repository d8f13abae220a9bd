//! The calls on types by their names, and on names as texts, over any codec of them.

mod equal;
mod matching;
mod name;
mod reencode;
mod text;

pub use equal::names_equal;
pub use matching::names_match;
pub use name::{name_from_text, name_text};
pub use reencode::reencode_named;
pub(crate) use text::text_of;
