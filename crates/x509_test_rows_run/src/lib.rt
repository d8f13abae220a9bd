//! A run over lines of a type's name, a profile and a hex text: an answer to each. What it makes of the bytes is a codec's.
//! Words of our own, such as row, are explained in `docs/MAP.md`.
#![tactic(auto)]

mod line;
mod lines;
mod output;
mod program;
mod row;

pub use line::{LINE_LIMIT, Line};
pub use program::run;
pub use row::answer_row;
