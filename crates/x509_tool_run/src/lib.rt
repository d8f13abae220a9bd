//! A program over lines of hex text and of names: its words, its input, its answer and its status. What it makes of the
//! bytes is for a [`Codec`](x509_codec::Codec), a [`NameCodec`](x509_codec::NameCodec) and a [`PathCodec`](x509_codec::PathCodec) to say. Words of our own are
//! explained in `docs/MAP.md`.
#![tactic(auto)]

mod arguments;
mod command;
mod information;
mod input;
pub mod laws;
mod output;
mod path;
mod pem;
mod program;
mod refusal;
mod scan;
mod version;

pub use arguments::{Arguments, words};
pub use command::{Command, Kind, path_asked};
pub use information::Information;
pub use input::{INPUT_LIMIT, READ_LIMIT, ReadError, Source, read_input};
pub use output::{Sink, WriteError, write_text, write_texts};
pub use pem::{ends_line, pem_objects};
pub use program::{bytes_of, refuse_memory, run, run_without_paths};
pub use refusal::Refusal;
pub use scan::{Broken, Scan, Stage};
pub use version::VERSION;
