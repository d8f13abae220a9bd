//! A program over objects: its words, its inputs, which are DER, PEM or hex text, what it prints, its messages, and its status. A SignedData (RFC
//! 5652) stands for the certificates and CRLs in it. What it prints of an object is for a [`Printer`] to say, and which printer its words ask for
//! for an [`Asked`]. Words of our own are explained in `docs/MAP.md`.
#![tactic(auto)]

mod below;
mod console;
mod fault;
mod files;
mod heading;
mod input;
mod label;
mod lines;
mod messages;
mod named;
mod objects;
mod printer;
mod program;
mod shown;
mod signed_data;
mod words;

pub use console::{Console, Counter};
pub use fault::{
    Fault, Looks, OpenError, PrintError, fault_words, is_whole, looks_of, whole_words,
};
pub use files::{Listed, Opener, Place};
pub use heading::{Headed, Heading, write_headed};
pub use input::object_bytes;
pub use label::word_label;
pub use messages::{say, tell_of_input};
pub use named::read_named;
pub use printer::{Asked, Printer};
pub use program::{obey, refuse_memory, run, show_all};
pub use words::{Words, has_option, split};
