//! Certificates, CRLs, CSRs and trust anchors as text for people, or as JSON.
//!
//! What is printed of a value is a stated text of it: a line for each thing that is said, which is a label and a text. The definitions
//! stand in `specs/`, a line of theirs for each line that is printed. No text that an object holds can end its line. Words of our own
//! are explained in `docs/MAP.md`.
#![tactic(auto)]

mod algorithms;
mod anchors;
mod certificates;
mod crls;
mod digits;
mod documents;
mod extensions;
mod general_names;
mod line;
mod names;
mod objects;
mod piece;
mod pieces;
mod points;
mod policies;
mod qualifiers;
mod requests;
mod revocation;
mod show;
mod timestamps;
mod usages;
mod values;

pub use algorithms::{bits_of_octet, key_size};
pub use documents::{anchor_text, certificate_text, crl_text, request_text};
pub use line::{Depth, Style, write_json_text};
pub use names::{NAMES, Row, name_of};
pub use objects::{Kind, document_of_bytes, document_of_kind, show_bytes, show_kind};
pub use pieces::{CrlPieces, Document};
