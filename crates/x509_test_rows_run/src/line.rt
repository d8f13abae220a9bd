//! The line at hand.

ghost use Rattle.std.specs.Prelude.{◌≡◌, ◌≢◌, ◌↔◌, ◌++◌, ℕ, List, [], IsTrue};
ghost use Rattle.x509_test_rows_run.specs.Lines.{Keeps};

use std::alloc::Global;
use x509_der::ErrorKind;

/// The most bytes of a line that is kept.
pub const LINE_LIMIT: usize = 536_871_936;

/// The bytes since the last line feed. Where they are too many, or memory ran out, they are dropped, and the error
/// stands in their place.
#[derive(Drop)]
pub struct Line {
    pub(crate) kept: Vec<u8>,
    pub(crate) fault: Option<ErrorKind>,
}

impl Line {
    /// No bytes.
    pub fn new(alloc: Global) -> Line
        ensures { Keeps result.kept.items result.fault [] }
    {
        Line {
            kept: Vec::new(alloc),
            fault: None,
        }
    }

    /// Whether no byte came.
    pub fn is_empty(&self) -> bool
        ensures { (rest : List ℕ) → Keeps self.now.kept.items self.now.fault rest → IsTrue result ↔ (rest ≡ []) }
    {
        self.fault.is_none() && self.kept.is_empty()
    }

    /// Adds bytes that come after those that came.
    pub fn add(&mut self, piece: &[u8])
        ensures { (rest : List ℕ) → Keeps self.old.kept.items self.old.fault rest
            → Keeps self.new.kept.items self.new.fault (rest ++ piece.now) }
    {
        if self.fault.is_some() || piece.is_empty() {
            return;
        }
        if piece.len() > LINE_LIMIT.saturating_sub(self.kept.len()) {
            self.kept.clear();
            self.fault = Some(ErrorKind::Overlength);
        } else if self.kept.extend_from_slice(piece).is_err() {
            self.kept.clear();
            self.fault = Some(ErrorKind::Memory);
        }
    }

    /// Starts anew, in the memory that it has.
    pub fn clear(&mut self)
        ensures { Keeps self.new.kept.items self.new.fault [] }
    {
        self.kept.clear();
        self.fault = None;
    }
}
