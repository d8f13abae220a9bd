//! Documents of CRLs that come piece by piece.

ghost use Rattle.std.specs.Prelude.{IsOk};
ghost use Rattle.x509_crl_index.specs.Split.{read_entries};

use crate::line::{Depth, Place, Style};
use crate::piece::{behind_piece, entries_piece, front_piece};
use std::alloc::{AllocError, Global};
use x509_base::Raw;
use x509_cert::crl::CertificateList;
use x509_crl_index::split_crl;
use x509_der::{ErrorKind, Length};

/// What the next piece of a document is.
#[derive(Clone, Copy)]
enum Stage {
    /// What stands in front of the entries.
    Front,

    /// Entries, or what stands behind them.
    Entries,

    /// Nothing.
    Done,
}

/// The document of a CRL, which comes piece by piece. Of the entries it has the encoding alone, and decodes one at a time, so that
/// neither the entries of a long CRL nor their lines stand in memory at once.
pub struct CrlPieces<'a> {
    style: Style,
    stage: Stage,
    crl: CertificateList<Raw>,
    octets: &'a [u8],
    ghost are_entries: { IsOk (read_entries octets.now) },
}

impl Drop for CrlPieces<'_> {
    fn drop(self) {
        let CrlPieces {
            style: _,
            stage: _,
            crl: _,
            octets: _,
        } = self;
    }
}

/// A document.
#[derive(Drop)]
pub enum Document<'a> {
    /// All of it.
    Whole(String),

    /// That of a CRL, piece by piece.
    Crl(CrlPieces<'a>),
}

impl<'a> CrlPieces<'a> {
    ghost use Rattle.std.specs.Option.{option_map};
    ghost use Rattle.std.specs.Prelude.{◌≡◌, Some, IfOk, OnErr, string_bytes};
    ghost use Rattle.x509_text.specs.Objects.{shown_as};
    ghost use Rattle.x509_text.specs.Pieces.{Comes, left};
    ghost use Rattle.x509_text.specs.declared.objects.Kind.TheVariants as kinds;
    ghost use Rattle.x509_text.specs.declared.pieces.Stage.TheVariants as stages;

    /// The document of the CRL that the bytes are the encoding of, under no rules beyond the grammar (`Raw`); `None` exactly where they are
    /// that of none. All of it is checked here, one entry at a time.
    ///
    /// # Errors
    ///
    /// `AllocError` when out of memory, and nothing else.
    #[tactic(auto, unfolding(crate::specs::Objects::shown_as, crate::specs::Payloads::value_of))]
    pub fn from_der(
        alloc: Global,
        style: Style,
        bytes: &'a [u8],
    ) -> Result<Option<CrlPieces<'a>>, AllocError>
        ensures { IfOk result (λ pieces. option_map left pieces ≡ shown_as kinds.Crl style bytes.now) }
    {
        if bytes.len() > Length::MAX.as_u32() as usize {
            return Ok(None);
        }
        match split_crl(alloc, bytes) {
            Ok((crl, octets)) => Ok(Some(CrlPieces {
                style,
                stage: Stage::Front,
                crl,
                octets,
            })),
            Err(e) => match e.kind() {
                ErrorKind::Memory => Err(AllocError),
                _ => Ok(None),
            },
        }
    }

    /// The next piece, behind which what is still to come stands; `None` exactly where nothing is to come. A piece has whole lines.
    ///
    /// # Errors
    ///
    /// `AllocError` when out of memory, and nothing else; then the same piece is still to come.
    pub fn next_piece(&mut self, alloc: Global) -> Result<Option<String>, AllocError>
        ensures comes { IfOk result (λ piece. Comes self.old (option_map string_bytes piece) self.new) }
        ensures unchanged { OnErr result (self.new ≡ self.old) }
    {
        match self.stage {
            Stage::Front => {
                let piece = front_piece(alloc, self.style, &self.crl)?;
                self.stage = Stage::Entries;
                Ok(Some(piece))
            }
            Stage::Entries => Ok(Some(self.further(alloc)?)),
            Stage::Done => Ok(None),
        }
    }

    /// The next piece from the entries on.
    fn further(&mut self, alloc: Global) -> Result<String, AllocError>
        requires { self.old.stage ≡ stages.Entries }
        ensures comes { IfOk result (λ piece. Comes self.old (Some (string_bytes piece)) self.new) }
        ensures unchanged { OnErr result (self.new ≡ self.old) }
    {
        if self.octets.is_empty() {
            let piece = behind_piece(alloc, self.style, &self.crl)?;
            self.stage = Stage::Done;
            return Ok(piece);
        }
        let top = Place {
            style: self.style,
            depth: Depth::First,
        };
        let (piece, rest) = entries_piece(alloc, top, self.octets)?;
        self.octets = rest;
        Ok(piece)
    }

    /// All that is still to come, in one text.
    ///
    /// # Errors
    ///
    /// `AllocError` when out of memory, and nothing else.
    pub fn join(mut self, alloc: Global) -> Result<String, AllocError>
        ensures { IfOk result (λ text. string_bytes text ≡ left self.entry) }
    {
        let mut text = String::new(alloc);
        while let Some(piece) = self.next_piece(alloc)? {
            text.push_str(piece.as_str())?;
        }
        Ok(text)
    }
}

impl<'a> Document<'a> {
    ghost use Rattle.std.specs.Prelude.{◌≡◌, IfOk, string_bytes};
    ghost use Rattle.x509_text.specs.Pieces.{text_of};

    /// The whole document in one text.
    ///
    /// # Errors
    ///
    /// `AllocError` when out of memory, and nothing else.
    pub fn into_text(self, alloc: Global) -> Result<String, AllocError>
        ensures { IfOk result (λ text. string_bytes text ≡ text_of self.entry) }
    {
        match self {
            Document::Whole(text) => Ok(text),
            Document::Crl(pieces) => pieces.join(alloc),
        }
    }
}
