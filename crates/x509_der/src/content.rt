//! Types with one identifier.

use crate::decode::{Decode, expect_tag};
use crate::encode::Encode;
use crate::grammar::{FixedTag, Grammar};
use crate::room::Room;
use crate::{Error, Tag};
use std::alloc::Global;

/// A type of which each value is a content under one identifier (X.690 8.1). From it come [`Grammar`], [`FixedTag`],
/// [`Decode`] and [`Encode`].
pub trait Content: Sized {
    ghost use Rattle.std.specs.Prelude.{◌≡◌, IfErr};
    ghost use Rattle.x509_der.specs.Outcome.{Gives};
    ghost use Rattle.x509_der.specs.declared.error.ErrorKind.{ErrorKind};
    ghost use Rattle.x509_der.specs.declared.error.ErrorKind.TheVariants.{Memory};
    ghost use Rattle.x509_der.specs.declared.tag.Tag.{Tag};
    ghost use Rattle.x509_der.specs.Form.{Contents, IsContents};
    ghost use Rattle.x509_der.specs.Writing.{Writing, plain, writes, Puts};

    ghost contents: { Contents Self };

    /// The errors of decoding besides `Malformed`.
    ghost refusals: { ErrorKind → Type 0 } = { λ _. ⊥ };

    /// Whether decoding may take memory.
    ghost takes_memory: { Type 0 } = { Unit };

    /// How values are encoded.
    ghost written_as: { Writing Self } = { plain };

    ghost IDENTIFIER: { Tag };

    /// The identifier.
    const IDENTIFIER: Tag;

    /// The value of the content octets.
    ///
    /// # Errors
    ///
    /// `Malformed`, or an error of the type's own, exactly where they are the content octets of no value. `Memory` when
    /// out of memory, only where decoding the type may take memory.
    fn read_content(alloc: Global, octets: &[u8]) -> Result<Self, Error>
        ensures exact { Gives result (contents.reading octets.now) }
        ensures memory { IfErr result (λ e. e.kind ≡ Memory → takes_memory) };

    /// Whether the content is known to have many parts and 64 KB or more, for [`Encode::is_long`].
    fn has_long_content(&self) -> bool {
        false
    }

    /// Puts the content octets in front of the bytes that stand in the room.
    ///
    /// # Errors
    ///
    /// The error of a value that can't be encoded; `Overlength` where there is no place in the room; `Memory` when out
    /// of memory, only for a room that takes memory.
    fn write_content<R: Room>(&self, room: &mut R) -> Result<(), Error>
        ensures { Puts R.kind (contents.octets (writes written_as self.now).value) (writes written_as self.now).refusal result room.old room.new };

    ghost contents_lawful: { IsContents refusals contents };
}

impl<T: Content> Grammar for T {
    ghost use Rattle.x509_der.specs.Form.{universal};
    ghost use Rattle.x509_der.specs.FormLaws.{universal_lawful};

    ghost form = { universal T.IDENTIFIER T.contents };

    ghost refuses = { T.refusals };

    fn identifier(&self) -> Tag {
        T::IDENTIFIER
    }

    fn is_start(octet: u8) -> bool {
        octet == T::IDENTIFIER.octet()
    }

    fn usual() -> Tag {
        T::IDENTIFIER
    }

    ghost lawful = { universal_lawful T.IDENTIFIER T.contents T.contents_lawful };
}

impl<T: Content> FixedTag for T {
    ghost use Rattle.std.specs.Prelude.{refl};

    ghost TAG = { T.IDENTIFIER };

    const TAG: Tag = T::IDENTIFIER;

    ghost fixed = { λ value. refl };

    ghost starts_so = { refl };
}

impl<T: Content> Decode for T {
    ghost wants_memory = { T.takes_memory };

    #[inline(always)]
    fn read(alloc: Global, tag: u8, content: &[u8]) -> Result<T, Error> {
        expect_tag(tag, T::IDENTIFIER)?;
        T::read_content(alloc, content)
    }
}

impl<T: Content> Encode for T {
    ghost use Rattle.std.specs.Prelude.{refl};

    ghost writing = { T.written_as };

    fn put_content<R: Room>(&self, room: &mut R) -> Result<(), Error> {
        self.write_content(room)
    }

    fn is_long(&self) -> bool {
        self.has_long_content()
    }

    ghost same_tag = { λ value. refl };
}
