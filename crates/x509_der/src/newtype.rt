//! Types with one field.

use crate::clone::TryClone;
use crate::content::Content;
use crate::decode::Decode;
use crate::encode::Encode;
use crate::grammar::FixedTag;
use crate::room::Room;
use crate::{Error, Tag};
use std::alloc::Global;

/// A type with one field, which is copied, decoded and encoded as that field is. From it come [`Content`] and
/// [`TryClone`].
pub trait Newtype: Sized {
    ghost use Rattle.std.specs.Prelude.{◌≡◌};
    ghost use Rattle.x509_der.specs.Round.{Round};

    /// The type of the value within.
    type Inner;

    /// Each value of the type is one value within, and nothing else.
    ghost round: { Round Self Self.Inner };

    /// The value within.
    fn inner(&self) -> &Self::Inner
        ensures { result.now ≡ round.to self.now };

    /// The value round it.
    fn from_inner(inner: Self::Inner) -> Self
        ensures { result ≡ round.from inner };
}

impl<T: Newtype> TryClone for T
where
    T::Inner: TryClone,
{
    fn try_clone(&self, alloc: Global) -> Result<T, Error> {
        Ok(T::from_inner(self.inner().try_clone(alloc)?))
    }
}

#[tactic(auto, using(crate::specs::Round::round_within, crate::specs::Round::round_refusal))]
impl<T: Newtype> Content for T
where
    T::Inner: FixedTag,
{
    ghost use Rattle.x509_der.specs.Tag.{octet_of};
    ghost use Rattle.x509_der.specs.Form.{contents_of};
    ghost use Rattle.x509_der.specs.FormLaws.{contents_of_lawful};
    ghost use Rattle.x509_der.specs.Round.{round_contents, round_writing, round_lawful};

    ghost contents = { round_contents T.round (contents_of (octet_of T.Inner.TAG) T.Inner.form) };

    ghost refusals = { T.Inner.refuses };

    ghost takes_memory = { T.Inner.wants_memory };

    ghost written_as = { round_writing T.round T.Inner.writing };

    ghost IDENTIFIER = { T.Inner.TAG };

    const IDENTIFIER: Tag = T::Inner::TAG;

    #[inline(always)]
    fn read_content(alloc: Global, octets: &[u8]) -> Result<T, Error> {
        Ok(T::from_inner(T::Inner::read(alloc, T::Inner::TAG.octet(), octets)?))
    }

    fn write_content<R: Room>(&self, room: &mut R) -> Result<(), Error> {
        self.inner().put_content(room)
    }

    ghost contents_lawful = { round_lawful T.round (contents_of (octet_of T.Inner.TAG) T.Inner.form)
        (contents_of_lawful (octet_of T.Inner.TAG) T.Inner.form T.Inner.fixed T.Inner.lawful) };
}
