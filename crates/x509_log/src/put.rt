//! Octets and elements as parts that are put into a room.

ghost use Rattle.x509_der.specs.Element.{element};
ghost use Rattle.x509_der.specs.Writing.{Puts};

use crate::members::KeyIdentifier;
use x509_der::{AssociatedOid, Error, PutPart, Room, defaulted, put_header};
use x509_ext::pkix::AuthorityKeyIdentifier;

/// Octets, as they stand.
#[derive(Clone, Copy)]
pub(crate) struct Octets<'a>(pub(crate) &'a [u8]);

impl PutPart for Octets<'_> {
    ghost use Rattle.std.specs.Prelude.{None};

    ghost text = { λ octets. octets.0.now };

    ghost refusal = { λ octets. None };

    #[inline(always)]
    fn put_part<R: Room>(&self, room: &mut R) -> Result<(), Error> {
        room.put(self.0)
    }
}

/// Puts the part as the content of an element. The content stands before its header is put.
#[inline(always)]
pub(crate) fn put_in_element<P: PutPart, R: Room>(
    part: &P,
    tag: u8,
    room: &mut R,
) -> Result<(), Error>
    ensures { Puts R.kind (element tag (P.text part.now)) (P.refusal part.now) result room.old room.new }
{
    let before = room.len();
    part.put_part(room)?;
    let len = room.len() - before;
    put_header(tag, len as u32, room)
}

/// An element, as it stands, which may be left out.
#[derive(Clone, Copy)]
pub(crate) struct Optional<'a>(pub(crate) Option<&'a [u8]>);

impl PutPart for Optional<'_> {
    ghost use Rattle.std.specs.Prelude.{None, option_copied};
    ghost use Rattle.x509_der.specs.Frames.{optional_octets};

    ghost text = { λ part. optional_octets (λ x. x) (option_copied part.0) };

    ghost refusal = { λ part. None };

    #[tactic(auto, using(x509_der::specs::WritingLaws::puts_nothing))]
    #[inline(always)]
    fn put_part<R: Room>(&self, room: &mut R) -> Result<(), Error> {
        match self.0 {
            None => Ok(()),
            Some(element) => room.put(element),
        }
    }
}

/// An element, as it stands, inside a tag with that identifier octet; it may be left out.
#[derive(Clone, Copy)]
pub(crate) struct Explicit<'a>(pub(crate) u8, pub(crate) Option<&'a [u8]>);

impl PutPart for Explicit<'_> {
    ghost use Rattle.std.specs.Prelude.{None, option_copied};
    ghost use Rattle.x509_der.specs.Element.{element};
    ghost use Rattle.x509_der.specs.Frames.{optional_octets};

    ghost text = { λ part. optional_octets (element part.0) (option_copied part.1) };

    ghost refusal = { λ part. None };

    #[tactic(auto, using(x509_der::specs::WritingLaws::puts_nothing))]
    #[inline(always)]
    fn put_part<R: Room>(&self, room: &mut R) -> Result<(), Error> {
        match self.1 {
            None => Ok(()),
            Some(element) => put_in_element(&Octets(element), self.0, room),
        }
    }
}

/// A part in an element of its own.
#[derive(Clone, Copy)]
pub(crate) struct InElement<P>(pub(crate) u8, pub(crate) P);

impl<P: PutPart> PutPart for InElement<P> {
    ghost use Rattle.x509_der.specs.Element.{element};

    ghost text = { λ part. element part.0 (P.text part.1) };

    ghost refusal = { λ part. P.refusal part.1 };

    #[inline(always)]
    fn put_part<R: Room>(&self, room: &mut R) -> Result<(), Error> {
        put_in_element(&self.1, self.0, room)
    }
}

/// An authority key identifier, or nothing.
#[derive(Clone, Copy)]
pub(crate) struct Changed<'a>(pub(crate) Option<KeyIdentifier<'a>>);

impl PutPart for Changed<'_> {
    ghost use Rattle.std.specs.Prelude.{None};
    ghost use Rattle.x509_log.specs.Logged.{changed_octets};

    ghost text = { λ part. changed_octets part.0 };

    ghost refusal = { λ part. None };

    #[tactic(auto, unfolding(x509_ext::specs::Extension::extension_fields, x509_der::specs::Frames::fields_octets), using(x509_der::specs::WritingLaws::puts_nothing))]
    fn put_part<R: Room>(&self, room: &mut R) -> Result<(), Error> {
        let Some(identifier) = self.0 else {
            return Ok(());
        };
        let oid = AuthorityKeyIdentifier::OID;
        let value = InElement(0x04, Octets(identifier.value));
        let fields = (&oid, (defaulted(&identifier.critical), value));
        put_in_element(&fields, 0x30, room)
    }
}
