//! The first field that can't be read, among those of a sequence.

ghost use Rattle.std.specs.Prelude.{◌≡◌, ◌+◌, ◌<◌, ◌≤◌, IfErr, IfOk, IfSome, length};
ghost use Rattle.x509_der.specs.Element.{limit};
ghost use Rattle.x509_der.specs.ElementReading.{piece_at};
ghost use Rattle.x509_der.specs.Outcome.{GivesBy};
ghost use Rattle.x509_der.specs.declared.error.ErrorKind.TheVariants.{Malformed};
ghost use Rattle.x509_refusal.specs.Unread.{closer, closest, unread_from, unread_in, unread_members};

use crate::field::Field;
use crate::pass::pass;
use crate::place::Place;
use x509_der::{Error, Piece, split_element};

/// The place of the first of the fields that can't be read, in the content octets of a sequence that end at an offset; `None` where they are all read and
/// nothing stands behind them.
pub(crate) fn unread_from(
    whole: Field,
    fields: &[Field],
    end: usize,
    octets: &[u8],
) -> Option<Place>
    requires short { length octets.now ≤ limit }
    requires within { length octets.now ≤ end }
    ensures exact { result ≡ unread_from whole end fields.now octets.now }
    ensures within { IfSome result (λ place. place.offset ≤ end) }
{
    let mut rest = octets;
    let mut others = fields;
    while let [field, behind @ ..] = others {
        let offset = end - rest.len();
        if pass(*field, &mut rest).is_err() {
            return Some(Place::unread(*field, offset));
        }
        others = behind;
    }
    if rest.is_empty() {
        None
    } else {
        Some(Place::behind(whole, end - rest.len()))
    }
}

/// The place of the first member of a list that can't be read, in its content octets, which end at an offset; `None` where they are all read.
fn unread_members(member: Field, end: usize, octets: &[u8]) -> Option<Place>
    requires short { length octets.now ≤ limit }
    requires within { length octets.now ≤ end }
    ensures exact { result ≡ unread_members member end octets.now }
    ensures within { IfSome result (λ place. place.offset ≤ end) }
{
    let mut rest = octets;
    for _ in 0..octets.len() {
        if rest.is_empty() {
            return None;
        }
        let offset = end - rest.len();
        if pass(member, &mut rest).is_err() {
            return Some(Place::unread(member, offset));
        }
    }
    None
}

/// The place of the first part of a field that can't be read, in its content octets, which end at an offset; `None` where all are, and where it isn't
/// looked into.
fn unread_in(field: Field, end: usize, content: &[u8]) -> Option<Place>
    requires short { length content.now ≤ limit }
    requires within { length content.now ≤ end }
    ensures exact { result ≡ unread_in field end content.now }
    ensures within { IfSome result (λ place. place.offset ≤ end) }
{
    match (field.member(), field.fields()) {
        (Some(member), _) => unread_members(member, end, content),
        (None, []) => None,
        (None, fields) => unread_from(field, fields, end, content),
    }
}

/// The element at the front. Its content and what follows it are shorter than the bytes.
fn next_element(bytes: &[u8]) -> Result<Piece<'_>, Error>
    ensures exact { GivesBy (λ x. record { tag = x.tag; content = x.content.now; rest = x.rest.now }) result (piece_at bytes.now) }
    ensures within { IfOk result (λ x. length x.content.now + length x.rest.now < length bytes.now) }
    ensures err { IfErr result (λ e. e.kind ≡ Malformed) }
{
    let piece = split_element(bytes)?;
    Ok(piece)
}

/// The place within the field at a place that can't be read; the place itself where there is none.
pub(crate) fn closer(bytes: &[u8], place: Place) -> Place
    requires short { length bytes.now ≤ limit }
    requires within { place.offset ≤ length bytes.now }
    ensures exact { result ≡ closer bytes.now place }
    ensures within { result.offset ≤ length bytes.now }
{
    if place.is_behind {
        return place;
    }
    let Ok(piece) = next_element(&bytes[place.offset..]) else {
        return place;
    };
    if piece.tag != place.field.octet() {
        return place;
    }
    match unread_in(place.field, bytes.len() - piece.rest.len(), piece.content) {
        Some(inner) => inner,
        None => place,
    }
}

/// The innermost such place: of an object the signed part is one step down, an extension four.
pub(crate) fn closest(bytes: &[u8], place: Place) -> Place
    requires short { length bytes.now ≤ limit }
    requires within { place.offset ≤ length bytes.now }
    ensures exact { result ≡ closest bytes.now place }
    ensures within { result.offset ≤ length bytes.now }
{
    let signed = closer(bytes, closer(bytes, place));
    closer(bytes, closer(bytes, signed))
}
