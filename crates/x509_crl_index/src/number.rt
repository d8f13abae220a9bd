//! What stands at a place.

ghost use Rattle.std.specs.Prelude.{◌≡◌, drop};
ghost use Rattle.x509_crl_index.specs.Places as places;

use x509_der::{Tag, split_usual};

/// The content octets of the element at the front; none where none stands there.
#[inline(always)]
pub(crate) fn front_content(bytes: &[u8], usual: Tag) -> &[u8]
    ensures { result.now ≡ places.front_content bytes.now }
{
    match split_usual(bytes, usual) {
        Ok(piece) => piece.content,
        Err(_) => &[],
    }
}

/// The octets from the place on; none where there are no more than that.
#[inline(always)]
pub fn octets_at(octets: &[u8], place: u32) -> &[u8]
    ensures { result.now ≡ drop place octets.now }
{
    let place = place as usize;
    if place > octets.len() {
        return &[];
    }
    &octets[place..]
}

/// The content octets of the serial number of the entry at the place; none where no such thing stands there.
#[inline(always)]
pub(crate) fn number_at(octets: &[u8], place: u32) -> &[u8]
    ensures { result.now ≡ places.number_at octets.now place }
{
    let content = front_content(octets_at(octets, place), Tag::Sequence);
    front_content(content, Tag::Integer)
}
