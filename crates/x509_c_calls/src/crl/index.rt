//! The index of a list of entries, and the first entry with a serial number by one. A look-up checks neither the list nor the index.

ghost use Rattle.std.specs.Prelude.{◌≡◌, ◌≤◌, ◌<◌, length, take};
ghost use Rattle.x509_c_calls.specs.CrlIndexes.{FindsByIndex, Indexes, LooksUpByIndex};
ghost use Rattle.x509_c_calls.specs.declared.status.status.Status.TheVariants.{Done, NoRoom, Refused};
ghost use Rattle.x509_crl_index.specs.Places.{IsIndex, places_in};
ghost use Rattle.x509_der.specs.Element.{limit};
ghost use Rattle.x509_der.specs.declared.error.ErrorKind.TheVariants.{Memory};

use crate::crl::entry::CrlEntryView;
use crate::crl::lookup::content_of;
use crate::payloads::left;
use crate::{Status, View};
use std::alloc::Global;
use x509_base::{Rfc5280, SerialNumber};
use x509_cert::crl::RevokedCert;
use x509_check::Check;
use x509_crl_index::{index_places, octets_at, place_count, place_of};
use x509_der::{Grammar, SequenceOf, Tag, read_field};

/// Puts the index of the octets at the front of the buffer, and answers how many places it has; where the buffer is too small it is
/// unchanged.
fn put_index(octets: &[u8], index: &mut [u32]) -> usize
    requires { length octets.now ≤ limit }
    ensures count { result ≡ length (places_in octets.now) }
    ensures put { result ≤ length index.old → IsIndex octets.now (take result index.new) }
    ensures unchanged { length index.old < result → index.new ≡ index.old }
{
    let count = place_count(octets);
    if count <= index.len() {
        let (places, _) = index.split_at_mut(count);
        index_places(octets, places);
    }
    count
}

/// Checks the list of entries of a CRL ([`CrlView::entries`](crate::CrlView::entries)) under the rules of RFC 5280, and puts its index at the front of the
/// buffer `index`, a place for each entry: how many octets stand in front of it in the content of the list, in the order of the serial numbers' octets. `written`
/// is how many entries there are. It takes no memory, and steps that grow with n log n for n entries.
///
/// # Errors
///
/// [`Status::NoRoom`] exactly where the buffer is too small for so many; then `written` is how many. `Overlength` where the bytes are more than 268,435,455.
/// Within that length `Malformed` where they are no list of entries; `written` is unchanged then. The buffer is unchanged but on [`Status::Done`].
#[tactic(auto, unfolding(crate::specs::CrlIndexes::Indexes))]
pub fn crl_index(input: &[u8], index: &mut [u32], written: &mut usize) -> Status
    ensures indexes { Indexes ⟦<RevokedCert<Rfc5280> as Grammar>⟧.refuses input.now index.old index.new written.old written.new result }
    ensures memory { result ≡ Refused Memory → ⊥ }
{
    if let Err(e) = SequenceOf::<RevokedCert<Rfc5280>>::check(input) {
        return e.into();
    }
    *written = put_index(content_of(input), &mut *index);
    if *written > index.len() {
        return Status::NoRoom;
    }
    Status::Done
}

/// Fills in the entry that an index finds, with the serial number that has these content octets.
#[tactic(auto, unfolding(crate::specs::CrlIndexes::FindsByIndex))]
fn find_by_index(
    alloc: Global,
    input: &[u8],
    index: &[u32],
    number: &[u8],
    found: &mut CrlEntryView,
) -> Status
    ensures { FindsByIndex ⟦<RevokedCert<Rfc5280> as Grammar>⟧.refuses number.now input.now index.now found.old found.new result }
{
    let octets = match left(Tag::Sequence, input, 0) {
        Ok(octets) => octets,
        Err(e) => return Status::Refused(e),
    };
    let Some(place) = place_of(octets, index, number) else {
        return Status::Absent;
    };
    let mut rest = octets_at(octets, place);
    let place = input.len() - rest.len();
    match read_field::<RevokedCert<Rfc5280>>(alloc, &mut rest) {
        Ok(entry) => {
            *found = CrlEntryView::view(input, place, &entry);
            Status::Done
        }
        Err(e) => e.into(),
    }
}

/// Fills in the first entry with a serial number, of a list of entries by its index ([`crl_index`]), neither of which is checked: what
/// [`crl_entry_find`](crate::crl_entry_find) answers, in a number of steps that grows with the logarithm of how many entries there are. By an index that isn't
/// the list's it fills in an entry with that number that stands in the bytes, or is refused. The serial number is checked under the rules of RFC 5280.
///
/// # Errors
///
/// The error of checking the serial number. [`Status::Absent`] where no entry has it. `Overlength` where the bytes are more than 268,435,455. Within that
/// length `Malformed`, only where the bytes are no list of entries or the index isn't theirs; `Absent` may come too then. `Memory` when out of memory. `found`
/// is unchanged then.
#[tactic(auto, unfolding(crate::specs::CrlIndexes::LooksUpByIndex))]
pub fn crl_index_find(
    alloc: Global,
    input: &[u8],
    index: &[u32],
    serial_number: &[u8],
    found: &mut CrlEntryView,
) -> Status
    ensures { LooksUpByIndex ⟦<SerialNumber<Rfc5280> as Grammar>⟧.form ⟦<SerialNumber<Rfc5280> as Grammar>⟧.refuses
        ⟦<RevokedCert<Rfc5280> as Grammar>⟧.refuses input.now index.now serial_number.now found.old found.new result }
{
    match SerialNumber::<Rfc5280>::check(serial_number) {
        Ok(()) => find_by_index(alloc, input, index, content_of(serial_number), found),
        Err(e) => e.into(),
    }
}
