//! The first entry of a list of them with a serial number. The list isn't checked once more.

ghost use Rattle.std.specs.Prelude.{◌≡◌, ◌++◌, [], ◌∷◌, true, bytes_eq, List, ℕ, IfOk, IfErr, IsOkAnd, IfSome, MatchOption};
ghost use Rattle.x509_base.specs.declared.profile.Rfc5280 as rules;
ghost use Rattle.x509_c_calls.specs.FoundEntry.{FindsEntry, LooksUpEntry, entry_octets};
ghost use Rattle.x509_cert.specs.Revoked.{IsFirstWith, with_serial};
ghost use Rattle.x509_cert.specs.declared.crl.revoked_cert.RevokedCert as revoked;
ghost use Rattle.x509_der.specs.Element.{element, is_identifier};
ghost use Rattle.x509_der.specs.declared.error.ErrorKind.TheVariants.{Malformed};

use crate::crl::entry::CrlEntryView;
use crate::crl::lookup::content_of;
use crate::payloads::left;
use crate::{Status, View};
use std::alloc::Global;
use x509_base::{Rfc5280, SerialNumber};
use x509_cert::crl::RevokedCert;
use x509_check::Check;
use x509_der::{Error, Grammar, Tag, read_field, split_element};

/// Whether the content of the element at the front is this one.
fn begins_with(octets: &[u8], content: &[u8]) -> bool
    ensures { (tag : ℕ) (front more : List ℕ) → is_identifier tag ≡ true → octets.now ≡ element tag front ++ more → result ≡ bytes_eq front content.now }
{
    match split_element(octets) {
        Ok(piece) => piece.content == content,
        Err(_) => false,
    }
}

/// What is left of the octets from the first entry on that has the serial number with these content octets; they are the elements of entries, one
/// after the other. Of an entry no more is read than that number.
///
/// # Errors
///
/// `Malformed` where they aren't elements up to there.
fn find_octets<'a>(octets: &'a [u8], number: &[u8]) -> Result<Option<&'a [u8]>, Error>
    ensures within { IfOk result (λ found. IfSome found (λ left. (passed : List ℕ) × (octets.now ≡ passed ++ left.now))) }
    ensures found { (values : List (revoked.RevokedCert rules.Rfc5280)) → octets.now ≡ entry_octets values
        → IsOkAnd result (λ found. MatchOption found (with_serial number.now values ≡ [])
        (λ left. (before : List (revoked.RevokedCert rules.Rfc5280))
        × (first : revoked.RevokedCert rules.Rfc5280) × (others : List (revoked.RevokedCert rules.Rfc5280))
        × (values ≡ before ++ first ∷ others) × IsFirstWith number.now values first × (left.now ≡ entry_octets (first ∷ others)))) }
    ensures err { IfErr result (λ e. e.kind ≡ Malformed) }
{
    let mut rest = octets;
    while !rest.is_empty() {
        let piece = split_element(rest)?;
        if begins_with(piece.content, number) {
            return Ok(Some(rest));
        }
        rest = piece.rest;
    }
    Ok(None)
}

/// Fills in the first entry of the list with the serial number that has these content octets.
#[tactic(auto, unfolding(crate::specs::FoundEntry::FindsEntry))]
fn find_entry(alloc: Global, input: &[u8], number: &[u8], found: &mut CrlEntryView) -> Status
    ensures { FindsEntry ⟦<RevokedCert<Rfc5280> as Grammar>⟧.refuses number.now input.now found.old found.new result }
{
    let octets = match left(Tag::Sequence, input, 0) {
        Ok(octets) => octets,
        Err(e) => return Status::Refused(e),
    };
    let mut rest = match find_octets(octets, number) {
        Ok(Some(rest)) => rest,
        Ok(None) => return Status::Absent,
        Err(e) => return e.into(),
    };
    let place = input.len() - rest.len();
    match read_field::<RevokedCert<Rfc5280>>(alloc, &mut rest) {
        Ok(entry) => {
            *found = CrlEntryView::view(input, place, &entry);
            Status::Done
        }
        Err(e) => e.into(),
    }
}

/// Fills in the first entry with a serial number, of a list that is the list of entries of a CRL ([`CrlView::entries`](crate::CrlView::entries)), which
/// isn't checked once more: of the entries in front of the one that is found no more is read than their lengths and their numbers. The serial number
/// is checked under the rules of RFC 5280.
///
/// # Errors
///
/// The error of checking the serial number. [`Status::Absent`] where no entry has it. `Overlength` where the bytes are more than 268,435,455. Within that
/// length, only of bytes that are no list of entries, `Malformed`, where they aren't one SEQUENCE of elements up to the one that is found, or that is no
/// entry. `Memory` when out of memory. `found` is unchanged then.
#[tactic(auto, unfolding(crate::specs::FoundEntry::LooksUpEntry))]
pub fn crl_entry_find(
    alloc: Global,
    input: &[u8],
    serial_number: &[u8],
    found: &mut CrlEntryView,
) -> Status
    ensures { LooksUpEntry ⟦<SerialNumber<Rfc5280> as Grammar>⟧.form ⟦<SerialNumber<Rfc5280> as Grammar>⟧.refuses
        ⟦<RevokedCert<Rfc5280> as Grammar>⟧.refuses input.now serial_number.now found.old found.new result }
{
    match SerialNumber::<Rfc5280>::check(serial_number) {
        Ok(()) => find_entry(alloc, input, content_of(serial_number), found),
        Err(e) => e.into(),
    }
}
