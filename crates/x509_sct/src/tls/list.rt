//! Lists of items.

ghost use Rattle.std.specs.Prelude.{◌≡◌, ◌<◌, ◌≤◌, ◌⊎◌, length, IfOk, IfErr};
ghost use Rattle.x509_sct.specs.declared.tls.error.TlsError.TheVariants.{InvalidVectorLength, Memory};
ghost use Rattle.x509_sct.specs.Answers.{Answers};
ghost use Rattle.x509_sct.specs.Items.{joined, items_reading};
ghost use Rattle.x509_sct.specs.Lists.{IsList, ListFault, list_reading};
ghost use Rattle.x509_sct.specs.Numbers.{uint16};
ghost use Rattle.x509_sct.specs.Outcome.{GivesBy};

use crate::tls::error::TlsError;
use crate::tls::octets::take_octets;
use crate::tls::tls::Tls;
use crate::tls::vector::TlsByteVecU16;
use std::alloc::Global;

/// A type of which each value has at least one byte, so that decoding many of them ends.
pub trait TlsItem: Tls {
    ghost use Rattle.x509_sct.specs.Items.{Moves};

    ghost moves: { Moves Self.form.reading };
}

impl TlsItem for TlsByteVecU16 {
    ghost use Rattle.x509_sct.specs.ItemsLaws.{counted_moves};
    ghost use Rattle.x509_sct.specs.Numbers.{uint16, uint16_moves};

    ghost moves = { counted_moves uint16.reading uint16_moves };
}

/// The items of a list, `T<0..2^16-1>` (RFC 5246 section 4.3), which is to be all of the bytes.
///
/// # Errors
///
/// The first error from the left; `TrailingData`, where bytes follow the list, comes before the errors of items.
/// `Memory` when out of memory.
pub fn read_list<T: TlsItem + Drop>(alloc: Global, bytes: &[u8]) -> Result<Vec<T>, TlsError>
    ensures { Answers (λ items. items.items) (λ e. e) (λ items. IsList uint16 T.form items bytes.now) (ListFault uint16 T.form bytes.now) Unit result }
{
    take_list(alloc, bytes)
}

/// What [`read_list`] answers, as the form says it.
#[tactic(auto, unfolding(crate::specs::Lists::list_reading, crate::specs::FieldReading::counted_at))]
fn take_list<T: TlsItem + Drop>(alloc: Global, bytes: &[u8]) -> Result<Vec<T>, TlsError>
    ensures { GivesBy (λ v. v.items) result (list_reading uint16.reading T.form.reading bytes.now) }
{
    let (len, rest) = <u16 as Tls>::take(alloc, bytes)?;
    let (body, rest) = take_octets(len as usize, rest)?;
    if !rest.is_empty() {
        return Err(TlsError::TrailingData);
    }
    take_items(alloc, body)
}

/// The items whose bytes these are, one after the other.
fn take_items<T: TlsItem + Drop>(alloc: Global, bytes: &[u8]) -> Result<Vec<T>, TlsError>
    ensures { GivesBy (λ v. v.items) result (items_reading T.form.reading bytes.now) }
{
    let mut items = Vec::new(alloc);
    let mut rest = bytes;
    while !rest.is_empty() {
        let (item, after) = T::take(alloc, rest)?;
        items.push(item)?;
        rest = after;
    }
    Ok(items)
}

/// The encoding of the list of the items, `T<0..2^16-1>` (RFC 5246 section 4.3).
///
/// # Errors
///
/// `InvalidVectorLength` exactly where the items have more than 65,535 bytes. Else `Memory` when out of memory.
pub fn serialize_list<T: Tls>(alloc: Global, items: &[T]) -> Result<Vec<u8>, TlsError>
    ensures ok { IfOk result (λ bytes. IsList uint16 T.form items.now bytes.items) }
    ensures err { IfErr result (λ e. ((e ≡ InvalidVectorLength) × (65535 < length (joined T.form items.now)))
        ⊎ ((e ≡ Memory) × (length (joined T.form items.now) ≤ 65535))) }
{
    let len = items_len(items)?;
    let mut out = Vec::with_capacity(alloc, 2 + len)?;
    (len as u16).put(&mut out)?;
    for item in items {
        item.put(&mut out)?;
    }
    Ok(out)
}

/// How many bytes the items have; `InvalidVectorLength` exactly where they are more than 65,535.
fn items_len<T: Tls>(items: &[T]) -> Result<usize, TlsError>
    ensures ok { IfOk result (λ len. (len ≡ length (joined T.form items.now)) × (len ≤ 65535)) }
    ensures err { IfErr result (λ e. (e ≡ InvalidVectorLength) × (65535 < length (joined T.form items.now))) }
{
    let mut total = 0;
    for item in items {
        let len = item.tls_len();
        if len > TlsByteVecU16::MAX_LEN - total {
            return Err(TlsError::InvalidVectorLength);
        }
        total += len;
    }
    Ok(total)
}
