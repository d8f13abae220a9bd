//! Whether two entries of a CRL have one serial number.

ghost use Rattle.std.specs.Prelude.{◌≡◌, ◌↔◌, IfOk, IsTrue, List, Ok};
ghost use Rattle.x509_base.specs.declared.profile.Raw.{Raw};
ghost use Rattle.x509_cert.specs.declared.crl.revoked_cert.RevokedCert as revoked;
ghost use Rattle.x509_crl_index.specs.Split.{lent_octets, read_entries, serials};
ghost use Rattle.x509_der.specs.Set.{AreDistinct};

use crate::number::front_content;
use crate::places::place_count;
use std::alloc::{AllocError, Global};
use x509_der::{Tag, split_usual};

/// The content octets of the serial numbers of the entries of which the octets are the elements, in their order.
fn serials_of<'a>(alloc: Global, octets: &'a [u8]) -> Result<Vec<&'a [u8]>, AllocError>
    ensures { IfOk result (λ numbers. (entries : List (revoked.RevokedCert Raw)) → read_entries octets.now ≡ Ok entries
        → lent_octets numbers.items ≡ serials entries) }
{
    let mut numbers = Vec::with_capacity(alloc, place_count(octets))?;
    let mut rest = octets;
    while let Ok(piece) = split_usual(rest, Tag::Sequence) {
        numbers.push(front_content(piece.content, Tag::Integer))?;
        rest = piece.rest;
    }
    Ok(numbers)
}

/// Whether no two of the entries have one serial number, of which the octets are the elements, one after the other. The steps grow with
/// n log n for n entries.
///
/// # Errors
///
/// `AllocError` when out of memory, and nothing else: it takes a slice an entry.
pub fn are_serials_distinct(alloc: Global, octets: &[u8]) -> Result<bool, AllocError>
    ensures { IfOk result (λ distinct. (entries : List (revoked.RevokedCert Raw)) → read_entries octets.now ≡ Ok entries
        → IsTrue distinct ↔ AreDistinct (serials entries)) }
{
    let mut numbers = serials_of(alloc, octets)?;
    numbers.sort_unstable();
    Ok(numbers.is_sorted_by(|a, b| (*a).cmp(*b).is_lt()))
}
