//! CRLs: decoded, looked into and encoded, and on others the calls without memory.

use crate::certificates::is_encoded_as;
use crate::digest::{Digest, Report};
use crate::objects::list;
use crate::template::{Filler, Template};
use std::alloc::Global;
use x509_base::{Rfc5280, SerialNumber};
use x509_cert::crl::{CertificateList, RevokedCert};
use x509_cert::ext::pkix::CrlReason;
use x509_check::{Check, CrlRef, RevokedCertRef, find_revoked};
use x509_der::{Decode, Error};

/// What is done with a CRL.
#[derive(Clone, Copy)]
enum Use {
    /// It is decoded, looked into and encoded.
    Owned,

    /// It is checked and lent.
    Lent,
}

/// The number of a reason, and 255 for none.
fn number_of(reason: Result<Option<(bool, CrlReason)>, Error>) -> u64 {
    match reason {
        Ok(Some((_, reason))) => reason as u64,
        Ok(None) => 255,
        Err(e) => (e.kind() as u64).wrapping_add(256),
    }
}

/// Takes an entry in.
fn take_entry(alloc: Global, entry: &RevokedCert, digest: &mut Digest) {
    let seconds = entry.revocation_date.to_unix_duration().as_secs();
    let reason = number_of(entry.get_extension::<CrlReason>(alloc));
    digest.octets(entry.serial_number.as_bytes());
    digest.number((seconds << 16) ^ reason);
}

/// Whether the number is found, which is one of the entries.
fn finds_present(list: &CertificateList, place: usize, digest: &mut Digest) -> bool {
    let Some(entry) = list.tbs_cert_list.entries().get(place) else {
        return false;
    };
    match list.find(&entry.serial_number) {
        Some(found) => {
            digest.number(found.revocation_date.to_unix_duration().as_secs());
            true
        }
        None => false,
    }
}

/// Whether a number isn't found that no entry has.
fn finds_absent(alloc: Global, list: &CertificateList, number: u64) -> bool {
    match SerialNumber::<Rfc5280>::from_u64(alloc, number) {
        Ok(serial) => list.find(&serial).is_none(),
        Err(_) => false,
    }
}

/// Looks into a CRL.
fn look_into(
    alloc: Global,
    list: &CertificateList,
    bytes: &[u8],
    filler: &mut Filler,
    digest: &mut Digest,
) -> bool {
    let entries = list.tbs_cert_list.entries();
    for entry in entries {
        take_entry(alloc, entry, digest);
    }
    let place = filler.random.index(entries.len());
    finds_present(list, place, digest)
        && finds_absent(alloc, list, filler.random.next())
        && finds_absent(alloc, list, filler.random.next())
        && is_encoded_as(alloc, list, bytes, digest)
}

/// Whether the bytes are decoded, and encoded as they were.
fn decode(alloc: Global, bytes: &[u8], filler: &mut Filler, digest: &mut Digest) -> bool {
    match CertificateList::<Rfc5280>::from_der(alloc, bytes) {
        Ok(list) => look_into(alloc, &list, bytes, filler, digest),
        Err(e) => {
            digest.number(e.kind() as u64);
            false
        }
    }
}

/// Takes a lent entry in.
fn take_lent(alloc: Global, entry: &RevokedCertRef<'_>, digest: &mut Digest) {
    let seconds = entry.revocation_date.to_unix_duration().as_secs();
    let reason = match &entry.crl_entry_extensions {
        Some(extensions) => number_of(extensions.get_extension::<CrlReason>(alloc)),
        None => 255,
    };
    digest.octets(entry.serial_number);
    digest.number((seconds << 16) ^ reason);
}

/// Goes over the entries of a lent CRL, and answers the serial number at a place.
fn walk<'a>(
    alloc: Global,
    lent: &CrlRef<'a>,
    place: usize,
    digest: &mut Digest,
) -> Option<&'a [u8]> {
    let mut wanted = None;
    let mut left = place;
    for entry in lent.entries() {
        take_lent(alloc, &entry, digest);
        if left == 0 && wanted.is_none() {
            wanted = Some(entry.serial_number);
        }
        left = left.saturating_sub(1);
    }
    wanted
}

/// Whether the look-up of the number finds an entry.
fn finds(bytes: &[u8], serial: &[u8], digest: &mut Digest) -> Option<bool> {
    match find_revoked::<Rfc5280>(bytes, serial) {
        Ok(Some(entry)) => {
            digest.number(entry.revocation_date.to_unix_duration().as_secs());
            Some(true)
        }
        Ok(None) => Some(false),
        Err(e) => {
            digest.number(e.kind() as u64);
            None
        }
    }
}

/// Whether the bytes are accepted by the calls without memory, which find what is there.
fn lend(
    alloc: Global,
    bytes: &[u8],
    entries: usize,
    filler: &mut Filler,
    digest: &mut Digest,
) -> bool {
    if let Err(e) = CertificateList::<Rfc5280>::check(bytes) {
        digest.number(e.kind() as u64);
        return false;
    }
    let Ok(lent) = CrlRef::<Rfc5280>::from_der(bytes) else {
        return false;
    };
    let place = filler.random.index(entries);
    let present = walk(alloc, &lent, place, digest);
    let absent = filler.random.next().to_be_bytes();
    match present {
        Some(serial) if filler.random.next() & 1 == 0 => {
            finds(bytes, serial, digest) == Some(true)
        }
        Some(_) => finds(bytes, absent.as_slice(), digest) == Some(false),
        None => false,
    }
}

/// Uses a CRL, and counts whether it came out right: the whole ones are accepted, and those without their last octet aren't.
fn use_one(
    alloc: Global,
    of: &OneSize,
    buffer: &mut Vec<u8>,
    filler: &mut Filler,
    report: &mut Report,
) -> Result<(), Error> {
    of.template.fill(filler, buffer)?;
    if of.is_cut {
        let _ = buffer.pop();
    }
    let bytes = buffer.as_slice();
    let is_whole = match of.how {
        Use::Owned => decode(alloc, bytes, filler, &mut report.digest),
        Use::Lent => lend(alloc, bytes, of.entries, filler, &mut report.digest),
    };
    report.count(is_whole != of.is_cut);
    Ok(())
}

/// CRLs of one size, and what is done with them.
#[derive(Drop)]
struct OneSize {
    template: Template,
    entries: usize,
    how: Use,
    is_cut: bool,
}

/// CRLs of ten times so many entries.
fn sized(alloc: Global, tens: usize, how: Use, is_full: bool) -> Result<OneSize, Error> {
    Ok(OneSize {
        template: list(alloc, tens, is_full)?,
        entries: tens.saturating_mul(10),
        how,
        is_cut: false,
    })
}

/// A twentieth of all entries in CRLs of 10, and three in each of 1,000, of 20,000 and of 200,000.
fn run_sizes(
    alloc: Global,
    count: usize,
    how: Use,
    filler: &mut Filler,
    report: &mut Report,
) -> Result<(), Error> {
    let mut buffer = Vec::new(alloc);
    for (tens, parts) in [(1, 1), (100, 3), (2_000, 3), (20_000, 3)] {
        let entries = (count / 20).saturating_mul(parts) / 10;
        let lists = entries.checked_div(tens).unwrap_or(0);
        let of = sized(alloc, tens, how, false)?;
        for _ in 0..lists {
            use_one(alloc, &of, &mut buffer, filler, report)?;
        }
    }
    Ok(())
}

/// One CRL with three extensions in each entry, of a hundredth of all entries, and one of a fiftieth without its last octet.
fn run_awkward(
    alloc: Global,
    count: usize,
    how: Use,
    filler: &mut Filler,
    report: &mut Report,
) -> Result<(), Error> {
    let mut buffer = Vec::new(alloc);
    let full = sized(alloc, count / 1000, how, true)?;
    use_one(alloc, &full, &mut buffer, filler, report)?;
    let mut cut = sized(alloc, count / 500, how, false)?;
    cut.is_cut = true;
    use_one(alloc, &cut, &mut buffer, filler, report)
}

/// CRLs with so many entries together.
pub(crate) fn run(alloc: Global, count: usize, seed: u64) -> Result<Report, Error> {
    let mut filler = Filler::new(seed);
    let mut report = Report::new();
    for how in [Use::Owned, Use::Lent] {
        run_sizes(alloc, count, how, &mut filler, &mut report)?;
        run_awkward(alloc, count, how, &mut filler, &mut report)?;
    }
    Ok(report)
}
