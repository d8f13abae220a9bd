//! Entries for CRLs that are built.

use crate::template::{Filler, Template};
use std::alloc::Global;
use x509_base::{DateTime, SerialNumber, Time, UtcTime};
use x509_cert::crl::RevokedCert;
use x509_cert::ext::pkix::CrlReason;
use x509_cert::ext::{Extensions, ToExtension};
use x509_der::Error;
use x509_name::name::Name;

/// A moment.
fn moment(filler: &mut Filler) -> Result<Time, Error> {
    let random = filler.random.next().to_le_bytes();
    let date = DateTime::new(
        2024,
        1 + random[4] % 4,
        1 + random[0] % 28,
        random[1] % 24,
        random[2] % 60,
        random[3] % 60,
    )?;
    Ok(Time::UtcTime(UtcTime::from_date_time(date)?))
}

/// The extensions of an entry with a reason.
fn with_reason(alloc: Global, subject: &Name) -> Result<Extensions, Error> {
    let mut extensions = Extensions::new(alloc);
    extensions.push((&CrlReason::KeyCompromise).to_extension(alloc, subject, &[])?)?;
    Ok(extensions)
}

/// An entry.
fn entry(
    alloc: Global,
    serial: &[u8],
    has_reason: bool,
    subject: &Name,
    filler: &mut Filler,
) -> Result<RevokedCert, Error> {
    let crl_entry_extensions = if has_reason {
        Some(with_reason(alloc, subject)?)
    } else {
        None
    };
    Ok(RevokedCert {
        serial_number: SerialNumber::new(alloc, serial)?,
        revocation_date: moment(filler)?,
        crl_entry_extensions,
    })
}

/// So many entries, every third with a reason.
pub(crate) fn revoked(
    alloc: Global,
    serials: &Template,
    count: usize,
    filler: &mut Filler,
) -> Result<Vec<RevokedCert>, Error> {
    let subject = Name::new(alloc);
    let mut entries = Vec::with_capacity(alloc, count)?;
    let mut serial = Vec::new(alloc);
    for number in 0..count {
        serials.fill(filler, &mut serial)?;
        entries.push(entry(alloc, serial.as_slice(), number % 3 == 0, &subject, filler)?)?;
    }
    Ok(entries)
}
