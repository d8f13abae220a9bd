//! The entries of a CRL, one after the other.

use crate::{Span, View, enter, seconds, step, step_optional};
use x509_base::Rfc5280;
use x509_cert::crl::RevokedCert;

/// An entry of a CRL (RFC 5280 5.1.2.6), by its place in the bytes of the list of entries.
#[derive(Clone, Copy)]
#[repr(C)]
pub struct CrlEntryView {
    /// The serial number, an INTEGER.
    pub serial_number: Span,

    /// When the certificate was revoked, in seconds since 1970-01-01T00:00:00Z.
    pub date: u64,

    /// The extensions of the entry, a SEQUENCE; both numbers are 0 where they are left out.
    pub extensions: Span,
}

impl View for CrlEntryView {
    ghost use Rattle.x509_c_calls.specs.CrlEntries.{IsEntry};

    type Value = RevokedCert<Rfc5280>;

    ghost shows = { IsEntry };

    fn view(input: &[u8], place: usize, value: &RevokedCert<Rfc5280>) -> CrlEntryView {
        let mut at = place;
        enter(input, &mut at);
        let serial_number = step(input, &mut at, true);
        step(input, &mut at, true);
        CrlEntryView {
            serial_number,
            date: seconds(&value.revocation_date),
            extensions: step_optional(input, &mut at, value.crl_entry_extensions.is_some()),
        }
    }
}
