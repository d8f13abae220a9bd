//! Who issued the certificates of the entries of an indirect CRL (RFC 5280 5.3.3).

use std::test::*;
use x509_base::SerialNumber;
use x509_cert::crl::CertificateList;
use x509_der::{Decode, Encode, Error, ErrorKind};
use x509_name::name::Name;

/// A list of an issuer with the empty name, of four entries: 5; 6, which DE issued; 5; and 5, which US issued, with a DNS name beside it.
const LIST: &[u8] =
    b"\x30\x81\xC0\x30\x81\xB3\x02\x01\x01\x30\x05\x06\x03\x2A\x03\x04\x30\x00\x17\x0D200105000000Z\x30\x81\x95\
      \x30\x12\x02\x01\x05\x17\x0D200101000000Z\
      \x30\x33\x02\x01\x06\x17\x0D200102000000Z\x30\x1F\x30\x1D\x06\x03\x55\x1D\x1D\x01\x01\xFF\x04\x13\
      \x30\x11\xA4\x0F\x30\x0D\x31\x0B\x30\x09\x06\x03\x55\x04\x06\x13\x02DE\
      \x30\x12\x02\x01\x05\x17\x0D200103000000Z\
      \x30\x36\x02\x01\x05\x17\x0D200104000000Z\x30\x22\x30\x20\x06\x03\x55\x1D\x1D\x01\x01\xFF\x04\x16\
      \x30\x14\x82\x01a\xA4\x0F\x30\x0D\x31\x0B\x30\x09\x06\x03\x55\x04\x06\x13\x02US\
      \x30\x05\x06\x03\x2A\x03\x04\x03\x01\x00";

/// A list of two entries, 5 and 6, the issuer of the second of which is a NULL.
const REFUSED: &[u8] =
    b"\x30\x61\x30\x55\x02\x01\x01\x30\x05\x06\x03\x2A\x03\x04\x30\x00\x17\x0D200105000000Z\x30\x38\
      \x30\x12\x02\x01\x05\x17\x0D200101000000Z\
      \x30\x22\x02\x01\x06\x17\x0D200102000000Z\x30\x0E\x30\x0C\x06\x03\x55\x1D\x1D\x01\x01\xFF\x04\x02\x05\x00\
      \x30\x05\x06\x03\x2A\x03\x04\x03\x01\x00";

/// A list of two entries, 5 and 6, the second of which has DE as issuer in two extensions.
const REPEATED: &[u8] =
    b"\x30\x81\x92\x30\x81\x85\x02\x01\x01\x30\x05\x06\x03\x2A\x03\x04\x30\x00\x17\x0D200105000000Z\x30\x68\x30\x12\
      \x02\x01\x05\x17\x0D200101000000Z\x30\x52\x02\x01\x06\x17\x0D200102000000Z\x30\x3E\x30\x1D\x06\x03\x55\x1D\x1D\
      \x01\x01\xFF\x04\x13\x30\x11\xA4\x0F\x30\x0D\x31\x0B\x30\x09\x06\x03\x55\x04\x06\x13\x02\x44\x45\x30\x1D\
      \x06\x03\x55\x1D\x1D\x01\x01\xFF\
      \x04\x13\x30\x11\xA4\x0F\x30\x0D\x31\x0B\x30\x09\x06\x03\x55\x04\x06\x13\x02\x44\x45\x30\x05\x06\x03\x2A\x03\x04\
      \x03\x01\x00";

/// The empty name, and those of DE and US.
const NOBODY: &[u8] = b"\x30\x00";

const DE: &[u8] = b"\x30\x0D\x31\x0B\x30\x09\x06\x03\x55\x04\x06\x13\x02DE";

const US: &[u8] = b"\x30\x0D\x31\x0B\x30\x09\x06\x03\x55\x04\x06\x13\x02US";

/// The names of the second entry.
const OF_SECOND: &[u8] = b"\x30\x11\xA4\x0F\x30\x0D\x31\x0B\x30\x09\x06\x03\x55\x04\x06\x13\x02DE";

/// Whether the issuer at the index is named so.
fn is_named(
    rt: &HostRuntime,
    list: &CertificateList,
    index: usize,
    names: &[u8],
) -> Result<bool, Error> {
    match list.issuer_of(rt.alloc(), index)? {
        Some(issuer) => Ok(issuer.to_der(rt.alloc())?.as_slice() == names),
        None => Ok(false),
    }
}

/// Whether the entry at the index is found; behind the last that none is.
fn is_found(
    rt: &HostRuntime,
    list: &CertificateList,
    issuer: &[u8],
    number: u8,
    index: usize,
) -> Result<bool, Error> {
    let issuer = Name::from_der(rt.alloc(), issuer)?;
    let number = SerialNumber::from_u8(rt.alloc(), number)?;
    let found = list.find_issued(rt.alloc(), &issuer, &number)?;
    Ok(found == list.tbs_cert_list.entries().get(index))
}

/// Whether it is refused so.
pub(crate) fn is_refused(answer: Result<bool, Error>, kind: ErrorKind) -> bool {
    match answer {
        Ok(_) => false,
        Err(e) => e.kind() == kind,
    }
}

/// An entry without names of its own is of the issuer of the entry before it.
#[test]
fn named_and_found(rt: HostRuntime) -> Result<(), Fail> {
    let list = CertificateList::from_der(rt.alloc(), LIST)?;
    assert!(rt; is_named(&rt, &list, 2, OF_SECOND)?);
    for (issuer, number, index) in [(NOBODY, 5, 0), (DE, 5, 2), (US, 6, 4)] {
        assert!(rt; is_found(&rt, &list, issuer, number, index)?, "{index}");
    }
    Ok(())
}

/// A NULL in the place of names, and names twice.
#[test]
fn refused(rt: HostRuntime) -> Result<(), Fail> {
    for (bytes, kind) in [
        (REFUSED, ErrorKind::Malformed),
        (REPEATED, ErrorKind::Failed),
    ] {
        let list = CertificateList::from_der(rt.alloc(), bytes)?;
        assert!(rt; is_refused(is_named(&rt, &list, 1, OF_SECOND), kind));
        assert!(rt; is_refused(is_found(&rt, &list, DE, 6, 1), kind));
    }
    Ok(())
}
