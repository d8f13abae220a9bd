//! Copies of what was decoded: of CRLs, CSRs and trust anchors; and the entries of a CRL.

use crate::certificate::WHOLE;
use std::alloc::Global;
use std::test::*;
use x509_base::SerialNumber;
use x509_cert::anchor::TrustAnchorChoice;
use x509_cert::crl::CertificateList;
use x509_cert::request::CertReq;
use x509_der::{Decode, Error, TryClone};

/// A CRL with one entry; both have a key identifier.
pub(crate) const LIST: &[u8] =
    b"\x30\x6C\x30\x60\x02\x01\x01\x30\x05\x06\x03\x2A\x03\x04\x30\x00\x18\x0F20020101120100Z\x17\x0D200102030405Z\
      \x30\x22\x30\x20\x02\x01\x05\x17\x0D200102030405Z\x30\x0C\x30\x0A\x06\x03\x55\x1D\x0E\x04\x03\x04\x01\xAA\
      \xA0\x0E\x30\x0C\x30\x0A\x06\x03\x55\x1D\x0E\x04\x03\x04\x01\xAA\x30\x05\x06\x03\x2A\x03\x04\x03\x01\x00";

/// Whether the CRL has an entry with that serial number.
fn has_entry(list: &CertificateList, serial_number: &SerialNumber) -> bool {
    match list.find(serial_number) {
        Some(entry) => entry.serial_number == *serial_number,
        None => false,
    }
}

/// The entry is found by its serial number alone.
#[test]
fn entries(rt: HostRuntime) -> Result<(), Fail> {
    let list = CertificateList::from_der(rt.alloc(), LIST)?;
    assert!(rt; list.tbs_cert_list.entries().len() == 1);
    assert!(rt; has_entry(&list, &SerialNumber::from_u8(rt.alloc(), 5)?));
    assert!(rt; !has_entry(&list, &SerialNumber::from_u8(rt.alloc(), 6)?));
    Ok(())
}

/// A CSR with an empty subject that asks for no extensions.
pub(crate) const REQUEST: &[u8] =
    b"\x30\x35\x30\x27\x02\x01\x00\x30\x00\x30\x0D\x30\x05\x06\x03\x2A\x03\x04\x03\x04\x00abc\
      \xA0\x11\x30\x0F\x06\x09\x2A\x86\x48\x86\xF7\x0D\x01\x09\x0E\x31\x02\x30\x00\x30\x05\x06\x03\x2A\x03\x04\
      \x03\x03\x00\xAB\xCD";

/// The signed part of a certificate.
const SIGNED: &[u8] = b"\xA1\x3C\x30\x3A\x02\x01\x01\x30\x05\x06\x03\x2A\x03\x04\x30\x00\
      \x30\x1E\x17\x0D100101083000Z\x17\x0D301231083000Z\x30\x00\x30\x0A\x30\x05\x06\x03\x2A\x03\x04\x03\x01\x00";

/// The description of an anchor with each field but a certificate.
const SAID: &[u8] =
    b"\xA2\x32\x30\x30\x30\x0A\x30\x05\x06\x03\x2A\x03\x04\x03\x01\x00\x04\x01\x01\x0C\x01A\
      \x30\x14\x30\x00\xA1\x07\x30\x05\x06\x03\x2A\x03\x04\x82\x02\x05\x20\xA3\x00\x84\x01\x03\xA1\x02\x30\x00\
      \x82\x02en";

/// Whether a copy of the value that the bytes are the encoding of equals it.
fn is_copied<T: Decode + TryClone + PartialEq + Drop>(
    alloc: Global,
    bytes: &[u8],
) -> Result<bool, Error> {
    let value = T::from_der(alloc, bytes)?;
    let copy = value.try_clone(alloc)?;
    Ok(copy == value)
}

#[test]
fn copies(rt: HostRuntime) -> Result<(), Fail> {
    assert!(rt; is_copied::<CertificateList>(rt.alloc(), LIST)?);
    assert!(rt; is_copied::<CertReq>(rt.alloc(), REQUEST)?);
    for anchor in [WHOLE, SIGNED, SAID] {
        assert!(rt; is_copied::<TrustAnchorChoice>(rt.alloc(), anchor)?);
    }
    Ok(())
}
