//! The digest of a certificate, and its signed bytes.

use sha2::Sha256;
use std::test::*;
use x509_cert::certificate::Certificate;
use x509_cert::signed_slice;
use x509_der::Decode;

/// A certificate with each field, of US for DE.
pub(crate) const WHOLE: &[u8] =
    b"\x30\x81\x80\x30\x72\xA0\x03\x02\x01\x02\x02\x01\x2A\x30\x05\x06\x03\x2A\x03\x04\
      \x30\x0D\x31\x0B\x30\x09\x06\x03\x55\x04\x06\x13\x02US\x30\x1E\x17\x0D100101083000Z\x17\x0D301231083000Z\
      \x30\x0D\x31\x0B\x30\x09\x06\x03\x55\x04\x06\x13\x02DE\x30\x0A\x30\x05\x06\x03\x2A\x03\x05\x03\x01\x00\
      \x81\x02\x07\x80\x82\x02\x06\x40\xA3\x0F\x30\x0D\x30\x0B\x06\x03\x55\x1D\x0F\x04\x04\x03\x02\x01\x06\
      \x30\x05\x06\x03\x2A\x03\x06\x03\x03\x00\xAB\xCD";

/// The front of its SHA-256 digest, as another implementation gives it.
const DIGEST: &[u8] = &[0x3F, 0x15, 0x28, 0x83, 0x6F, 0x06, 0x84, 0x5A];

/// A certificate with a date of 2002 that RFC 5280 spells otherwise (4.1.2.5).
const LONG: &[u8] = b"\x30\x48\x30\x3C\x02\x01\x01\x30\x05\x06\x03\x2A\x03\x04\x30\x00\
      \x30\x20\x18\x0F20020101120100Z\x17\x0D301231083000Z\x30\x00\x30\x0A\x30\x05\x06\x03\x2A\x03\x04\x03\x01\x00\
      \x30\x05\x06\x03\x2A\x03\x04\x03\x01\x00";

#[test]
fn digest(rt: HostRuntime) -> Result<(), Fail> {
    let certificate = Certificate::from_der(rt.alloc(), WHOLE)?;
    let digest = certificate.hash::<Sha256>(rt.alloc())?;
    assert!(rt; digest.as_slice().starts_with(DIGEST));
    Ok(())
}

/// What is lent is the bytes that came.
#[test]
fn signed_parts(rt: HostRuntime) {
    assert!(rt; signed_slice(LONG) == Some(&LONG[2..64]));
    assert!(rt; signed_slice(&[0x30, 0x02, 0x30, 0x00, 0x30]).is_none());
}
