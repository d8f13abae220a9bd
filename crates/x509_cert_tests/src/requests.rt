//! The extensions that CSRs ask for.

use crate::copies::REQUEST;
use crate::issuers::is_refused;
use std::test::*;
use x509_cert::request::CertReq;
use x509_cert::request::attributes::ChallengePassword;
use x509_der::{Error, ErrorKind};

/// One that asks for extensions in two attributes.
const ASKS_TWICE: &[u8] =
    b"\x30\x52\x30\x44\x02\x01\x00\x30\x00\x30\x0D\x30\x05\x06\x03\x2A\x03\x04\x03\x04\x00\x61\x62\x63\xA0\x2E\x30\x0F\
      \x06\x09\x2A\x86\x48\x86\xF7\x0D\x01\x09\x0E\x31\x02\x30\x00\x30\x1B\x06\x09\x2A\x86\x48\x86\xF7\x0D\x01\x09\x0E\
      \x31\x0E\x30\x0C\x30\x0A\x06\x03\x55\x1D\x0E\x04\x03\x04\x01\x01\x30\x05\x06\x03\x2A\x03\x04\x03\x03\x00\xAB\xCD";

/// One that asks in an attribute of two values.
const TWO_VALUES: &[u8] =
    b"\x30\x43\x30\x35\x02\x01\x00\x30\x00\x30\x0D\x30\x05\x06\x03\x2A\x03\x04\x03\x04\x00\x61\x62\x63\xA0\x1F\x30\x1D\
      \x06\x09\x2A\x86\x48\x86\xF7\x0D\x01\x09\x0E\x31\x10\x30\x00\x30\x0C\x30\x0A\x06\x03\x55\x1D\x0E\
      \x04\x03\x04\x01\x01\x30\x05\x06\x03\x2A\x03\x04\x03\x03\x00\xAB\xCD";

/// One with a NULL in the place of extensions.
const NO_LIST: &[u8] =
    b"\x30\x35\x30\x27\x02\x01\x00\x30\x00\x30\x0D\x30\x05\x06\x03\x2A\x03\x04\x03\x04\x00\x61\x62\x63\xA0\x11\x30\x0F\
      \x06\x09\x2A\x86\x48\x86\xF7\x0D\x01\x09\x0E\x31\x02\x05\x00\x30\x05\x06\x03\x2A\x03\x04\x03\x03\x00\xAB\xCD";

#[test]
fn a_request(rt: HostRuntime) -> Result<(), Fail> {
    let request = CertReq::try_from_bytes(rt.alloc(), REQUEST)?;
    assert!(rt; asks_for_none(&rt, &request)?);
    Ok(())
}

/// Whether the CSR asks for an empty list of extensions, and has no password.
fn asks_for_none(rt: &HostRuntime, request: &CertReq) -> Result<bool, Error> {
    let password = request.get_attribute::<ChallengePassword>(rt.alloc())?;
    Ok(match request.extension_req(rt.alloc())? {
        Some(asked) => asked.0.is_empty() && password.is_none(),
        None => false,
    })
}

/// The attribute has one value, and stands once at most (RFC 2985 5.4.2).
#[test]
fn refused(rt: HostRuntime) -> Result<(), Fail> {
    for (bytes, kind) in [
        (ASKS_TWICE, ErrorKind::Failed),
        (TWO_VALUES, ErrorKind::Failed),
        (NO_LIST, ErrorKind::Malformed),
    ] {
        let request = CertReq::try_from_bytes(rt.alloc(), bytes)?;
        assert!(rt; is_refused(asks_for_none(&rt, &request), kind));
    }
    assert!(rt;
        match CertReq::try_from_bytes(rt.alloc(), &REQUEST[1..]) {
            Ok(_) => false,
            Err(e) => e.kind() == ErrorKind::Malformed,
        }
    );
    Ok(())
}
