//! Certificates and CRLs that are lent, as values.

use crate::certificate::WHOLE;
use crate::copies::LIST;
use std::test::*;
use x509_base::Rfc5280;
use x509_check::{CertificateRef, CrlRef};

/// Whether the certificate is one as a value.
fn is_owned(rt: &HostRuntime) -> bool {
    match CertificateRef::<Rfc5280>::from_der(WHOLE) {
        Ok(lent) => lent.to_owned(rt.alloc()).is_ok(),
        Err(_) => false,
    }
}

/// Whether the CRL is one as a value.
fn list_is_owned(rt: &HostRuntime) -> bool {
    match CrlRef::<Rfc5280>::from_der(LIST) {
        Ok(lent) => lent.to_owned(rt.alloc()).is_ok(),
        Err(_) => false,
    }
}

#[test]
fn owned(rt: HostRuntime) {
    assert!(rt; is_owned(&rt));
    assert!(rt; list_is_owned(&rt));
}
