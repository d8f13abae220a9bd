//! CRLs of many entries: no contract tells how much memory an encoding takes.

use crate::copies::LIST;
use std::alloc::Global;
use std::test::*;
use x509_cert::crl::{CertificateList, RevokedCert};
use x509_der::{Decode, Encode, Error, SequenceOf, TryClone};

/// The entry of `LIST`.
const ENTRY: &[u8] =
    b"\x30\x20\x02\x01\x05\x17\x0D200102030405Z\x30\x0C\x30\x0A\x06\x03\x55\x1D\x0E\x04\x03\x04\x01\xAA";

/// `LIST` with its entry so many times.
fn list_of(alloc: Global, count: usize) -> Result<CertificateList, Error> {
    let mut entries = SequenceOf::new(alloc);
    let entry = RevokedCert::from_der(alloc, ENTRY)?;
    for _ in 0..count {
        entries.push(entry.try_clone(alloc)?)?;
    }
    let mut list = CertificateList::from_der(alloc, LIST)?;
    list.tbs_cert_list.revoked_certificates = Some(entries);
    Ok(list)
}

/// The encoding of more than 64 KB has memory of just its length.
#[test]
fn of_many(rt: HostRuntime) -> Result<(), Fail> {
    let list = list_of(rt.alloc(), 3277)?;
    let bytes = list.to_der(rt.alloc())?;
    assert!(rt; bytes.capacity() == bytes.len());
    Ok(())
}
