//! Vectors of at least one byte.

use std::test::*;
use x509_log::TlsByteVecU24;

#[test]
fn a_copy(rt: HostRuntime) -> Result<(), Fail> {
    let vector = TlsByteVecU24::from_slice(rt.alloc(), b"ab")?;
    assert!(rt; vector.as_slice() == b"ab".as_slice());
    Ok(())
}
