//! All extensions of one type, where the first can't be decoded (RFC 5280 4.2).

use std::test::*;
use x509_der::Decode;
use x509_ext::pkix::KeyUsage;
use x509_ext::{Extensions, filter_extensions};

/// Key usages in two extensions, the first of which holds a NULL.
const USAGES: &[u8] = &[
    0x30, 0x18, 0x30, 0x09, 0x06, 0x03, 0x55, 0x1D, 0x0F, 0x04, 0x02, 0x05, 0x00, 0x30, 0x0B, 0x06,
    0x03, 0x55, 0x1D, 0x0F, 0x04, 0x04, 0x03, 0x02, 0x07, 0x80,
];

#[test]
fn of_one_type(rt: HostRuntime) -> Result<(), Fail> {
    let extensions = Extensions::from_der(rt.alloc(), USAGES)?;
    let mut usages = filter_extensions::<KeyUsage>(rt.alloc(), extensions.as_slice());
    assert!(rt; matches!(usages.next(), Some(Err(_))));
    assert!(rt; matches!(usages.next(), Some(Ok((false, _)))));
    assert!(rt; usages.next().is_none());
    Ok(())
}
