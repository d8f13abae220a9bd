//! Encoded names that match (RFC 5280 7.1).

use std::test::*;
use x509_match::encoded_names_match;

/// `C=US` and the UTF8String `CN= John   Smith`, with a space in front and three between.
const SPACED: &[u8] =
    b"\x30\x25\x31\x0B\x30\x09\x06\x03\x55\x04\x06\x13\x02US\x31\x16\x30\x14\x06\x03\x55\x04\x03\x0C\x0D John   Smith";

/// `C=us` and the PrintableString `CN=JOHN SMITH`.
const CAPITALS: &[u8] =
    b"\x30\x22\x31\x0B\x30\x09\x06\x03\x55\x04\x06\x13\x02us\x31\x13\x30\x11\x06\x03\x55\x04\x03\x13\x0AJOHN SMITH";

/// Case is folded, and spaces in front and behind and further ones between count for nothing (RFC 4518 2.2 and 2.6.1).
#[test]
fn names(rt: HostRuntime) -> Result<(), Fail> {
    assert!(rt; encoded_names_match(rt.alloc(), SPACED, CAPITALS)?);
    Ok(())
}
