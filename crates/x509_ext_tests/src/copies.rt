//! Copies, where there is memory for them.

use std::test::*;
use x509_base::{AlgorithmIdentifier, SerialNumber, SubjectPublicKeyInfo};
use x509_der::{Any, Decode, SetOfVec, TryClone};
use x509_ext::Extension;
use x509_ext::pkix::certpolicy::UserNotice;
use x509_ext::pkix::name::{GeneralName, HardwareModuleName, OtherName};
use x509_name::name::Name;

/// Whether the value with these bytes is copied.
fn is_copied<T: Decode + TryClone + Drop>(rt: &HostRuntime, bytes: &[u8]) -> bool {
    match T::from_der(rt.alloc(), bytes) {
        Ok(value) => value.try_clone(rt.alloc()).is_ok(),
        Err(_) => false,
    }
}

/// A general name of each kind, in the order of their tags (RFC 5280 4.2.1.6).
static GENERAL_NAMES: [&[u8]; 8] = [
    b"\xA0\x09\x06\x03\x2A\x03\x04\xA0\x02\x05\x00",
    b"\x81\x01a",
    b"\x82\x01a",
    b"\xA4\x0E\x30\x0C\x31\x0A\x30\x08\x06\x03\x55\x04\x03\x0C\x01a",
    b"\xA5\x0A\xA0\x03\x13\x01B\xA1\x03\x0C\x01A",
    b"\x86\x01a",
    b"\x87\x00",
    b"\x88\x03\x55\x04\x06",
];

/// CN=a.
const NAME: &[u8] = b"\x30\x0C\x31\x0A\x30\x08\x06\x03\x55\x04\x03\x0C\x01a";

/// The set of CN=a and O=b.
const NAMES: &[u8] =
    b"\x31\x1C\x30\x0C\x31\x0A\x30\x08\x06\x03\x55\x04\x03\x0C\x01a\x30\x0C\x31\x0A\x30\x08\x06\x03\x55\x04\x0A\x0C\x01b";

/// Eight bits of a key of the algorithm 1.2.3.4.
const KEY: &[u8] = b"\x30\x0B\x30\x05\x06\x03\x2A\x03\x04\x03\x02\x00\xF0";

/// The notice of number 1 of the organization `O` with the text `A` as UTF8String.
const NOTICE: &[u8] = b"\x30\x0D\x30\x08\x16\x01O\x30\x03\x02\x01\x01\x0C\x01A";

/// The module of the type 1.2.3.4 with the serial number AA (RFC 4108 5).
const MODULE: &[u8] = b"\x30\x08\x06\x03\x2A\x03\x04\x04\x01\xAA";

#[test]
fn copies(rt: HostRuntime) {
    for bytes in &GENERAL_NAMES {
        assert!(rt; is_copied::<GeneralName>(&rt, bytes));
    }
    let answers = [
        is_copied::<Any>(&rt, NAMES),
        is_copied::<Name>(&rt, NAME),
        is_copied::<SetOfVec<Name>>(&rt, NAMES),
        is_copied::<SerialNumber>(&rt, b"\x02\x01\xFF"),
        is_copied::<AlgorithmIdentifier>(&rt, b"\x30\x07\x06\x03\x2A\x03\x04\x05\x00"),
        is_copied::<SubjectPublicKeyInfo>(&rt, KEY),
        is_copied::<UserNotice>(&rt, NOTICE),
        is_copied::<OtherName>(&rt, b"\x30\x09\x06\x03\x2A\x03\x04\xA0\x02\x05\x00"),
        is_copied::<HardwareModuleName>(&rt, MODULE),
        is_copied::<Extension>(&rt, b"\x30\x0A\x06\x03\x55\x1D\x0E\x04\x03\x04\x01\xAA"),
    ];
    assert!(rt; answers == [true; 10]);
}
