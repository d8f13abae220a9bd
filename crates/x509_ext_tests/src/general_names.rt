//! Hardware modules as general names (RFC 4108 5).

use crate::calls::gives;
use std::test::*;
use x509_der::{Decode, ErrorKind};
use x509_ext::pkix::name::{HardwareModuleName, OtherName};

/// The name that holds the module of the type 1.2.3.4 with the serial number AA.
const NAME_OF_MODULE: &[u8] =
    b"\x30\x16\x06\x08\x2B\x06\x01\x05\x05\x07\x08\x04\xA0\x0A\x30\x08\x06\x03\x2A\x03\x04\x04\x01\xAA";

/// A user's name under 1.3.6.1.4.1.311.20.2.3.
const USER: &[u8] = b"\x30\x11\x06\x0A\x2B\x06\x01\x04\x01\x82\x37\x14\x02\x03\xA0\x03\x0C\x01u";

/// A NULL where a module is to stand.
const SPOILT: &[u8] = b"\x30\x0E\x06\x08\x2B\x06\x01\x05\x05\x07\x08\x04\xA0\x02\x05\x00";

/// Whether a module is found in the name with these bytes, of which that name is made again; or why none can be.
fn found(rt: &HostRuntime, bytes: &[u8]) -> Result<bool, ErrorKind> {
    let Ok(name) = OtherName::from_der(rt.alloc(), bytes) else {
        return Ok(false);
    };
    match HardwareModuleName::from_other_name(rt.alloc(), &name) {
        Ok(Some(module)) => {
            let made = OtherName::from_hardware_module(rt.alloc(), &module);
            Ok(gives(rt, made, bytes))
        }
        Ok(None) => Ok(false),
        Err(e) => Err(e.kind()),
    }
}

#[test]
fn hardware_modules(rt: HostRuntime) {
    assert!(rt;
        matches!(found(&rt, NAME_OF_MODULE), Ok(true))
            && matches!(found(&rt, USER), Ok(false))
            && matches!(found(&rt, SPOILT), Err(ErrorKind::Malformed))
    );
}
