//! Texts of errors, and the octets of identifiers.

use crate::calls::{is_printed, shows};
use std::test::*;
use x509_der::{Error, ErrorKind, Tag, TagNumber};

/// The kinds of errors, and their texts.
static ERRORS: [(ErrorKind, &str); 6] = [
    (ErrorKind::Memory, "Memory"),
    (ErrorKind::Overlength, "Overlength"),
    (ErrorKind::Malformed, "Malformed"),
    (ErrorKind::Failed, "Failed"),
    (ErrorKind::SetDuplicate, "SetDuplicate"),
    (ErrorKind::Value, "Value"),
];

#[test]
fn errors(rt: HostRuntime) {
    for (kind, text) in &ERRORS {
        assert!(rt; is_printed(&rt, kind, text) && is_printed(&rt, &Error::from(*kind), text));
    }
    let malformed = Ok(Error::from(ErrorKind::Malformed));
    assert!(rt; shows(&rt, malformed, "Error { kind: Malformed }"));
}

/// The universal types that no type of the library has, and their identifier octets (X.680 8.4, X.690 8.1.2).
const UNIVERSAL: [(Tag, u8); 7] = [
    (Tag::Real, 0x09),
    (Tag::RelativeOid, 0x0D),
    (Tag::NumericString, 0x12),
    (Tag::VideotexString, 0x15),
    (Tag::GraphicString, 0x19),
    (Tag::GeneralString, 0x1B),
    (Tag::UniversalString, 0x1C),
];

/// Whether the constructed tags of that number, of the application and of its own, have these octets.
fn are_octets_of(number: TagNumber, of_application: u8, of_its_own: u8) -> bool {
    let constructed = true;
    let application = Tag::Application {
        constructed,
        number,
    };
    let private = Tag::Private {
        constructed,
        number,
    };
    application.octet() == of_application && private.octet() == of_its_own
}

/// Those types, and the constructed tags of number 3, of the application and of its own.
#[test]
fn tags(rt: HostRuntime) {
    for (tag, octet) in UNIVERSAL {
        assert!(rt; tag.octet() == octet, "of {octet}");
    }
    assert!(rt; matches!(TagNumber::new(3), Ok(number) if are_octets_of(number, 0x63, 0xE3)));
}
