//! Numbers, strings, lists and sets: those that take memory, made and copied, and what `Debug` shows of them.

use crate::calls::{prints, shows};
use std::test::*;
use x509_base::{Raw, SerialNumber};
use x509_der::{Any, AnyRef, Bytes, Decode, FromAny, SequenceOf, SetOfVec, Tag};
use x509_prim::{
    BitString, BmpString, Int, OctetString, PrintableString, TeletexStringRef, Uint, Utf8String,
    VisibleString, VisibleStringRef,
};

/// As many octets as take memory, and what `Debug` shows of them.
const OCTETS: &[u8] = &[1; 25];

const SHOWN: &str = "[1, 1, 1, 1, 1, 1, 1, 1, 1, 1, 1, 1, 1, 1, 1, 1, 1, 1, 1, 1, 1, 1, 1, 1, 1]";

const SHOWN_BITS: &str =
    "[1, 1, 1, 1, 1, 1, 1, 1, 1, 1, 1, 1, 1, 1, 1, 1, 1, 1, 1, 1, 1, 1, 1, 1, 1], 0 unused";

/// A text of as many octets, and it in quotes.
const TEXT: &str = "more than twenty four letters";

const QUOTED: &str = "\"more than twenty four letters\"";

#[test]
fn shown(rt: HostRuntime) {
    let alloc = rt.alloc();
    let answers = [
        shows(&rt, Bytes::from_slice(alloc, OCTETS), SHOWN),
        shows(&rt, Int::new(alloc, OCTETS), SHOWN),
        shows(&rt, Uint::new(alloc, OCTETS), SHOWN),
        shows(&rt, OctetString::new(alloc, OCTETS), SHOWN),
        shows(&rt, BitString::new(alloc, 0, OCTETS), SHOWN_BITS),
        shows(&rt, BitString::from_bytes(alloc, OCTETS), SHOWN_BITS),
        shows(&rt, PrintableString::new(alloc, TEXT), QUOTED),
        shows(&rt, Utf8String::new(alloc, TEXT), QUOTED),
        shows(&rt, BmpString::from_str(alloc, "A€"), "[0, 65, 32, 172]"),
    ];
    assert!(rt; answers == [true; 9]);
    let answers = [
        prints(&rt, PrintableString::new(alloc, TEXT), TEXT),
        prints(&rt, Utf8String::new(alloc, TEXT), TEXT),
        shows(
            &rt,
            SequenceOf::<u8>::from_der(alloc, b"\x30\x06\x02\x01\x07\x02\x01\x05"),
            "[7, 5]",
        ),
        shows(
            &rt,
            SetOfVec::<u32>::from_der(alloc, b"\x31\x07\x02\x01\x09\x02\x02\x01\x2C"),
            "[9, 300]",
        ),
        shows(&rt, SerialNumber::<Raw>::from_u8(alloc, 5), "[5]"),
        prints(
            &rt,
            SerialNumber::<Raw>::new(alloc, b"\xAA\xBB\xCC\x01\x10\x00\x11"),
            "00:AA:BB:CC:01:10:00:11",
        ),
    ];
    assert!(rt; answers == [true; 6]);
}

/// Whether the value in the element, of the type that the tag tells, is made.
fn is_made_of(rt: &HostRuntime, tag: Tag, content: &[u8]) -> bool {
    let Ok(any) = Any::new(rt.alloc(), tag, content) else {
        return false;
    };
    match tag {
        Tag::VisibleString => VisibleString::from_any(rt.alloc(), &any).is_ok(),
        Tag::Utf8String => Utf8String::from_any(rt.alloc(), &any).is_ok(),
        Tag::BmpString => BmpString::from_any(rt.alloc(), &any).is_ok(),
        _ => OctetString::from_any(rt.alloc(), &any).is_ok(),
    }
}

/// The types of strings that are made of elements.
const STRINGS: [Tag; 4] = [
    Tag::VisibleString,
    Tag::Utf8String,
    Tag::BmpString,
    Tag::OctetString,
];

/// Whether the octets that were inside a value are moved into memory.
fn is_moved(rt: &HostRuntime) -> bool {
    match OctetString::new(rt.alloc(), &[1, 2]) {
        Ok(octets) => octets.into_bytes().is_ok(),
        Err(_) => false,
    }
}

/// Values out of elements; the types of two borrowed strings; and the octets and the members that were inside a value, moved into memory.
#[test]
fn made_of_others(rt: HostRuntime) {
    for tag in STRINGS {
        assert!(rt; is_made_of(&rt, tag, b"more than twenty four octets"));
    }
    let teletex = AnyRef::new(Tag::TeletexString, b"@");
    let visible = AnyRef::new(Tag::VisibleString, b"~");
    assert!(rt;
        matches!(teletex, Ok(any) if TeletexStringRef::from_any(any).is_ok())
            && matches!(visible, Ok(any) if VisibleStringRef::from_any(any).is_ok())
    );
    assert!(rt; is_moved(&rt) && SetOfVec::from_one(rt.alloc(), 5_u8).into_vec().is_ok());
}
