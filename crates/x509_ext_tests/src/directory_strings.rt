//! DirectoryString: its text, lent and owned, where there is memory for it.

use crate::calls::{is_refused, is_text};
use std::test::*;
use x509_der::{Any, Decode, ErrorKind, TryClone};
use x509_name::name::DirectoryString;

/// Whether a copy of the string's text is the text.
fn has_text(rt: &HostRuntime, string: &DirectoryString, text: &str) -> bool {
    let Ok(found) = string.value(rt.alloc()) else {
        return false;
    };
    match found.try_clone(rt.alloc()) {
        Ok(copy) => copy.as_str() == text,
        Err(_) => false,
    }
}

/// Whether the string with these bytes has the text, and a copy of it becomes the text.
fn is_string(rt: &HostRuntime, bytes: &[u8], text: &str) -> bool {
    let Ok(string) = DirectoryString::from_der(rt.alloc(), bytes) else {
        return false;
    };
    match string.try_clone(rt.alloc()) {
        Ok(copy) => has_text(rt, &string, text) && is_text(copy.into_string(rt.alloc()), text),
        Err(_) => false,
    }
}

/// Whether there is a string in the element with these bytes.
fn is_in_element(rt: &HostRuntime, bytes: &[u8]) -> bool {
    match Any::from_der(rt.alloc(), bytes) {
        Ok(any) => DirectoryString::from_any(rt.alloc(), &any).is_ok(),
        Err(_) => false,
    }
}

/// A string of each case, and its text.
static STRINGS: [(&[u8], &str); 4] = [
    (b"\x13\x02US", "US"),
    (b"\x14\x01@", "@"),
    (b"\x0C\x02\xC3\xA4", "ä"),
    (b"\x1E\x04\x00\x41\x20\xAC", "A€"),
];

/// Those, also out of elements; and a NULL, in which there is none.
#[test]
fn strings(rt: HostRuntime) {
    for (bytes, text) in &STRINGS {
        assert!(rt;
            is_string(&rt, bytes, text) && is_in_element(&rt, bytes),
            "of {text}"
        );
    }
    let null = Any::null(rt.alloc());
    assert!(rt;
        is_refused(
            DirectoryString::from_any(rt.alloc(), &null),
            ErrorKind::Malformed
        )
    );
}
