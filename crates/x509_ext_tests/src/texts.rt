//! Names from text and to text: attributes, RDNs, and refusals. What a text is read as, what is printed, and each refusal, are clauses.

use crate::calls::{are_bytes, is_refused, prints};
use std::test::*;
use x509_der::ErrorKind;
use x509_name::attr::AttributeTypeAndValue;
use x509_name::name::{Name, RelativeDistinguishedName};

/// Whether the text is read as a name, which prints it.
pub fn prints_back(rt: &HostRuntime, text: &str) -> bool {
    prints(rt, Name::from_str(rt.alloc(), text), text)
}

/// A text of one attribute, and its encoding.
const NET: &str = "DC=net";

const NET_ENCODING: &[u8] = b"\x30\x11\x06\x0A\x09\x92\x26\x89\x93\xF2\x2C\x64\x01\x19\x16\x03net";

#[test]
fn rows(rt: HostRuntime) {
    let alloc = rt.alloc();
    let answers = [
        prints_back(&rt, "CN=foo,SN=bar,C=baz+L=bat"),
        prints_back(&rt, "CN=a\\0ab,1.3.6.1.4.1.1466.0=#04024869"),
        prints(&rt, RelativeDistinguishedName::from_str(alloc, NET), NET),
        prints(&rt, AttributeTypeAndValue::from_str(alloc, NET), NET),
        are_bytes(
            AttributeTypeAndValue::encode_from_string(alloc, NET),
            NET_ENCODING,
        ),
    ];
    assert!(rt; answers == [true; 5]);
}

/// Texts of no attribute: half an escape, no octets, no value.
static NO_ATTRIBUTES: [&str; 3] = ["CN=a\\4", "CN=#", "CN"];

/// What is no attribute is no RDN and no name either; nor is what has an attribute twice.
#[test]
fn refusals(rt: HostRuntime) {
    let alloc = rt.alloc();
    for text in &NO_ATTRIBUTES {
        let encoded = AttributeTypeAndValue::encode_from_string(alloc, text);
        let answers = [
            is_refused(encoded, ErrorKind::Failed),
            is_refused(
                AttributeTypeAndValue::from_str(alloc, text),
                ErrorKind::Failed,
            ),
            is_refused(
                RelativeDistinguishedName::from_str(alloc, text),
                ErrorKind::Failed,
            ),
            is_refused(Name::from_str(alloc, text), ErrorKind::Failed),
        ];
        assert!(rt; answers == [true; 4], "at {text}");
    }
    let rdn = RelativeDistinguishedName::from_str(alloc, "CN=b+CN=b");
    assert!(rt;
        is_refused(rdn, ErrorKind::SetDuplicate)
            && is_refused(
                Name::from_str(alloc, "CN=b+CN=b,CN=a"),
                ErrorKind::SetDuplicate
            )
    );
}
