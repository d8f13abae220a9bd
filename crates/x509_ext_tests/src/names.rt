//! Relative distinguished names (RDNs) and their sequences, how many iterators say are left, and look-ups in names.

use crate::calls::{is_printed, is_refused};
use std::test::*;
use x509_der::{Error, ErrorKind};
use x509_name::attr::AttributeTypeAndValue;
use x509_name::name::{DirectoryString, Name, RdnSequence, RelativeDistinguishedName};

/// Puts the attribute of the text into the set.
fn insert(rt: &HostRuntime, rdn: &mut RelativeDistinguishedName, text: &str) -> Result<(), Error> {
    rdn.insert(AttributeTypeAndValue::from_str(rt.alloc(), text)?)
}

/// Into a set of one attribute, a list, and an empty set.
#[test]
fn insertions(rt: HostRuntime) -> Result<(), Fail> {
    let mut one = RelativeDistinguishedName::from_str(rt.alloc(), "CN=a")?;
    assert!(rt; insert(&rt, &mut one, "O=b").is_ok());
    let mut rdns = RdnSequence::new(rt.alloc());
    assert!(rt; rdns.push(one).is_ok() && is_printed(&rt, &rdns, "CN=a+O=b"));
    let mut rdn = RelativeDistinguishedName::new(rt.alloc());
    assert!(rt;
        insert(&rt, &mut rdn, "CN=a").is_ok()
            && insert(&rt, &mut rdn, "O=b").is_ok()
            && is_refused(insert(&rt, &mut rdn, "CN=a"), ErrorKind::SetDuplicate)
    );
    Ok(())
}

/// Whether the name of the text has two RDNs, the first with so many attributes, and its iterators say so.
fn is_of_two(rt: &HostRuntime, text: &str, attributes: usize) -> bool {
    let Ok(name) = Name::from_str(rt.alloc(), text) else {
        return false;
    };
    let mut rdns = name.iter_rdn();
    let whole = rdns.size_hint();
    let first = match rdns.next() {
        Some(first) => first.iter().size_hint(),
        None => (0, None),
    };
    whole == (2, Some(2))
        && first == (attributes, Some(attributes))
        && rdns.size_hint() == (1, Some(1))
}

#[test]
fn size_hints(rt: HostRuntime) {
    assert!(rt; is_of_two(&rt, "CN=a,O=b", 1) && is_of_two(&rt, "CN=a,O=b+OU=c", 2));
}

/// Whether there is a string with the text; without one, whether the look-up is refused, as the value is no text.
fn is_answer(found: Result<Option<DirectoryString>, Error>, text: Option<&str>) -> bool {
    match found {
        Ok(Some(string)) => Some(string.as_ref()) == text,
        Ok(None) => false,
        Err(e) => text.is_none() && e.kind() == ErrorKind::Malformed,
    }
}

/// Whether the five look-ups in the name of the text answer so.
fn are_answers(rt: &HostRuntime, text: &str, texts: [Option<&str>; 5]) -> bool {
    let alloc = rt.alloc();
    let Ok(name) = Name::from_str(alloc, text) else {
        return false;
    };
    let [common_name, unit, organization, locality, state] = texts;
    let answers = [
        is_answer(name.common_name(alloc), common_name),
        is_answer(name.organization_unit(alloc), unit),
        is_answer(name.organization(alloc), organization),
        is_answer(name.locality(alloc), locality),
        is_answer(name.state_or_province(alloc), state),
    ];
    answers == [true; 5]
}

/// An OCTET STRING is no case of DirectoryString (RFC 5280 A.1).
#[test]
fn look_ups(rt: HostRuntime) {
    let texts = [
        Some("John"),
        Some("CA"),
        Some("123"),
        Some("Rome"),
        Some("Ohio"),
    ];
    assert!(rt; are_answers(&rt, "CN=John,OU=XY,OU=CA,O=123,L=Rome,ST=Ohio", texts));
    let octets = "CN=#04024869,OU=#04024869,O=#04024869,L=#04024869,ST=#04024869";
    assert!(rt; are_answers(&rt, octets, [None; 5]));
}
