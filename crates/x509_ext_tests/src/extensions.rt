//! Extensions that are made of their payloads: identifiers and criticality (RFC 5280 4.2 and 5.2, RFC 6962 3), refusals, and memory.

use crate::calls::{is_made, is_refused};
use bitflags::Flags;
use std::test::*;
use x509_der::{AssociatedOid, Decode, Encode, ErrorKind, ObjectIdentifier, TryClone, oid};
use x509_ext::pkix::crl::dp::Reasons;
use x509_ext::pkix::{
    AuthorityInfoAccessSyntax, AuthorityKeyIdentifier, BaseCrlNumber, BasicConstraints,
    CertificateIssuer, CertificatePolicies, CrlDistributionPoints, CrlNumber, CrlReason,
    ExtendedKeyUsage, FreshestCrl, InhibitAnyPolicy, IssuerAltName, IssuingDistributionPoint,
    KeyUsage, KeyUsages, NameConstraints, PolicyConstraints, PolicyMappings, PrivateKeyUsagePeriod,
    SubjectAltName, SubjectDirectoryAttributes, SubjectInfoAccessSyntax, SubjectKeyIdentifier,
};
use x509_ext::{Criticality, ToExtension};
use x509_name::name::Name;
use x509_prim::OctetString;
use x509_sct::{CtPrecertificatePoison, SignedCertificateTimestampList};

/// Whether the bytes behind the front of the extension are those of a payload, of whose copy the extension is made.
fn is_payload<T>(rt: &HostRuntime, row: &(usize, &[u8])) -> bool
where
    T: AssociatedOid + Criticality + Decode + Encode + TryClone + Drop,
{
    let (front, extension) = *row;
    let Some(bytes) = extension.get(front..) else {
        return false;
    };
    let Ok(payload) = T::from_der(rt.alloc(), bytes) else {
        return false;
    };
    match payload.try_clone(rt.alloc()) {
        Ok(copy) => is_made(rt, &copy, extension),
        Err(_) => false,
    }
}

/// Extensions of keys and their uses: how many octets stand before the payload, and the whole.
static KEYS: [(usize, &[u8]); 6] = [
    (9, b"\x30\x0A\x06\x03\x55\x1D\x0E\x04\x03\x04\x01\xAA"),
    (
        12,
        b"\x30\x0E\x06\x03\x55\x1D\x0F\x01\x01\xFF\x04\x04\x03\x02\x07\x80",
    ),
    (9, b"\x30\x09\x06\x03\x55\x1D\x10\x04\x02\x30\x00"),
    (
        9,
        b"\x30\x14\x06\x03\x55\x1D\x23\x04\x0D\x30\x0B\x80\x01\xAA\xA1\x03\x82\x01\x61\x82\x01\x2A",
    ),
    (9, b"\x30\x09\x06\x03\x55\x1D\x25\x04\x02\x30\x00"),
    (
        9,
        b"\x30\x12\x06\x03\x55\x1D\x09\x04\x0B\x30\x09\x30\x07\x06\x03\x55\x04\x06\x31\x00",
    ),
];

#[test]
fn of_keys(rt: HostRuntime) {
    let answers = [
        is_payload::<SubjectKeyIdentifier>(&rt, &KEYS[0]),
        is_payload::<KeyUsage>(&rt, &KEYS[1]),
        is_payload::<PrivateKeyUsagePeriod>(&rt, &KEYS[2]),
        is_payload::<AuthorityKeyIdentifier>(&rt, &KEYS[3]),
        is_payload::<ExtendedKeyUsage>(&rt, &KEYS[4]),
        is_payload::<SubjectDirectoryAttributes>(&rt, &KEYS[5]),
    ];
    assert!(rt; answers == [true; 6]);
}

/// Those of names and places, and of logs. Under an empty subject the SAN is critical (RFC 5280 4.2.1.6).
static PARTIES: [(usize, &[u8]); 6] = [
    (
        12,
        b"\x30\x0C\x06\x03\x55\x1D\x11\x01\x01\xFF\x04\x02\x30\x00",
    ),
    (
        9,
        b"\x30\x0F\x06\x03\x55\x1D\x12\x04\x08\x30\x06\x87\x04\x7F\x00\x00\x01",
    ),
    (
        14,
        b"\x30\x1D\x06\x08\x2B\x06\x01\x05\x05\x07\x01\x01\x04\x11\x30\x0F\x30\x0D\x06\x08\x2B\x06\x01\x05\x05\x07\x30\x01\x86\x01\x78",
    ),
    (
        14,
        b"\x30\x1D\x06\x08\x2B\x06\x01\x05\x05\x07\x01\x0B\x04\x11\x30\x0F\x30\x0D\x06\x08\x2B\x06\x01\x05\x05\x07\x30\x01\x86\x01\x78",
    ),
    (
        16,
        b"\x30\x12\x06\x0A\x2B\x06\x01\x04\x01\xD6\x79\x02\x04\x02\x04\x04\x04\x02\x00\x00",
    ),
    (
        19,
        b"\x30\x13\x06\x0A\x2B\x06\x01\x04\x01\xD6\x79\x02\x04\x03\x01\x01\xFF\x04\x02\x05\x00",
    ),
];

#[test]
fn of_parties(rt: HostRuntime) {
    let answers = [
        is_payload::<SubjectAltName>(&rt, &PARTIES[0]),
        is_payload::<IssuerAltName>(&rt, &PARTIES[1]),
        is_payload::<AuthorityInfoAccessSyntax>(&rt, &PARTIES[2]),
        is_payload::<SubjectInfoAccessSyntax>(&rt, &PARTIES[3]),
        is_payload::<SignedCertificateTimestampList>(&rt, &PARTIES[4]),
        is_payload::<CtPrecertificatePoison>(&rt, &PARTIES[5]),
    ];
    assert!(rt; answers == [true; 6]);
}

/// Those of policies and constraints.
static POLICIES: [(usize, &[u8]); 6] = [
    (
        9,
        b"\x30\x22\x06\x03\x55\x1D\x20\x04\x1B\x30\x19\x30\x17\x06\x02\x2A\x03\x30\x11\x30\x0F\x06\x08\x2B\x06\x01\x05\x05\x07\x02\x01\x16\x03\x61\x3A\x62",
    ),
    (
        12,
        b"\x30\x16\x06\x03\x55\x1D\x21\x01\x01\xFF\x04\x0C\x30\x0A\x30\x08\x06\x02\x2A\x03\x06\x02\x2A\x04",
    ),
    (
        12,
        b"\x30\x0C\x06\x03\x55\x1D\x24\x01\x01\xFF\x04\x02\x30\x00",
    ),
    (
        12,
        b"\x30\x0D\x06\x03\x55\x1D\x36\x01\x01\xFF\x04\x03\x02\x01\x00",
    ),
    (
        12,
        b"\x30\x0F\x06\x03\x55\x1D\x13\x01\x01\xFF\x04\x05\x30\x03\x01\x01\xFF",
    ),
    (
        12,
        b"\x30\x13\x06\x03\x55\x1D\x1E\x01\x01\xFF\x04\x09\x30\x07\xA1\x05\x30\x03\x82\x01\x61",
    ),
];

#[test]
fn of_policies(rt: HostRuntime) {
    let answers = [
        is_payload::<CertificatePolicies>(&rt, &POLICIES[0]),
        is_payload::<PolicyMappings>(&rt, &POLICIES[1]),
        is_payload::<PolicyConstraints>(&rt, &POLICIES[2]),
        is_payload::<InhibitAnyPolicy>(&rt, &POLICIES[3]),
        is_payload::<BasicConstraints>(&rt, &POLICIES[4]),
        is_payload::<NameConstraints>(&rt, &POLICIES[5]),
    ];
    assert!(rt; answers == [true; 6]);
}

/// Those of CRLs.
static LISTS: [(usize, &[u8]); 7] = [
    (9, b"\x30\x0A\x06\x03\x55\x1D\x14\x04\x03\x02\x01\x01"),
    (9, b"\x30\x0A\x06\x03\x55\x1D\x15\x04\x03\x0A\x01\x01"),
    (
        12,
        b"\x30\x0F\x06\x03\x55\x1D\x1D\x01\x01\xFF\x04\x05\x30\x03\x86\x01\x61",
    ),
    (
        12,
        b"\x30\x0D\x06\x03\x55\x1D\x1B\x01\x01\xFF\x04\x03\x02\x01\x01",
    ),
    (
        12,
        b"\x30\x10\x06\x03\x55\x1D\x1C\x01\x01\xFF\x04\x06\x30\x04\xA0\x02\xA1\x00",
    ),
    (
        9,
        b"\x30\x16\x06\x03\x55\x1D\x1F\x04\x0F\x30\x0D\x30\x0B\xA0\x05\xA0\x03\x86\x01\x61\x81\x02\x06\x40",
    ),
    (9, b"\x30\x09\x06\x03\x55\x1D\x2E\x04\x02\x30\x00"),
];

#[test]
fn of_lists(rt: HostRuntime) {
    let answers = [
        is_payload::<CrlNumber>(&rt, &LISTS[0]),
        is_payload::<CrlReason>(&rt, &LISTS[1]),
        is_payload::<CertificateIssuer>(&rt, &LISTS[2]),
        is_payload::<BaseCrlNumber>(&rt, &LISTS[3]),
        is_payload::<IssuingDistributionPoint>(&rt, &LISTS[4]),
        is_payload::<CrlDistributionPoints>(&rt, &LISTS[5]),
        is_payload::<FreshestCrl>(&rt, &LISTS[6]),
    ];
    assert!(rt; answers == [true; 7]);
}

/// 1.2.3.4.
const IDENTIFIER: ObjectIdentifier = oid!(0x2A, 3, 4);

/// A usage as critical as it says under 1.2.3.4, not critical under its own identifier, and not critical under that.
const AS_IT_SAYS: &[u8] = b"\x30\x0E\x06\x03\x2A\x03\x04\x01\x01\xFF\x04\x04\x03\x02\x07\x80";

const UNDER_ITS_OWN: &[u8] = b"\x30\x0B\x06\x03\x55\x1D\x0F\x04\x04\x03\x02\x07\x80";

const UNDER_ANOTHER: &[u8] = b"\x30\x0B\x06\x03\x2A\x03\x04\x04\x04\x03\x02\x07\x80";

/// A usage in three forms; and bits without a name.
#[test]
fn usages(rt: HostRuntime) {
    let usage = KeyUsage(KeyUsages::DIGITAL_SIGNATURE);
    assert!(rt;
        is_made(&rt, (IDENTIFIER, &usage), AS_IT_SAYS)
            && is_made(&rt, (false, &usage), UNDER_ITS_OWN)
            && is_made(&rt, (IDENTIFIER, false, &usage), UNDER_ANOTHER)
    );
    let unnamed = KeyUsage(KeyUsages::from_bits_retain(512));
    let made = (&unnamed).to_extension(rt.alloc(), &Name::new(rt.alloc()), &[]);
    assert!(rt; is_refused(made, ErrorKind::Value));
    let encoded = Reasons::from_bits_retain(512).to_der(rt.alloc());
    assert!(rt; is_refused(encoded, ErrorKind::Value));
}

/// Whether the extension of a key identifier of so many octets has memory of just the length of its value.
fn is_held_exactly(rt: &HostRuntime, len: usize) -> bool {
    let Ok(octets) = Vec::from_elem(rt.alloc(), 0xAA, len) else {
        return false;
    };
    let Ok(octets) = OctetString::from_vec(octets) else {
        return false;
    };
    let payload = SubjectKeyIdentifier(octets);
    let Ok(extension) = (&payload).to_extension(rt.alloc(), &Name::new(rt.alloc()), &[]) else {
        return false;
    };
    match extension.extn_value.into_bytes() {
        Ok(value) => value.len() == len + 4 && value.capacity() == value.len(),
        Err(_) => false,
    }
}

/// The longest identifier whose encoding is made on the stack, the next one, and a long one.
static LENGTHS: [usize; 3] = [508, 509, 5000];

#[test]
fn long_values_take_no_memory_to_spare(rt: HostRuntime) {
    for len in &LENGTHS {
        assert!(rt; is_held_exactly(&rt, *len), "of {len}");
    }
}
