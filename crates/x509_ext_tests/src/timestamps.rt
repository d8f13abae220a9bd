//! Signed certificate timestamps, and lists of them.

use crate::calls::{gives, is_printed, is_text};
use std::test::*;
use x509_der::{Decode, Error as DerError, ErrorKind};
use x509_sct::tls::{NamedByte, Tls, TlsByteVecU16, TlsError};
use x509_sct::{
    Error, HashAlgorithm, PreCert, SerializedSct, SignatureAlgorithm, SignatureType,
    SignedCertificateTimestamp, SignedCertificateTimestampList, SignedEntry,
};

/// A list of one timestamp: the log of 32 octets 2A, 1,683,095,206,506 milliseconds, no extensions, and the signature
/// of the octets 0, 1 and 2 with SHA-256 and ECDSA.
static ONE: [u8; 56] = [
    0x04, 0x36, 0x00, 0x34, 0x00, 0x32, 0x00, 0x2A, 0x2A, 0x2A, 0x2A, 0x2A, 0x2A, 0x2A, 0x2A, 0x2A,
    0x2A, 0x2A, 0x2A, 0x2A, 0x2A, 0x2A, 0x2A, 0x2A, 0x2A, 0x2A, 0x2A, 0x2A, 0x2A, 0x2A, 0x2A, 0x2A,
    0x2A, 0x2A, 0x2A, 0x2A, 0x2A, 0x2A, 0x2A, 0x00, 0x00, 0x01, 0x87, 0xE0, 0x4A, 0xBA, 0x6A, 0x00,
    0x00, 0x04, 0x03, 0x00, 0x03, 0x00, 0x01, 0x02,
];

/// The first timestamp of the list that is written so.
fn first_of(rt: &HostRuntime, bytes: &[u8]) -> Result<SignedCertificateTimestamp, Error> {
    let list = SignedCertificateTimestampList::from_der(rt.alloc(), bytes)?;
    let items = list.parse_timestamps(rt.alloc())?;
    match items.first() {
        Some(item) => item.parse_timestamp(rt.alloc()),
        None => Err(Error::Tls(TlsError::EndOfStream)),
    }
}

/// The list of the timestamp.
fn list_of(
    rt: &HostRuntime,
    timestamp: SignedCertificateTimestamp,
) -> Result<SignedCertificateTimestampList, Error> {
    let serialized = SerializedSct::new(rt.alloc(), timestamp)?;
    SignedCertificateTimestampList::new(rt.alloc(), &[serialized])
}

/// Whether the timestamp is signed for an entry, of a certificate and of a precertificate.
fn is_signed(rt: &HostRuntime, timestamp: &SignedCertificateTimestamp) -> bool {
    let certificate = SignedEntry::X509(b"\x30\x02\x05\x00");
    let precertificate = SignedEntry::Precert(PreCert {
        issuer_key_hash: [0x5A; 32],
        tbs_certificate: b"\x30\x02\x05\x00",
    });
    timestamp.signed_input(rt.alloc(), &certificate).is_ok()
        && timestamp.signed_input(rt.alloc(), &precertificate).is_ok()
}

/// Whether the timestamp in [`ONE`] is serialized and signed, and makes that list again.
fn is_made_again(rt: &HostRuntime) -> bool {
    match first_of(rt, &ONE) {
        Ok(found) => {
            found.tls_serialize(rt.alloc()).is_ok()
                && is_signed(rt, &found)
                && gives(rt, list_of(rt, found), &ONE)
        }
        Err(_) => false,
    }
}

#[test]
fn lists(rt: HostRuntime) {
    let front = SignedCertificateTimestamp::tls_deserialize_bytes(rt.alloc(), &ONE[6..]);
    assert!(rt; front.is_ok() && is_made_again(&rt));
}

/// Whether no timestamp is had of the list by that fault of TLS.
fn is_fault(rt: &HostRuntime, list: &[u8], fault: TlsError) -> bool {
    match first_of(rt, list) {
        Err(Error::Tls(found)) => found == fault,
        _ => false,
    }
}

/// Whether no timestamp is had of [`ONE`] with that byte put at that place, and none is taken from the front of its bytes.
fn is_spoilt(rt: &HostRuntime, place: usize, byte: u8, fault: TlsError) -> bool {
    let mut bytes = ONE;
    if let Some(at) = bytes.get_mut(place) {
        *at = byte;
    }
    match SignedCertificateTimestamp::tls_deserialize_bytes(rt.alloc(), &bytes[6..]) {
        Ok(_) => false,
        Err(e) => e == fault && is_fault(rt, &bytes, fault),
    }
}

/// A version, a hash and a signature without a name, and a signature that is longer than what is there.
static SPOILT: [(usize, u8, TlsError); 4] = [
    (6, 1, TlsError::UnknownValue(1)),
    (49, 7, TlsError::UnknownValue(7)),
    (50, 9, TlsError::UnknownValue(9)),
    (52, 4, TlsError::EndOfStream),
];

/// Lists that are cut off or go on, and of timestamps of no version and of no octets.
static LISTS: [(&[u8], TlsError); 4] = [
    (b"\x04\x03\x00\x01\x00", TlsError::EndOfStream),
    (b"\x04\x03\x00\x00\x00", TlsError::TrailingData),
    (b"\x04\x05\x00\x03\x00\x01\x41", TlsError::UnknownValue(65)),
    (b"\x04\x04\x00\x02\x00\x00", TlsError::EndOfStream),
];

/// Those; and a timestamp that goes on behind a signature of two octets.
#[test]
fn refusals(rt: HostRuntime) {
    for (place, byte, fault) in &SPOILT {
        assert!(rt; is_spoilt(&rt, *place, *byte, *fault), "at {place}");
    }
    for (list, fault) in &LISTS {
        assert!(rt; is_fault(&rt, list, *fault), "{fault}");
    }
    let mut bytes = ONE;
    bytes[52] = 2;
    assert!(rt; is_fault(&rt, &bytes, TlsError::TrailingData));
}

/// The hash algorithms (RFC 5246 section 7.4.1.4.1, RFC 8422 section 5.1.3).
static HASHES: [(HashAlgorithm, u8); 8] = [
    (HashAlgorithm::None, 0),
    (HashAlgorithm::Md5, 1),
    (HashAlgorithm::Sha1, 2),
    (HashAlgorithm::Sha224, 3),
    (HashAlgorithm::Sha256, 4),
    (HashAlgorithm::Sha384, 5),
    (HashAlgorithm::Sha512, 6),
    (HashAlgorithm::Intrinsic, 8),
];

/// The signature algorithms.
static SIGNATURES: [(SignatureAlgorithm, u8); 6] = [
    (SignatureAlgorithm::Anonymous, 0),
    (SignatureAlgorithm::Rsa, 1),
    (SignatureAlgorithm::Dsa, 2),
    (SignatureAlgorithm::Ecdsa, 3),
    (SignatureAlgorithm::Ed25519, 7),
    (SignatureAlgorithm::Ed448, 8),
];

#[test]
fn bytes_of_algorithms(rt: HostRuntime) {
    for (hash, byte) in &HASHES {
        assert!(rt; hash.byte() == *byte);
    }
    for (signature, byte) in &SIGNATURES {
        assert!(rt; signature.byte() == *byte);
    }
    assert!(rt; SignatureType::TreeHash.byte() == 1);
}

/// Whether `Debug` shows the octets of a vector.
fn is_vector_shown(rt: &HostRuntime) -> bool {
    match TlsByteVecU16::from_slice(rt.alloc(), &[1, 2]) {
        Ok(octets) => is_text(format!(in rt.alloc(); "{octets:?}"), "[1, 2]"),
        Err(_) => false,
    }
}

#[test]
fn printed(rt: HostRuntime) {
    let unknown = Error::from(TlsError::UnknownValue(7));
    let value = Error::from(DerError::from(ErrorKind::Value));
    assert!(rt;
        is_vector_shown(&rt)
            && is_printed(&rt, &unknown, "UnknownValue(7)")
            && is_printed(&rt, &value, "Value")
    );
}
