//! The names and bits of flags, and the numbers of reasons.

use bitflags::Flags;
use std::test::*;
use x509_der::Decode;
use x509_ext::pkix::crl::dp::Reasons;
use x509_ext::pkix::{CrlReason, KeyUsages};

/// The uses of a key, the named bit 0 first (RFC 5280 4.2.1.3).
static USES: [(&str, KeyUsages); 9] = [
    ("DIGITAL_SIGNATURE", KeyUsages::DIGITAL_SIGNATURE),
    ("NON_REPUDIATION", KeyUsages::NON_REPUDIATION),
    ("KEY_ENCIPHERMENT", KeyUsages::KEY_ENCIPHERMENT),
    ("DATA_ENCIPHERMENT", KeyUsages::DATA_ENCIPHERMENT),
    ("KEY_AGREEMENT", KeyUsages::KEY_AGREEMENT),
    ("KEY_CERT_SIGN", KeyUsages::KEY_CERT_SIGN),
    ("CRL_SIGN", KeyUsages::CRL_SIGN),
    ("ENCIPHER_ONLY", KeyUsages::ENCIPHER_ONLY),
    ("DECIPHER_ONLY", KeyUsages::DECIPHER_ONLY),
];

/// The reasons of distribution points, the named bit 0 first (RFC 5280 4.2.1.13).
static REASONS: [(&str, Reasons); 9] = [
    ("UNUSED", Reasons::UNUSED),
    ("KEY_COMPROMISE", Reasons::KEY_COMPROMISE),
    ("CA_COMPROMISE", Reasons::CA_COMPROMISE),
    ("AFFILIATION_CHANGED", Reasons::AFFILIATION_CHANGED),
    ("SUPERSEDED", Reasons::SUPERSEDED),
    ("CESSATION_OF_OPERATION", Reasons::CESSATION_OF_OPERATION),
    ("CERTIFICATE_HOLD", Reasons::CERTIFICATE_HOLD),
    ("PRIVILEGE_WITHDRAWN", Reasons::PRIVILEGE_WITHDRAWN),
    ("AA_COMPROMISE", Reasons::AA_COMPROMISE),
];

/// Each set of all flags gives them in the order of their bits, each with its name.
#[test]
fn named_bits(rt: HostRuntime) {
    let mut uses = KeyUsages::from_bits_retain(511).iter_names();
    let mut reasons = Reasons::from_bits_retain(511).iter_names();
    for bit in 0..9_usize {
        assert!(rt;
            USES[bit].1.bits() == 1 << bit && uses.next() == Some(USES[bit]),
            "{bit}"
        );
        assert!(rt;
            REASONS[bit].1.bits() == 1 << bit && reasons.next() == Some(REASONS[bit]),
            "{bit}"
        );
    }
    assert!(rt; uses.next().is_none() && reasons.next().is_none());
}

/// The reasons of an entry, and their numbers (RFC 5280 5.3.1).
static NUMBERS: [(u8, CrlReason); 10] = [
    (0, CrlReason::Unspecified),
    (1, CrlReason::KeyCompromise),
    (2, CrlReason::CaCompromise),
    (3, CrlReason::AffiliationChanged),
    (4, CrlReason::Superseded),
    (5, CrlReason::CessationOfOperation),
    (6, CrlReason::CertificateHold),
    (8, CrlReason::RemoveFromCRL),
    (9, CrlReason::PrivilegeWithdrawn),
    (10, CrlReason::AaCompromise),
];

#[test]
fn named_numbers(rt: HostRuntime) {
    for (number, reason) in &NUMBERS {
        let read = CrlReason::from_der(rt.alloc(), &[0x0A, 0x01, *number]);
        assert!(rt;
            matches!(read, Ok(found) if found == *reason),
            "of {number}"
        );
    }
}
