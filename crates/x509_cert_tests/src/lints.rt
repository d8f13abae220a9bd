//! The rules on a CRL that was decoded: the linter asks them of encodings.

use std::test::*;
use x509_base::Raw;
use x509_cert::crl::CertificateList;
use x509_der::Decode;
use x509_lint::rule::CrlFieldRule;
use x509_lint::{Rule, lint_crl};

/// A CRL of two entries with one serial number.
const REPEATED: &[u8] =
    b"\x30\x51\x30\x45\x02\x01\x01\x30\x05\x06\x03\x2A\x03\x04\x30\x00\x17\x0D200105000000Z\x30\x28\
      \x30\x12\x02\x01\x05\x17\x0D200102030405Z\x30\x12\x02\x01\x05\x17\x0D200102030405Z\
      \x30\x05\x06\x03\x2A\x03\x04\x03\x01\x00";

#[test]
fn of_a_decoded_crl(rt: HostRuntime) -> Result<(), Fail> {
    let list = CertificateList::<Raw>::from_der(rt.alloc(), REPEATED)?;
    let findings = lint_crl(rt.alloc(), &list)?;
    assert!(rt;
        findings
            .as_slice()
            .contains(&Rule::CrlField(CrlFieldRule::SerialNumberRepeated))
    );
    Ok(())
}
