//! CSRs.

use crate::content::CheckContent;
use crate::field::{check_field, check_implicit};
use x509_base::{AlgorithmIdentifier, SubjectPublicKeyInfo};
use x509_cert::request::{CertReq, CertReqInfo, Version};
use x509_der::{Error, end};
use x509_name::attr::Attributes;
use x509_name::name::Name;
use x509_prim::{BitString, read_named_number};

impl CheckContent for Version {
    fn check_content(octets: &[u8]) -> Result<(), Error> {
        read_named_number::<Version>(octets)?;
        Ok(())
    }
}

#[tactic(auto, unfolding(x509_cert::specs::CertReq::cert_req_info_fields, x509_der::specs::Frames::fields_reading))]
impl CheckContent for CertReqInfo {
    fn check_content(octets: &[u8]) -> Result<(), Error> {
        let mut rest = octets;
        check_field::<Version>(&mut rest)?;
        check_field::<Name>(&mut rest)?;
        check_field::<SubjectPublicKeyInfo>(&mut rest)?;
        check_implicit::<Attributes>(0, &mut rest)?;
        end(rest)
    }
}

#[tactic(auto, unfolding(x509_cert::specs::CertReq::cert_req_fields, x509_der::specs::Frames::fields_reading))]
impl CheckContent for CertReq {
    fn check_content(octets: &[u8]) -> Result<(), Error> {
        let mut rest = octets;
        check_field::<CertReqInfo>(&mut rest)?;
        check_field::<AlgorithmIdentifier>(&mut rest)?;
        check_field::<BitString>(&mut rest)?;
        end(rest)
    }
}
