//! Certificates.

use crate::content::{CheckContent, PlainContent};
use crate::field::{
    check_defaulted_explicit, check_field, check_optional_explicit, check_optional_implicit,
};
use x509_base::{AlgorithmIdentifier, Profile, SerialNumber, SubjectPublicKeyInfo, Validity};
use x509_cert::certificate::{CertificateInner, TbsCertificateInner, Version};
use x509_der::{Error, end};
use x509_ext::Extensions;
use x509_name::name::Name;
use x509_prim::{BitString, read_named_number};

impl PlainContent for Version {
    fn plain_value(octets: &[u8]) -> Result<Version, Error> {
        read_named_number(octets)
    }
}

impl CheckContent for Version {
    fn check_content(octets: &[u8]) -> Result<(), Error> {
        Version::plain_value(octets)?;
        Ok(())
    }
}

#[tactic(auto, unfolding(x509_cert::specs::Certificate::certificate_fields, x509_der::specs::Frames::fields_reading))]
impl<P: Profile> CheckContent for CertificateInner<P> {
    fn check_content(octets: &[u8]) -> Result<(), Error> {
        let mut rest = octets;
        check_field::<TbsCertificateInner<P>>(&mut rest)?;
        check_field::<AlgorithmIdentifier>(&mut rest)?;
        check_field::<BitString>(&mut rest)?;
        end(rest)
    }
}

#[tactic(auto, unfolding(x509_cert::specs::TbsCertificate::tbs_certificate_fields, x509_der::specs::Frames::fields_reading))]
impl<P: Profile> CheckContent for TbsCertificateInner<P> {
    fn check_content(octets: &[u8]) -> Result<(), Error> {
        let mut rest = octets;
        check_defaulted_explicit::<Version>(0, &mut rest)?;
        check_field::<SerialNumber<P>>(&mut rest)?;
        check_field::<AlgorithmIdentifier>(&mut rest)?;
        check_field::<Name>(&mut rest)?;
        check_field::<Validity<P>>(&mut rest)?;
        check_field::<Name>(&mut rest)?;
        check_field::<SubjectPublicKeyInfo>(&mut rest)?;
        check_optional_implicit::<BitString>(1, &mut rest)?;
        check_optional_implicit::<BitString>(2, &mut rest)?;
        check_optional_explicit::<Extensions>(3, &mut rest)?;
        end(rest)
    }
}
