//! Trust anchors.

use crate::check::{Check, pass_whole};
use crate::content::{CheckContent, PlainContent};
use crate::field::{
    check_defaulted, check_field, check_optional, check_optional_explicit, check_optional_implicit,
};
use x509_base::{Profile, SubjectPublicKeyInfo};
use x509_cert::anchor::{
    CertPathControls, CertPolicies, CertPolicyFlags, TrustAnchorChoice, TrustAnchorInfo, Version,
};
use x509_cert::certificate::{CertificateInner, TbsCertificateInner};
use x509_der::{Error, ErrorKind, end};
use x509_ext::Extensions;
use x509_ext::pkix::{CertificatePolicies, NameConstraints};
use x509_name::name::Name;
use x509_prim::{OctetString, Utf8String, read_named_bits, read_named_number};

impl PlainContent for Version {
    fn plain_value(octets: &[u8]) -> Result<Version, Error> {
        read_named_number(octets)
    }
}

impl CheckContent for Version {
    fn check_content(octets: &[u8]) -> Result<(), Error> {
        Version::plain_value(octets)?;
        Ok(())
    }
}

#[tactic(auto, using(x509_prim::specs::NamedBitsLaws::flag_is_read))]
impl CheckContent for CertPolicies {
    fn check_content(octets: &[u8]) -> Result<(), Error> {
        read_named_bits::<CertPolicies>(octets)?;
        Ok(())
    }
}

#[tactic(auto, unfolding(x509_cert::specs::CertPathControls::cert_path_controls_fields, x509_der::specs::Frames::fields_reading))]
impl<P: Profile> CheckContent for CertPathControls<P> {
    fn check_content(octets: &[u8]) -> Result<(), Error> {
        let mut rest = octets;
        check_field::<Name>(&mut rest)?;
        check_optional_implicit::<CertificateInner<P>>(0, &mut rest)?;
        check_optional_implicit::<CertificatePolicies>(1, &mut rest)?;
        check_optional_implicit::<CertPolicyFlags>(2, &mut rest)?;
        check_optional_implicit::<NameConstraints>(3, &mut rest)?;
        check_optional_implicit::<u32>(4, &mut rest)?;
        end(rest)
    }
}

#[tactic(auto, unfolding(x509_cert::specs::TrustAnchorInfo::trust_anchor_info_fields, x509_der::specs::Frames::fields_reading))]
impl<P: Profile> CheckContent for TrustAnchorInfo<P> {
    fn check_content(octets: &[u8]) -> Result<(), Error> {
        let mut rest = octets;
        check_defaulted::<Version>(&mut rest)?;
        check_field::<SubjectPublicKeyInfo>(&mut rest)?;
        check_field::<OctetString>(&mut rest)?;
        check_optional::<Utf8String>(&mut rest)?;
        check_optional::<CertPathControls<P>>(&mut rest)?;
        check_optional_explicit::<Extensions>(1, &mut rest)?;
        check_optional_implicit::<Utf8String>(2, &mut rest)?;
        end(rest)
    }
}

#[tactic(auto, unfolding(x509_der::specs::Cases::choice_reading))]
impl<P: Profile> Check for TrustAnchorChoice<P> {
    fn check_element(tag: u8, content: &[u8]) -> Result<(), Error> {
        match tag {
            0x30 => CertificateInner::<P>::pass_content(content),
            0xA1 => pass_whole::<TbsCertificateInner<P>>(content),
            0xA2 => pass_whole::<TrustAnchorInfo<P>>(content),
            _ => Err(ErrorKind::Malformed.into()),
        }
    }
}
