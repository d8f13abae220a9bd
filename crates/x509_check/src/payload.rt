//! What extensions hold.

use crate::content::CheckContent;
use crate::field::{check_defaulted, check_field, check_optional, check_optional_implicit};
use x509_base::{GeneralizedTime, SerialNumber};
use x509_der::{Error, ErrorKind, ObjectIdentifier, end};
use x509_ext::pkix::name::{GeneralName, GeneralNames};
use x509_ext::pkix::{
    AccessDescription, AuthorityKeyIdentifier, BasicConstraints, KeyUsages, PrivateKeyUsagePeriod,
};
use x509_prim::{OctetString, read_named_bits};
use x509_sct::CtPrecertificatePoison;

#[tactic(auto, unfolding(x509_ext::specs::Access::access_description_fields, x509_der::specs::Frames::fields_reading))]
impl CheckContent for AccessDescription {
    fn check_content(octets: &[u8]) -> Result<(), Error> {
        let mut rest = octets;
        check_field::<ObjectIdentifier>(&mut rest)?;
        check_field::<GeneralName>(&mut rest)?;
        end(rest)
    }
}

#[tactic(auto, unfolding(x509_ext::specs::AuthorityKeyIdentifier::authority_key_identifier_fields, x509_der::specs::Frames::fields_reading))]
impl CheckContent for AuthorityKeyIdentifier {
    fn check_content(octets: &[u8]) -> Result<(), Error> {
        let mut rest = octets;
        check_optional_implicit::<OctetString>(0, &mut rest)?;
        check_optional_implicit::<GeneralNames>(1, &mut rest)?;
        check_optional_implicit::<SerialNumber>(2, &mut rest)?;
        end(rest)
    }
}

#[tactic(auto, unfolding(x509_ext::specs::BasicConstraints::basic_constraints_fields, x509_der::specs::Frames::fields_reading))]
impl CheckContent for BasicConstraints {
    fn check_content(octets: &[u8]) -> Result<(), Error> {
        let mut rest = octets;
        check_defaulted::<bool>(&mut rest)?;
        check_optional::<u8>(&mut rest)?;
        end(rest)
    }
}

#[tactic(auto, unfolding(x509_ext::specs::PrivateKeyUsagePeriod::private_key_usage_period_fields, x509_der::specs::Frames::fields_reading))]
impl CheckContent for PrivateKeyUsagePeriod {
    fn check_content(octets: &[u8]) -> Result<(), Error> {
        let mut rest = octets;
        check_optional_implicit::<GeneralizedTime>(0, &mut rest)?;
        check_optional_implicit::<GeneralizedTime>(1, &mut rest)?;
        end(rest)
    }
}

#[tactic(auto, using(x509_prim::specs::NamedBitsLaws::flag_is_read))]
impl CheckContent for KeyUsages {
    fn check_content(octets: &[u8]) -> Result<(), Error> {
        read_named_bits::<KeyUsages>(octets)?;
        Ok(())
    }
}

impl CheckContent for CtPrecertificatePoison {
    fn check_content(octets: &[u8]) -> Result<(), Error> {
        if !octets.is_empty() {
            return Err(ErrorKind::Malformed.into());
        }
        Ok(())
    }
}
