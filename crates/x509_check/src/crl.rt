//! CRLs.

use crate::content::CheckContent;
use crate::field::{check_field, check_optional, check_optional_explicit};
use x509_base::{AlgorithmIdentifier, Profile, SerialNumber, Time};
use x509_cert::certificate::Version;
use x509_cert::crl::{CertificateList, RevokedCert, TbsCertList};
use x509_der::{Error, SequenceOf, end};
use x509_ext::Extensions;
use x509_name::name::Name;
use x509_prim::BitString;

#[tactic(auto, unfolding(x509_cert::specs::CertificateList::certificate_list_fields, x509_der::specs::Frames::fields_reading))]
impl<P: Profile> CheckContent for CertificateList<P> {
    fn check_content(octets: &[u8]) -> Result<(), Error> {
        let mut rest = octets;
        check_field::<TbsCertList<P>>(&mut rest)?;
        check_field::<AlgorithmIdentifier>(&mut rest)?;
        check_field::<BitString>(&mut rest)?;
        end(rest)
    }
}

#[tactic(auto, unfolding(x509_cert::specs::RevokedCert::revoked_cert_fields, x509_der::specs::Frames::fields_reading))]
impl<P: Profile> CheckContent for RevokedCert<P> {
    fn check_content(octets: &[u8]) -> Result<(), Error> {
        let mut rest = octets;
        check_field::<SerialNumber<P>>(&mut rest)?;
        check_field::<Time>(&mut rest)?;
        check_optional::<Extensions>(&mut rest)?;
        end(rest)
    }
}

#[tactic(auto, unfolding(x509_cert::specs::CertificateList::tbs_cert_list_fields, x509_der::specs::Frames::fields_reading))]
impl<P: Profile> CheckContent for TbsCertList<P> {
    fn check_content(octets: &[u8]) -> Result<(), Error> {
        let mut rest = octets;
        check_optional::<Version>(&mut rest)?;
        check_field::<AlgorithmIdentifier>(&mut rest)?;
        check_field::<Name>(&mut rest)?;
        check_field::<Time>(&mut rest)?;
        check_optional::<Time>(&mut rest)?;
        check_optional::<SequenceOf<RevokedCert<P>>>(&mut rest)?;
        check_optional_explicit::<Extensions>(0, &mut rest)?;
        end(rest)
    }
}
