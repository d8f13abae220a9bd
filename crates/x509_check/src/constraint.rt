//! Name constraints, and where CRLs are.

use crate::content::CheckContent;
use crate::field::{
    check_defaulted_implicit, check_field, check_optional_explicit, check_optional_implicit,
};
use x509_der::{Error, end};
use x509_ext::pkix::constraints::name::{GeneralSubtree, GeneralSubtrees};
use x509_ext::pkix::crl::dp::{DistributionPoint, ReasonFlags, Reasons};
use x509_ext::pkix::name::{DistributionPointName, GeneralName, GeneralNames};
use x509_ext::pkix::{CrlReason, IssuingDistributionPoint, NameConstraints};
use x509_prim::{read_named_bits, read_named_number};

#[tactic(auto, unfolding(x509_ext::specs::DistributionPoint::distribution_point_fields, x509_der::specs::Frames::fields_reading))]
impl CheckContent for DistributionPoint {
    fn check_content(octets: &[u8]) -> Result<(), Error> {
        let mut rest = octets;
        check_optional_explicit::<DistributionPointName>(0, &mut rest)?;
        check_optional_implicit::<ReasonFlags>(1, &mut rest)?;
        check_optional_implicit::<GeneralNames>(2, &mut rest)?;
        end(rest)
    }
}

#[tactic(auto, unfolding(x509_ext::specs::GeneralSubtree::general_subtree_fields, x509_der::specs::Frames::fields_reading))]
impl CheckContent for GeneralSubtree {
    fn check_content(octets: &[u8]) -> Result<(), Error> {
        let mut rest = octets;
        check_field::<GeneralName>(&mut rest)?;
        check_defaulted_implicit::<u32>(0, &mut rest)?;
        check_optional_implicit::<u32>(1, &mut rest)?;
        end(rest)
    }
}

#[tactic(auto, unfolding(x509_ext::specs::IssuingDistributionPoint::issuing_distribution_point_fields, x509_der::specs::Frames::fields_reading))]
impl CheckContent for IssuingDistributionPoint {
    fn check_content(octets: &[u8]) -> Result<(), Error> {
        let mut rest = octets;
        check_optional_explicit::<DistributionPointName>(0, &mut rest)?;
        check_defaulted_implicit::<bool>(1, &mut rest)?;
        check_defaulted_implicit::<bool>(2, &mut rest)?;
        check_optional_implicit::<ReasonFlags>(3, &mut rest)?;
        check_defaulted_implicit::<bool>(4, &mut rest)?;
        check_defaulted_implicit::<bool>(5, &mut rest)?;
        end(rest)
    }
}

#[tactic(auto, unfolding(x509_ext::specs::NameConstraints::name_constraints_fields, x509_der::specs::Frames::fields_reading))]
impl CheckContent for NameConstraints {
    fn check_content(octets: &[u8]) -> Result<(), Error> {
        let mut rest = octets;
        check_optional_implicit::<GeneralSubtrees>(0, &mut rest)?;
        check_optional_implicit::<GeneralSubtrees>(1, &mut rest)?;
        end(rest)
    }
}

impl CheckContent for CrlReason {
    fn check_content(octets: &[u8]) -> Result<(), Error> {
        read_named_number::<CrlReason>(octets)?;
        Ok(())
    }
}

#[tactic(auto, using(x509_prim::specs::NamedBitsLaws::flag_is_read))]
impl CheckContent for Reasons {
    fn check_content(octets: &[u8]) -> Result<(), Error> {
        read_named_bits::<Reasons>(octets)?;
        Ok(())
    }
}
