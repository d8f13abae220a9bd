//! Policies.

use crate::check::Check;
use crate::content::CheckContent;
use crate::field::{check_field, check_optional, check_optional_implicit};
use x509_der::{Any, Error, Grammar, ObjectIdentifier, SequenceOf, end};
use x509_ext::pkix::certpolicy::{
    DisplayText, NoticeReference, PolicyInformation, PolicyQualifierInfo, UserNotice,
};
use x509_ext::pkix::{PolicyConstraints, PolicyMapping};
use x509_prim::{BmpString, Ia5String, Uint, Utf8String, VisibleString};

#[tactic(auto, unfolding(x509_ext::specs::PolicyConstraints::policy_constraints_fields, x509_der::specs::Frames::fields_reading))]
impl CheckContent for PolicyConstraints {
    fn check_content(octets: &[u8]) -> Result<(), Error> {
        let mut rest = octets;
        check_optional_implicit::<u32>(0, &mut rest)?;
        check_optional_implicit::<u32>(1, &mut rest)?;
        end(rest)
    }
}

#[tactic(auto, unfolding(x509_ext::specs::PolicyInformation::policy_information_fields, x509_der::specs::Frames::fields_reading))]
impl CheckContent for PolicyInformation {
    fn check_content(octets: &[u8]) -> Result<(), Error> {
        let mut rest = octets;
        check_field::<ObjectIdentifier>(&mut rest)?;
        check_optional::<SequenceOf<PolicyQualifierInfo>>(&mut rest)?;
        end(rest)
    }
}

#[tactic(auto, unfolding(x509_ext::specs::PolicyQualifierInfo::policy_qualifier_info_fields, x509_der::specs::Frames::fields_reading))]
impl CheckContent for PolicyQualifierInfo {
    fn check_content(octets: &[u8]) -> Result<(), Error> {
        let mut rest = octets;
        check_field::<ObjectIdentifier>(&mut rest)?;
        check_optional::<Any>(&mut rest)?;
        end(rest)
    }
}

#[tactic(auto, unfolding(x509_ext::specs::PolicyMapping::policy_mapping_fields, x509_der::specs::Frames::fields_reading))]
impl CheckContent for PolicyMapping {
    fn check_content(octets: &[u8]) -> Result<(), Error> {
        let mut rest = octets;
        check_field::<ObjectIdentifier>(&mut rest)?;
        check_field::<ObjectIdentifier>(&mut rest)?;
        end(rest)
    }
}

#[tactic(auto, unfolding(x509_ext::specs::UserNotice::user_notice_fields, x509_der::specs::Frames::fields_reading))]
impl CheckContent for UserNotice {
    fn check_content(octets: &[u8]) -> Result<(), Error> {
        let mut rest = octets;
        check_optional::<NoticeReference>(&mut rest)?;
        check_optional::<DisplayText>(&mut rest)?;
        end(rest)
    }
}

#[tactic(auto, unfolding(x509_ext::specs::NoticeReference::notice_reference_fields, x509_der::specs::Frames::fields_reading))]
impl CheckContent for NoticeReference {
    fn check_content(octets: &[u8]) -> Result<(), Error> {
        let mut rest = octets;
        check_field::<DisplayText>(&mut rest)?;
        check_optional::<SequenceOf<Uint>>(&mut rest)?;
        end(rest)
    }
}

#[tactic(auto, unfolding(x509_der::specs::Cases::choice_reading))]
impl Check for DisplayText {
    fn check_element(tag: u8, content: &[u8]) -> Result<(), Error> {
        if Ia5String::is_start(tag) {
            Ia5String::pass_element(tag, content)
        } else if VisibleString::is_start(tag) {
            VisibleString::pass_element(tag, content)
        } else if BmpString::is_start(tag) {
            BmpString::pass_element(tag, content)
        } else {
            Utf8String::pass_element(tag, content)
        }
    }
}
