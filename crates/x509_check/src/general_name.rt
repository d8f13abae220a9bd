//! General names.

use crate::check::{Check, pass_whole};
use crate::content::CheckContent;
use crate::field::{check_explicit, check_field, check_optional_explicit};
use x509_der::{Any, Error, ErrorKind, ObjectIdentifier, end};
use x509_ext::pkix::name::{
    DistributionPointName, EdiPartyName, GeneralName, GeneralNames, HardwareModuleName, OtherName,
};
use x509_name::name::{DirectoryString, Name, RelativeDistinguishedName};
use x509_prim::{Ia5String, OctetString};

#[tactic(auto, unfolding(x509_ext::specs::EdiPartyName::edi_party_name_fields, x509_der::specs::Frames::fields_reading))]
impl CheckContent for EdiPartyName {
    fn check_content(octets: &[u8]) -> Result<(), Error> {
        let mut rest = octets;
        check_optional_explicit::<DirectoryString>(0, &mut rest)?;
        check_explicit::<DirectoryString>(1, &mut rest)?;
        end(rest)
    }
}

#[tactic(auto, unfolding(x509_ext::specs::HardwareModuleName::hardware_module_name_fields, x509_der::specs::Frames::fields_reading))]
impl CheckContent for HardwareModuleName {
    fn check_content(octets: &[u8]) -> Result<(), Error> {
        let mut rest = octets;
        check_field::<ObjectIdentifier>(&mut rest)?;
        check_field::<OctetString>(&mut rest)?;
        end(rest)
    }
}

#[tactic(auto, unfolding(x509_ext::specs::OtherName::other_name_fields, x509_der::specs::Frames::fields_reading))]
impl CheckContent for OtherName {
    fn check_content(octets: &[u8]) -> Result<(), Error> {
        let mut rest = octets;
        check_field::<ObjectIdentifier>(&mut rest)?;
        check_explicit::<Any>(0, &mut rest)?;
        end(rest)
    }
}

#[tactic(auto, unfolding(x509_der::specs::Cases::choice_reading))]
impl Check for GeneralName {
    fn check_element(tag: u8, content: &[u8]) -> Result<(), Error> {
        match tag {
            0xA0 => OtherName::pass_content(content),
            0x81 | 0x82 | 0x86 => Ia5String::pass_content(content),
            0xA4 => pass_whole::<Name>(content),
            0xA5 => EdiPartyName::pass_content(content),
            0x87 => OctetString::pass_content(content),
            0x88 => ObjectIdentifier::pass_content(content),
            _ => Err(ErrorKind::Malformed.into()),
        }
    }
}

#[tactic(auto, unfolding(x509_der::specs::Cases::choice_reading))]
impl Check for DistributionPointName {
    fn check_element(tag: u8, content: &[u8]) -> Result<(), Error> {
        match tag {
            0xA0 => GeneralNames::pass_content(content),
            0xA1 => RelativeDistinguishedName::pass_content(content),
            _ => Err(ErrorKind::Malformed.into()),
        }
    }
}
