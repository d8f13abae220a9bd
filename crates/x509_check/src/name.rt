//! Names and attributes.

use crate::check::Check;
use crate::content::CheckContent;
use crate::field::check_field;
use crate::list::check_members;
use crate::set::{CheckMember, check_rising_members};
use x509_der::{Any, Error, Grammar, SetOfVec, end};
use x509_name::attr::{Attribute, AttributeType, AttributeTypeAndValue, AttributeValue};
use x509_name::name::{DirectoryString, Name, RdnSequence, RelativeDistinguishedName};
use x509_prim::{BmpString, PrintableString, TeletexString, Utf8String};

impl CheckMember for Any {
    ghost use Rattle.std.specs.Prelude.{refl};

    ghost as_it_is = { refl };
}

#[tactic(auto, unfolding(x509_name::specs::Attribute::attribute_fields, x509_der::specs::Frames::fields_reading))]
impl CheckContent for Attribute {
    fn check_content(octets: &[u8]) -> Result<(), Error> {
        let mut rest = octets;
        check_field::<AttributeType>(&mut rest)?;
        check_field::<SetOfVec<AttributeValue>>(&mut rest)?;
        end(rest)
    }
}

#[tactic(auto, unfolding(x509_name::specs::TypeAndValue::type_and_value_fields, x509_der::specs::Frames::fields_reading))]
impl CheckContent for AttributeTypeAndValue {
    fn check_content(octets: &[u8]) -> Result<(), Error> {
        let mut rest = octets;
        check_field::<AttributeType>(&mut rest)?;
        check_field::<AttributeValue>(&mut rest)?;
        end(rest)
    }
}

impl CheckMember for AttributeTypeAndValue {
    ghost use Rattle.std.specs.Prelude.{refl};

    ghost as_it_is = { refl };
}

impl CheckMember for Attribute {
    ghost use Rattle.std.specs.Prelude.{refl};

    ghost as_it_is = { refl };
}

impl CheckContent for RelativeDistinguishedName {
    #[inline(always)]
    fn check_content(octets: &[u8]) -> Result<(), Error> {
        check_rising_members::<AttributeTypeAndValue>(octets)
    }
}

impl CheckContent for RdnSequence {
    fn check_content(octets: &[u8]) -> Result<(), Error> {
        check_members::<RelativeDistinguishedName>(octets)
    }
}

impl CheckContent for Name {
    #[inline(always)]
    fn check_content(octets: &[u8]) -> Result<(), Error> {
        RdnSequence::check_content(octets)
    }
}

#[tactic(auto, unfolding(x509_der::specs::Cases::choice_reading))]
impl Check for DirectoryString {
    fn check_element(tag: u8, content: &[u8]) -> Result<(), Error> {
        if PrintableString::is_start(tag) {
            PrintableString::pass_element(tag, content)
        } else if TeletexString::is_start(tag) {
            TeletexString::pass_element(tag, content)
        } else if Utf8String::is_start(tag) {
            Utf8String::pass_element(tag, content)
        } else {
            BmpString::pass_element(tag, content)
        }
    }
}
