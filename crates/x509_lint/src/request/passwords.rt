//! What is asked of challenge passwords (RFC 2985 5.4.1).

ghost use Rattle.std.specs.List.{list_any};
ghost use Rattle.std.specs.Prelude.{◌≡◌, ◌&&◌, bytes_eq};
ghost use Rattle.x509_cert.specs.Identifiers.{pkcs_9};
ghost use Rattle.x509_lint.specs.Request as grammar;

use crate::lists::{Test, any_of};
use crate::texts::{
    char_count, is_new_string, is_old_string, is_outside, is_printable, is_utf8_string,
};
use x509_cert::request::attributes::ChallengePassword;
use x509_der::{Any, AssociatedOid};
use x509_name::attr::Attribute;

/// The most characters that a challenge password has (RFC 2985 A).
const MAX_PASSWORD: usize = 255;

/// What may be wrong with a value of a challengePassword (RFC 2985 5.4.1).
#[derive(Clone, Copy)]
pub(crate) enum PasswordFault {
    /// It is a DirectoryString of none or too many characters.
    Size,

    /// It is a DirectoryString of an old type, or a UTF8String that could be a PrintableString.
    OtherType,
}

fn has_odd_size(value: &Any) -> bool
    ensures { result ≡ grammar.has_odd_size value.now }
{
    (is_new_string(value.tag()) || is_old_string(value.tag()))
        && is_outside(MAX_PASSWORD, char_count(value.tag(), value.value()))
}

fn has_other_type(value: &Any) -> bool
    ensures { result ≡ grammar.has_other_type value.now }
{
    is_old_string(value.tag()) || (is_utf8_string(value.tag()) && is_printable(value.value()))
}

impl Test<Any> for PasswordFault {
    ghost use Rattle.x509_lint.specs.Request.{is_faulty_password};

    ghost holds_of = { is_faulty_password };

    fn holds_of(&self, value: &Any) -> bool {
        match self {
            PasswordFault::Size => has_odd_size(value),
            PasswordFault::OtherType => has_other_type(value),
        }
    }
}

fn has_faulty_value(fault: PasswordFault, attribute: &Attribute) -> bool
    ensures { result ≡ (bytes_eq attribute.now.oid (pkcs_9 7) && list_any (grammar.is_faulty_password fault) attribute.now.values) }
{
    attribute.oid == ChallengePassword::OID && any_of(&fault, attribute.values.as_slice())
}

/// Whether a value of a challengePassword has the fault.
pub(crate) fn has_faulty_password(fault: PasswordFault, mut attributes: &[Attribute]) -> bool
    ensures { result ≡ grammar.has_faulty_password fault attributes.entry.now }
{
    while let [first, rest @ ..] = attributes {
        if has_faulty_value(fault, first) {
            return true;
        }
        attributes = rest;
    }
    false
}
