//! Qualifiers of policies (RFC 5280 4.2.1.4).

ghost use Rattle.std.specs.Prelude.{◌≡◌, ◌++◌, OnOk, string_bytes};
ghost use Rattle.x509_text.specs.Qualifiers as qualifiers;

use crate::line::{Place, write_line};
use crate::show::{Show, show_any, show_each, show_option};
use crate::values::{write_any, write_oid, write_uint};
use std::alloc::{AllocError, Global};
use x509_der::{Any, ObjectIdentifier, SequenceOf, oid};
use x509_ext::pkix::certpolicy::{DisplayText, NoticeReference, PolicyQualifierInfo, UserNotice};
use x509_prim::{Ia5String, Uint};

// id-qt-cps, 1.3.6.1.5.5.7.2.1 (RFC 5280 4.2.1.4)
const CPS: ObjectIdentifier = oid!(0x2B, 0x06, 0x01, 0x05, 0x05, 0x07, 2, 1);

// id-qt-unotice, 1.3.6.1.5.5.7.2.2 (RFC 5280 4.2.1.4)
const USER_NOTICE: ObjectIdentifier = oid!(0x2B, 0x06, 0x01, 0x05, 0x05, 0x07, 2, 2);

/// Writes a text for people.
fn write_display(
    alloc: Global,
    at: Place,
    label: &str,
    text: &DisplayText,
    out: &mut String,
) -> Result<(), AllocError>
    ensures { OnOk result (string_bytes out.new ≡ string_bytes out.old ++ qualifiers.display_line at label.now text.now) }
{
    match text {
        DisplayText::Ia5String(text) => write_line(alloc, at, label, text.as_str(), out),
        DisplayText::VisibleString(text) => write_line(alloc, at, label, text.as_str(), out),
        DisplayText::BmpString(text) => match text.to_text(alloc) {
            Ok(text) => write_line(alloc, at, label, text.as_str(), out),
            Err(_) => Err(AllocError),
        },
        DisplayText::Utf8String(text) => write_line(alloc, at, label, text.as_str(), out),
    }
}

/// Writes a text for people that may be left out.
fn write_optional_display(
    alloc: Global,
    at: Place,
    label: &str,
    text: &Option<DisplayText>,
    out: &mut String,
) -> Result<(), AllocError>
    ensures { OnOk result (string_bytes out.new ≡ string_bytes out.old ++ qualifiers.optional_display at label.now text.now) }
{
    match text {
        Some(text) => write_display(alloc, at, label, text, out),
        None => Ok(()),
    }
}

impl Show for Uint {
    ghost use Rattle.x509_text.specs.Qualifiers.{notice_number_line};

    ghost lines = { notice_number_line };

    /// The number of a notice.
    fn show(&self, alloc: Global, at: Place, out: &mut String) -> Result<(), AllocError> {
        write_uint(alloc, at, "notice number", self, out)
    }
}

/// Writes the numbers of notices, which may be left out.
fn write_optional_numbers(
    alloc: Global,
    at: Place,
    numbers: &Option<SequenceOf<Uint>>,
    out: &mut String,
) -> Result<(), AllocError>
    ensures { OnOk result (string_bytes out.new ≡ string_bytes out.old ++ qualifiers.optional_notice_numbers at numbers.now) }
{
    match numbers {
        Some(numbers) => show_each(alloc, at, numbers.as_slice(), out),
        None => Ok(()),
    }
}

#[tactic(auto, unfolding(crate::specs::Qualifiers::reference_lines))]
impl Show for NoticeReference {
    ghost use Rattle.x509_text.specs.Qualifiers.{reference_lines};

    ghost lines = { reference_lines };

    fn show(&self, alloc: Global, at: Place, out: &mut String) -> Result<(), AllocError> {
        write_display(alloc, at, "organization", &self.organization, out)?;
        write_optional_numbers(alloc, at.below(), &self.notice_numbers, out)
    }
}

#[tactic(auto, unfolding(crate::specs::Qualifiers::notice_lines))]
impl Show for UserNotice {
    ghost use Rattle.x509_text.specs.Qualifiers.{notice_lines};

    ghost lines = { notice_lines };

    fn show(&self, alloc: Global, at: Place, out: &mut String) -> Result<(), AllocError> {
        show_option(alloc, at, &self.notice_ref, out)?;
        write_optional_display(alloc, at, "explicit text", &self.explicit_text, out)
    }
}

impl Show for Ia5String {
    ghost use Rattle.x509_text.specs.Qualifiers.{uri_line};

    ghost lines = { uri_line };

    /// Where a certification practice statement is found.
    fn show(&self, alloc: Global, at: Place, out: &mut String) -> Result<(), AllocError> {
        write_line(alloc, at, "URI", self.as_str(), out)
    }
}

/// Writes the value of a qualifier with that OID.
#[tactic(auto, unfolding(crate::specs::Qualifiers::qualifier_value_lines))]
fn write_qualifier_value(
    alloc: Global,
    at: Place,
    oid: &ObjectIdentifier,
    value: &Any,
    out: &mut String,
) -> Result<(), AllocError>
    ensures { OnOk result (string_bytes out.new ≡ string_bytes out.old ++ qualifiers.qualifier_value_lines at oid.now value.now) }
{
    if *oid == CPS {
        return show_any::<Ia5String>(alloc, at, value, out);
    }
    if *oid == USER_NOTICE {
        return show_any::<UserNotice>(alloc, at, value, out);
    }
    write_any(alloc, at, "value", value, out)
}

/// Writes the value of a qualifier, which may be left out.
fn write_optional_qualifier_value(
    alloc: Global,
    at: Place,
    oid: &ObjectIdentifier,
    value: &Option<Any>,
    out: &mut String,
) -> Result<(), AllocError>
    ensures { OnOk result (string_bytes out.new ≡ string_bytes out.old ++ qualifiers.optional_qualifier_value at oid.now value.now) }
{
    match value {
        Some(value) => write_qualifier_value(alloc, at, oid, value, out),
        None => Ok(()),
    }
}

#[tactic(auto, unfolding(crate::specs::Qualifiers::qualifier_lines))]
impl Show for PolicyQualifierInfo {
    ghost use Rattle.x509_text.specs.Qualifiers.{qualifier_lines};

    ghost lines = { qualifier_lines };

    fn show(&self, alloc: Global, at: Place, out: &mut String) -> Result<(), AllocError> {
        write_oid(alloc, at, "qualifier", &self.policy_qualifier_id, out)?;
        write_optional_qualifier_value(
            alloc,
            at.below(),
            &self.policy_qualifier_id,
            &self.qualifier,
            out,
        )
    }
}
