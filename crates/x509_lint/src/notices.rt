//! What is asked of user notices (RFC 5280 4.2.1.4).

ghost use Rattle.std.specs.List.{list_any};
ghost use Rattle.std.specs.Prelude.{◌≡◌, IfOk, IfErr, length};
ghost use Rattle.std.specs.Str.{chars};
ghost use Rattle.unicode_normalization.specs.Forms.{is_nfc};
ghost use Rattle.x509_der.specs.declared.error.ErrorKind.TheVariants.{Memory};
ghost use Rattle.x509_lint.specs.Notices as notices;
ghost use Rattle.x509_lint.specs.Words.{passes};
ghost use Rattle.x509_prim.specs.Bmp.{bmp_chars};

use std::alloc::{AllocError, Global};
use unicode_normalization::is_nfc;
use x509_der::{Any, Error, ErrorKind, ObjectIdentifier, oid};
use x509_ext::pkix::CertificatePolicies;
use x509_ext::pkix::certpolicy::{DisplayText, PolicyInformation, PolicyQualifierInfo, UserNotice};

/// id-qt-unotice, 1.3.6.1.5.5.7.2.2 (RFC 5280 4.2.1.4).
pub(crate) const USER_NOTICE: ObjectIdentifier = oid!(0x2B, 0x06, 0x01, 0x05, 0x05, 0x07, 2, 2);

/// The most characters that an explicit text has (RFC 5280 4.2.1.4).
const MAX_CHARS: usize = 200;

/// How many characters a text in UTF-8 has.
pub(crate) fn count_chars(text: &str) -> usize
    ensures { result ≡ length (chars text.now) }
{
    text.chars().count()
}

/// How many characters a text has.
fn char_count(text: &DisplayText) -> usize
    ensures { result ≡ notices.char_count text.now }
{
    match text {
        DisplayText::Ia5String(text) => text.as_str().len(),
        DisplayText::VisibleString(text) => text.as_str().len(),
        DisplayText::BmpString(text) => text.as_bytes().len() / 2,
        DisplayText::Utf8String(text) => count_chars(text.as_str()),
    }
}

/// What may be wrong with a user notice (RFC 5280 4.2.1.4).
#[derive(Clone, Copy)]
pub(crate) enum NoticeFault {
    /// Its explicit text is too long.
    Long,

    /// Its explicit text has no characters.
    NoText,

    /// Its explicit text is a VisibleString or a BMPString.
    OldType,

    /// Its explicit text is an IA5String.
    Ia5Type,

    /// Its explicit text has control characters.
    Control,

    /// There is a noticeRef.
    Reference,

    /// Its explicit text is a UTF8String that isn't in Unicode Normalization Form C.
    Unnormalized,

    /// It isn't a user notice.
    Unread,
}

fn is_old_text(text: &DisplayText) -> bool
    ensures { result ≡ notices.is_old_text text.now }
{
    match text {
        DisplayText::VisibleString(_) | DisplayText::BmpString(_) => true,
        _ => false,
    }
}

fn is_ia5_text(text: &DisplayText) -> bool
    ensures { result ≡ notices.is_ia5_text text.now }
{
    match text {
        DisplayText::Ia5String(_) => true,
        _ => false,
    }
}

fn is_control(char: u32) -> bool
    ensures { result ≡ notices.is_control char }
{
    char < 32 || (char >= 127 && char < 160)
}

fn are_controls(mut octets: &[u8]) -> bool
    ensures { result ≡ list_any notices.is_control octets.entry.now }
{
    while let [first, rest @ ..] = octets {
        if is_control(*first as u32) {
            return true;
        }
        octets = rest;
    }
    false
}

fn are_control_chars(text: &str) -> bool
    ensures { result ≡ list_any notices.is_control (chars text.now) }
{
    text.chars().any(|char| is_control(char as u32))
}

fn are_bmp_controls(mut octets: &[u8]) -> bool
    ensures { result ≡ list_any notices.is_control (bmp_chars octets.entry.now) }
{
    while let [high, low, rest @ ..] = octets {
        if is_control(256 * *high as u32 + *low as u32) {
            return true;
        }
        octets = rest;
    }
    false
}

fn has_control(text: &DisplayText) -> bool
    ensures { result ≡ notices.has_control text.now }
{
    match text {
        DisplayText::Ia5String(text) => are_controls(text.as_str().as_bytes()),
        DisplayText::VisibleString(text) => are_controls(text.as_str().as_bytes()),
        DisplayText::BmpString(text) => are_bmp_controls(text.as_bytes()),
        DisplayText::Utf8String(text) => are_control_chars(text.as_str()),
    }
}

/// Whether a text is in Unicode Normalization Form C.
fn is_normalized(alloc: Global, text: &str) -> Result<bool, AllocError>
    ensures { IfOk result (λ is_normalized. is_normalized ≡ is_nfc (chars text.now)) }
{
    is_nfc(alloc, text)
}

fn is_unnormalized(alloc: Global, text: &DisplayText) -> Result<bool, AllocError>
    ensures { IfOk result (λ is_unnormalized. is_unnormalized ≡ notices.is_unnormalized text.now) }
{
    match text {
        DisplayText::Utf8String(text) => Ok(!is_normalized(alloc, text.as_str())?),
        _ => Ok(false),
    }
}

fn is_faulty_text(alloc: Global, fault: NoticeFault, text: &DisplayText) -> Result<bool, AllocError>
    ensures { IfOk result (λ is_faulty. is_faulty ≡ notices.is_faulty_text fault text.now) }
{
    match fault {
        NoticeFault::Long => Ok(char_count(text) > MAX_CHARS),
        NoticeFault::NoText => Ok(char_count(text) == 0),
        NoticeFault::OldType => Ok(is_old_text(text)),
        NoticeFault::Ia5Type => Ok(is_ia5_text(text)),
        NoticeFault::Control => Ok(has_control(text)),
        NoticeFault::Reference => Ok(false),
        NoticeFault::Unnormalized => is_unnormalized(alloc, text),
        NoticeFault::Unread => Ok(false),
    }
}

/// Whether a notice has the fault.
fn is_faulty_notice(
    alloc: Global,
    fault: NoticeFault,
    notice: &UserNotice,
) -> Result<bool, AllocError>
    ensures { IfOk result (λ is_faulty. is_faulty ≡ notices.is_faulty_notice fault notice.now) }
{
    let is_faulty = has_faulty_text(alloc, fault, &notice.explicit_text)?;
    Ok(is_faulty || (is_reference(fault) && notice.notice_ref.is_some()))
}

fn has_faulty_text(
    alloc: Global,
    fault: NoticeFault,
    text: &Option<DisplayText>,
) -> Result<bool, AllocError>
    ensures { IfOk result (λ is_faulty. is_faulty ≡ passes (notices.is_faulty_text fault) text.now) }
{
    match text {
        Some(text) => is_faulty_text(alloc, fault, text),
        None => Ok(false),
    }
}

fn is_reference(fault: NoticeFault) -> bool
    ensures { result ≡ notices.is_reference fault }
{
    match fault {
        NoticeFault::Reference => true,
        _ => false,
    }
}

fn is_unread(fault: NoticeFault) -> bool
    ensures { result ≡ notices.is_unread fault }
{
    match fault {
        NoticeFault::Unread => true,
        _ => false,
    }
}

/// Whether an element is the encoding of a notice with the fault, or of none where that is the fault.
#[tactic(auto, unfolding(crate::specs::Notices::is_faulty_element))]
fn is_faulty_element(alloc: Global, fault: NoticeFault, element: &Any) -> Result<bool, Error>
    ensures ok { IfOk result (λ is_faulty. is_faulty ≡ notices.is_faulty_element fault element.now) }
    ensures err { IfErr result (λ e. e.kind ≡ Memory) }
{
    match element.decode_as::<UserNotice>(alloc) {
        Ok(notice) => Ok(is_faulty_notice(alloc, fault, &notice)?),
        Err(e) => match e.kind() {
            ErrorKind::Memory => Err(ErrorKind::Memory.into()),
            _ => Ok(is_unread(fault)),
        },
    }
}

/// Whether a qualifier is a notice with the fault.
fn is_faulty_qualifier(
    alloc: Global,
    fault: NoticeFault,
    qualifier: &PolicyQualifierInfo,
) -> Result<bool, Error>
    ensures ok { IfOk result (λ is_faulty. is_faulty ≡ notices.is_faulty_qualifier fault qualifier.now) }
    ensures err { IfErr result (λ e. e.kind ≡ Memory) }
{
    if qualifier.policy_qualifier_id != USER_NOTICE {
        return Ok(false);
    }
    match &qualifier.qualifier {
        Some(element) => is_faulty_element(alloc, fault, element),
        None => Ok(is_unread(fault)),
    }
}

/// Whether one of the qualifiers is.
fn are_faulty_qualifiers(
    alloc: Global,
    fault: NoticeFault,
    mut qualifiers: &[PolicyQualifierInfo],
) -> Result<bool, Error>
    ensures ok { IfOk result (λ is_faulty. is_faulty ≡ notices.are_faulty_qualifiers fault qualifiers.entry.now) }
    ensures err { IfErr result (λ e. e.kind ≡ Memory) }
{
    while let [first, rest @ ..] = qualifiers {
        if is_faulty_qualifier(alloc, fault, first)? {
            return Ok(true);
        }
        qualifiers = rest;
    }
    Ok(false)
}

/// Whether a policy has such a qualifier.
fn is_faulty_policy(
    alloc: Global,
    fault: NoticeFault,
    policy: &PolicyInformation,
) -> Result<bool, Error>
    ensures ok { IfOk result (λ is_faulty. is_faulty ≡ notices.is_faulty_policy fault policy.now) }
    ensures err { IfErr result (λ e. e.kind ≡ Memory) }
{
    match &policy.policy_qualifiers {
        Some(qualifiers) => are_faulty_qualifiers(alloc, fault, qualifiers.as_slice()),
        None => Ok(false),
    }
}

/// Whether one of the policies has.
fn are_faulty_policies(
    alloc: Global,
    fault: NoticeFault,
    mut policies: &[PolicyInformation],
) -> Result<bool, Error>
    ensures ok { IfOk result (λ is_faulty. is_faulty ≡ list_any (notices.is_faulty_policy fault) policies.entry.now) }
    ensures err { IfErr result (λ e. e.kind ≡ Memory) }
{
    while let [first, rest @ ..] = policies {
        if is_faulty_policy(alloc, fault, first)? {
            return Ok(true);
        }
        policies = rest;
    }
    Ok(false)
}

/// Whether some policy has a user notice with the fault.
pub(crate) fn has_faulty_notice(
    alloc: Global,
    fault: NoticeFault,
    policies: &Option<CertificatePolicies>,
) -> Result<bool, Error>
    ensures ok { IfOk result (λ is_faulty. is_faulty ≡ notices.has_faulty_notice fault policies.now) }
    ensures err { IfErr result (λ e. e.kind ≡ Memory) }
{
    match policies {
        Some(policies) => are_faulty_policies(alloc, fault, policies.0.as_slice()),
        None => Ok(false),
    }
}
