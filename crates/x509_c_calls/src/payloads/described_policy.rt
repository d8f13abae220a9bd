//! Policies of certificates, what qualifies them, and how they map, encoded of what a caller says.

ghost use Rattle.std.specs.Prelude.{◌≡◌, ◌⊎◌, IfOk, MatchResult, length};
ghost use Rattle.std.specs.Str.{chars};
ghost use Rattle.x509_c_calls.specs.Described.{EncodesDescribed};
ghost use Rattle.x509_c_calls.specs.DescribedPolicies.{AreQualifiersOf, IsMappingOf, IsNoticeOf, IsPolicyOf, IsQualifierOf, IsReferenceOf, IsShownText, RefusesCpsUri, RefusesMapping, RefusesNotice, RefusesPolicy, RefusesQualifier, RefusesReference, RefusesShownText};
ghost use Rattle.x509_c_calls.specs.Input.{RefusesEach};
ghost use Rattle.x509_c_calls.specs.Status.{Fills};
ghost use Rattle.x509_c_calls.specs.declared.status.status.Status.TheVariants.{Refused};
ghost use Rattle.x509_der.specs.declared.error.ErrorKind.TheVariants.{Memory};
ghost use Rattle.x509_ext.specs.PolicyInformation.{policy_information};
ghost use Rattle.x509_ext.specs.PolicyMapping.{policy_mapping};
ghost use Rattle.x509_ext.specs.PolicyQualifierInfo.{policy_qualifier_info};
ghost use Rattle.x509_ext.specs.UserNotice.{user_notice};
ghost use Rattle.x509_prim.specs.Texts.{ia5_string};

use crate::build::read_each;
use crate::named::text_of;
use crate::payloads::described_issuer::read_perhaps;
use crate::payloads::described_name::oid_of;
use crate::{Status, read, write};
use std::alloc::Global;
use x509_der::{Any, ErrorKind, SequenceOf, Spelled};
use x509_ext::pkix::PolicyMapping;
use x509_ext::pkix::certpolicy::{
    CpsUri, DisplayText, NoticeReference, PolicyInformation, PolicyQualifierInfo, UserNotice,
};
use x509_prim::{Ia5, Uint, Utf8String, text_of as ascii_of};

/// How many characters a text has at most that is shown (RFC 5280 4.2.1.4).
const MOST_CHARS: usize = 200;

/// The content octets of anyPolicy, 2.5.29.32.0.
pub(crate) const ANY_POLICY: [u8; 4] = [0x55, 0x1D, 0x20, 0x00];

/// The URI with these characters.
fn uri_of(alloc: Global, uri: &[u8]) -> Result<CpsUri, ErrorKind>
    ensures found { MatchResult result (λ text. text ≡ uri.now) (λ e. (e ≡ Memory) ⊎ RefusesCpsUri uri.now e) }
    ensures good { IfOk result ia5_string.good }
{
    let Some(text) = ascii_of::<Ia5>(uri) else {
        return Err(ErrorKind::Malformed);
    };
    match CpsUri::new(alloc, text) {
        Ok(text) => {
            text.has_spelling();
            Ok(text)
        }
        Err(e) => Err(e.kind()),
    }
}

/// Puts the encoding of a CPSuri (RFC 5280 4.2.1.4), the address of a practice statement, at the front of the buffer
/// `room`: of these ASCII octets. How a URI is made isn't looked at.
///
/// # Errors
///
/// [`Status::NoRoom`] where the buffer is too small; then `written` is the needed length. `Malformed` exactly where an
/// octet isn't ASCII. `Overlength` where the encoding is too long. `Memory` when out of memory.
#[tactic(auto, unfolding(crate::specs::Calls::Encodes, crate::specs::Status::Fills))]
pub fn cps_uri_encode(alloc: Global, uri: &[u8], room: &mut [u8], written: &mut usize) -> Status
    ensures { Fills (EncodesDescribed ia5_string (λ text. text ≡ uri.now) (RefusesCpsUri uri.now)) room.old room.new written.old written.new result }
{
    match uri_of(alloc, uri) {
        Ok(text) => write(&text, room, written),
        Err(e) => Status::Refused(e),
    }
}

/// How many characters a text has.
fn count_chars(text: &str) -> usize
    ensures { result ≡ length (chars text.now) }
{
    text.chars().count()
}

/// The text that is shown, unless there are no bytes.
fn shown_text_of(alloc: Global, text: &[u8]) -> Result<Option<DisplayText>, ErrorKind>
    ensures { MatchResult result (IsShownText text.now) (λ e. (e ≡ Memory) ⊎ RefusesShownText text.now e) }
{
    if text.is_empty() {
        return Ok(None);
    }
    let Some(text) = text_of(text) else {
        return Err(ErrorKind::Failed);
    };
    if count_chars(text) > MOST_CHARS {
        return Err(ErrorKind::Value);
    }
    match Utf8String::new(alloc, text) {
        Ok(text) => Ok(Some(DisplayText::Utf8String(text))),
        Err(e) => Err(e.kind()),
    }
}

/// The reference to the notices of that organization with these numbers, or none of neither.
fn reference_of(
    alloc: Global,
    organization: &[u8],
    numbers: &[u8],
) -> Result<Option<NoticeReference>, ErrorKind>
    ensures { MatchResult result (IsReferenceOf organization.now numbers.now) (λ e. (e ≡ Memory) ⊎ RefusesReference organization.now numbers.now e) }
{
    let shown = match shown_text_of(alloc, organization) {
        Ok(shown) => shown,
        Err(e) => return Err(e),
    };
    let Some(organization) = shown else {
        return if numbers.is_empty() {
            Ok(None)
        } else {
            Err(ErrorKind::Value)
        };
    };
    match read::<SequenceOf<Uint>>(alloc, numbers) {
        Ok(numbers) => Ok(Some(NoticeReference {
            organization,
            notice_numbers: Some(numbers),
        })),
        Err(e) => Err(e),
    }
}

/// The notice with that reference and that text.
fn notice_of(
    alloc: Global,
    organization: &[u8],
    numbers: &[u8],
    text: &[u8],
) -> Result<UserNotice, ErrorKind>
    ensures found { MatchResult result (IsNoticeOf organization.now numbers.now text.now) (λ e. (e ≡ Memory)
        ⊎ RefusesNotice organization.now numbers.now text.now e) }
    ensures good { IfOk result user_notice.good }
{
    let notice_ref = match reference_of(alloc, organization, numbers) {
        Ok(reference) => reference,
        Err(e) => return Err(e),
    };
    let explicit_text = match shown_text_of(alloc, text) {
        Ok(shown) => shown,
        Err(e) => return Err(e),
    };
    let notice = UserNotice {
        notice_ref,
        explicit_text,
    };
    notice.has_spelling();
    Ok(notice)
}

/// Puts the encoding of a UserNotice (RFC 5280 4.2.1.4) at the front of the buffer `room`: with a reference to the notices
/// of that organization with these numbers, a whole SEQUENCE of them, and with that text; what has no bytes is left out.
/// Both texts are UTF-8, and are written as UTF8Strings.
///
/// # Errors
///
/// [`Status::NoRoom`] where the buffer is too small; then `written` is the needed length. `Failed` where a text isn't
/// UTF-8; `Value` where one has more than 200 characters, or there are numbers without an organization; with an
/// organization the error of decoding the numbers. `Overlength` where the encoding is too long. `Memory` when out of
/// memory.
#[tactic(auto, unfolding(crate::specs::Calls::Encodes, crate::specs::Status::Fills))]
pub fn user_notice_encode(
    alloc: Global,
    organization: &[u8],
    numbers: &[u8],
    text: &[u8],
    room: &mut [u8],
    written: &mut usize,
) -> Status
    ensures { Fills (EncodesDescribed user_notice (IsNoticeOf organization.now numbers.now text.now) (RefusesNotice organization.now numbers.now text.now))
        room.old room.new written.old written.new result }
{
    match notice_of(alloc, organization, numbers, text) {
        Ok(notice) => write(&notice, room, written),
        Err(e) => Status::Refused(e),
    }
}

/// The qualifier of that type with that value.
fn qualifier_of(
    alloc: Global,
    identifier: &[u8],
    qualifier: &[u8],
) -> Result<PolicyQualifierInfo, ErrorKind>
    ensures found { MatchResult result (IsQualifierOf identifier.now qualifier.now) (λ e. (e ≡ Memory) ⊎ RefusesQualifier identifier.now qualifier.now e) }
    ensures good { IfOk result policy_qualifier_info.good }
{
    let policy_qualifier_id = match oid_of(identifier) {
        Ok(oid) => oid,
        Err(e) => return Err(e),
    };
    let qualifier = match read_perhaps::<Any>(alloc, qualifier) {
        Ok(qualifier) => qualifier,
        Err(e) => return Err(e),
    };
    let info = PolicyQualifierInfo {
        policy_qualifier_id,
        qualifier,
    };
    info.has_spelling();
    Ok(info)
}

/// Puts the encoding of a PolicyQualifierInfo (RFC 5280 4.2.1.4) at the front of the buffer `room`: of the type with an OID
/// of these content octets, and with that qualifier, a whole element; where it has no bytes it is left out.
///
/// # Errors
///
/// [`Status::NoRoom`] where the buffer is too small; then `written` is the needed length. `Malformed` where no OID has the
/// content octets; the error of decoding the qualifier. `Overlength` where the encoding is too long. `Memory` when out of
/// memory.
#[tactic(auto, unfolding(crate::specs::Calls::Encodes, crate::specs::Status::Fills))]
pub fn policy_qualifier_encode(
    alloc: Global,
    identifier: &[u8],
    qualifier: &[u8],
    room: &mut [u8],
    written: &mut usize,
) -> Status
    ensures { Fills (EncodesDescribed policy_qualifier_info (IsQualifierOf identifier.now qualifier.now) (RefusesQualifier identifier.now qualifier.now))
        room.old room.new written.old written.new result }
{
    match qualifier_of(alloc, identifier, qualifier) {
        Ok(info) => write(&info, room, written),
        Err(e) => Status::Refused(e),
    }
}

/// The qualifiers whose encodings the bytes are, one after the other, unless there are none.
fn qualifiers_of(
    alloc: Global,
    bytes: &[u8],
) -> Result<Option<SequenceOf<PolicyQualifierInfo>>, ErrorKind>
    ensures { MatchResult result (AreQualifiersOf bytes.now) (λ e. (e ≡ Memory) ⊎ RefusesEach policy_qualifier_info (λ e. ⊥) bytes.now e) }
{
    let qualifiers = match read_each::<PolicyQualifierInfo>(alloc, bytes) {
        Ok(qualifiers) => qualifiers,
        Err(e) => return Err(e),
    };
    if qualifiers.is_empty() {
        return Ok(None);
    }
    Ok(Some(SequenceOf::from(qualifiers)))
}

/// The policy with that OID and these qualifiers.
fn policy_of(
    alloc: Global,
    identifier: &[u8],
    qualifiers: &[u8],
) -> Result<PolicyInformation, ErrorKind>
    ensures found { MatchResult result (IsPolicyOf identifier.now qualifiers.now) (λ e. (e ≡ Memory) ⊎ RefusesPolicy identifier.now qualifiers.now e) }
    ensures good { IfOk result policy_information.good }
{
    let policy_identifier = match oid_of(identifier) {
        Ok(oid) => oid,
        Err(e) => return Err(e),
    };
    let policy_qualifiers = match qualifiers_of(alloc, qualifiers) {
        Ok(qualifiers) => qualifiers,
        Err(e) => return Err(e),
    };
    let policy = PolicyInformation {
        policy_identifier,
        policy_qualifiers,
    };
    policy.has_spelling();
    Ok(policy)
}

/// Puts the encoding of a PolicyInformation (RFC 5280 4.2.1.4) at the front of the buffer `room`: of the policy with an OID
/// of these content octets, and with the qualifiers whose encodings are given one after the other, or none.
///
/// # Errors
///
/// [`Status::NoRoom`] where the buffer is too small; then `written` is the needed length. `Malformed` where no OID has the
/// content octets; the error of decoding the qualifiers. `Overlength` where the encoding is too long. `Memory` when out of
/// memory.
#[tactic(auto, unfolding(crate::specs::Calls::Encodes, crate::specs::Status::Fills))]
pub fn policy_encode(
    alloc: Global,
    identifier: &[u8],
    qualifiers: &[u8],
    room: &mut [u8],
    written: &mut usize,
) -> Status
    ensures { Fills (EncodesDescribed policy_information (IsPolicyOf identifier.now qualifiers.now) (RefusesPolicy identifier.now qualifiers.now))
        room.old room.new written.old written.new result }
{
    match policy_of(alloc, identifier, qualifiers) {
        Ok(policy) => write(&policy, room, written),
        Err(e) => Status::Refused(e),
    }
}

/// The mapping of the one policy to the other.
fn mapping_of(issuer: &[u8], subject: &[u8]) -> Result<PolicyMapping, ErrorKind>
    ensures found { MatchResult result (IsMappingOf issuer.now subject.now) (λ e. RefusesMapping issuer.now subject.now e) }
    ensures good { IfOk result policy_mapping.good }
{
    let issuer_domain_policy = match oid_of(issuer) {
        Ok(oid) => oid,
        Err(e) => return Err(e),
    };
    let subject_domain_policy = match oid_of(subject) {
        Ok(oid) => oid,
        Err(e) => return Err(e),
    };
    if issuer == ANY_POLICY.as_slice() || subject == ANY_POLICY.as_slice() {
        return Err(ErrorKind::Value);
    }
    let mapping = PolicyMapping {
        issuer_domain_policy,
        subject_domain_policy,
    };
    mapping.has_spelling();
    Ok(mapping)
}

/// Puts the encoding of a pair of a PolicyMappings (RFC 5280 4.2.1.5) at the front of the buffer `room`: of the policy of
/// the issuer's domain and that of the subject's, by the content octets of their OIDs.
///
/// # Errors
///
/// [`Status::NoRoom`] where the buffer is too small; then `written` is the needed length. `Malformed` where no OID has the
/// content octets of one of both; else `Value` exactly where one of both is anyPolicy. It takes no memory.
#[tactic(auto, unfolding(crate::specs::Calls::Encodes, crate::specs::Status::Fills))]
pub fn policy_mapping_encode(
    issuer: &[u8],
    subject: &[u8],
    room: &mut [u8],
    written: &mut usize,
) -> Status
    ensures filled { Fills (EncodesDescribed policy_mapping (IsMappingOf issuer.now subject.now) (RefusesMapping issuer.now subject.now))
        room.old room.new written.old written.new result }
    ensures memory { result ≡ Refused Memory → ⊥ }
{
    match mapping_of(issuer, subject) {
        Ok(mapping) => write(&mapping, room, written),
        Err(e) => Status::Refused(e),
    }
}
