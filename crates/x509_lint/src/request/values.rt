//! What is asked of a CSR beside its fields: its attributes, and the extensions that it asks for.

ghost use Rattle.std.specs.List.{list_any};
ghost use Rattle.std.specs.Prelude.{◌≡◌, ◌↔◌, IfErr, IfOk, IsTrue};
ghost use Rattle.x509_cert.specs.AttributeLookUp.{with_type};
ghost use Rattle.x509_cert.specs.Identifiers.{pkcs_9};
ghost use Rattle.x509_der.specs.Set.{AreDistinct};
ghost use Rattle.x509_der.specs.declared.error.ErrorKind.TheVariants.{Memory};
ghost use Rattle.x509_lint.specs.Request as grammar;

use crate::extensions::payload;
use crate::labels::has_unnormalized_subject;
use crate::read::{ExtensionsRead, extensions_read};
use crate::repeats::{are_oids_distinct, is_distinct_name};
use std::alloc::Global;
use x509_cert::request::attributes::ChallengePassword;
use x509_cert::request::{CertReq, ExtensionReq, get_attribute};
use x509_der::{Any, AssociatedOid, Decode, Error, ErrorKind};
use x509_ext::pkix::SubjectAltName;
use x509_ext::{Extension, has_repeated_extension};
use x509_name::attr::{Attribute, Attributes};

/// What is asked of a CSR beside its fields.
pub(crate) struct RequestValues {
    /// No two attributes are of one type.
    pub(crate) are_types_distinct: bool,

    /// A value of a challengePassword isn't one.
    pub(crate) is_password_malformed: bool,

    /// A value of an extensionRequest isn't one.
    pub(crate) is_request_malformed: bool,

    /// The value of the one extensionRequest, where it has one value that can be decoded.
    pub(crate) requested: Option<ExtensionReq>,

    /// Two of the extensions that are asked for have one OID.
    pub(crate) is_repeated: bool,

    /// Which types of these extensions are read.
    pub(crate) read: ExtensionsRead,

    /// The SAN that is asked for.
    pub(crate) subject_alt_name: Option<SubjectAltName>,

    /// A dNSName of it has a label of IDNA whose text isn't in Normalization Form C.
    pub(crate) has_unnormalized_name: bool,

    /// No RDN of the subject has two attributes of one type.
    pub(crate) is_subject_distinct: bool,
}

impl Drop for RequestValues {
    fn drop(self) {
        let RequestValues {
            are_types_distinct: _,
            is_password_malformed: _,
            is_request_malformed: _,
            requested: _,
            is_repeated: _,
            read: _,
            subject_alt_name: _,
            has_unnormalized_name: _,
            is_subject_distinct: _,
        } = self;
    }
}

fn are_types_distinct(alloc: Global, attributes: &[Attribute]) -> Result<bool, Error>
    ensures ok { IfOk result (λ b. IsTrue b ↔ AreDistinct (grammar.attribute_types attributes.now)) }
    ensures err { IfErr result (λ e. e.kind ≡ Memory) }
{
    let mut types = Vec::with_capacity(alloc, attributes.len())?;
    for attribute in attributes {
        types.push(attribute.oid)?;
    }
    Ok(are_oids_distinct(types))
}

/// Whether the element is the encoding of no value of the type.
#[tactic(auto, unfolding(crate::specs::Request::is_unread))]
fn is_unread<T: Decode + Drop>(alloc: Global, element: &Any) -> Result<bool, Error>
    ensures ok { IfOk result (λ b. b ≡ grammar.is_unread T.form element.now) }
    ensures err { IfErr result (λ e. e.kind ≡ Memory) }
{
    match element.decode_as::<T>(alloc) {
        Ok(_) => Ok(false),
        Err(e) => match e.kind() {
            ErrorKind::Memory => Err(ErrorKind::Memory.into()),
            _ => Ok(true),
        },
    }
}

/// Whether one of the elements is.
fn are_unread<T: Decode + Drop>(alloc: Global, mut elements: &[Any]) -> Result<bool, Error>
    ensures ok { IfOk result (λ b. b ≡ list_any (grammar.is_unread T.form) elements.entry.now) }
    ensures err { IfErr result (λ e. e.kind ≡ Memory) }
{
    while let [first, rest @ ..] = elements {
        if is_unread::<T>(alloc, first)? {
            return Ok(true);
        }
        elements = rest;
    }
    Ok(false)
}

/// Whether it is an attribute of the type, and a value of it isn't one.
fn is_malformed<T: AssociatedOid + Decode + Drop>(
    alloc: Global,
    attribute: &Attribute,
) -> Result<bool, Error>
    ensures ok { IfOk result (λ b. b ≡ grammar.is_malformed_as T.form T.OID attribute.now) }
    ensures err { IfErr result (λ e. e.kind ≡ Memory) }
{
    if attribute.oid != T::OID {
        return Ok(false);
    }
    are_unread::<T>(alloc, attribute.values.as_slice())
}

/// Whether one of the attributes is.
fn has_malformed<T: AssociatedOid + Decode + Drop>(
    alloc: Global,
    mut attributes: &[Attribute],
) -> Result<bool, Error>
    ensures ok { IfOk result (λ b. b ≡ grammar.has_malformed T.form T.OID attributes.entry.now) }
    ensures err { IfErr result (λ e. e.kind ≡ Memory) }
{
    while let [first, rest @ ..] = attributes {
        if is_malformed::<T>(alloc, first)? {
            return Ok(true);
        }
        attributes = rest;
    }
    Ok(false)
}

/// The value of the one extensionRequest, where it has one value that can be decoded.
pub(crate) fn requested(
    alloc: Global,
    attributes: &Attributes,
) -> Result<Option<ExtensionReq>, Error>
    ensures ok { IfOk result (λ found. found ≡ grammar.requested_in grammar.extension_req (with_type (pkcs_9 14) attributes.now)) }
    ensures err { IfErr result (λ e. e.kind ≡ Memory) }
{
    match get_attribute::<ExtensionReq>(alloc, attributes) {
        Ok(found) => Ok(found),
        Err(e) => match e.kind() {
            ErrorKind::Memory => Err(ErrorKind::Memory.into()),
            _ => Ok(None),
        },
    }
}

/// The extensions that are asked for; none where they can't be read.
pub(crate) fn requested_extensions(requested: &Option<ExtensionReq>) -> &[Extension]
    ensures { result.now ≡ grammar.requested_extensions requested.now }
{
    match requested {
        Some(requested) => requested.0.as_slice(),
        None => &[],
    }
}

/// What is asked of a CSR.
pub(crate) fn request_values(alloc: Global, request: &CertReq) -> Result<RequestValues, Error>
    ensures ok { IfOk result (grammar.AreRequestValues request.now) }
    ensures err { IfErr result (λ e. e.kind ≡ Memory) }
{
    let attributes = request.info.attributes.as_slice();
    let are_types_distinct = are_types_distinct(alloc, attributes)?;
    let is_password_malformed = has_malformed::<ChallengePassword>(alloc, attributes)?;
    let is_request_malformed = has_malformed::<ExtensionReq>(alloc, attributes)?;
    let is_subject_distinct = is_distinct_name(alloc, &request.info.subject)?;
    let requested = requested(alloc, &request.info.attributes)?;
    let is_repeated = has_repeated_extension(alloc, requested_extensions(&requested))?;
    let read = extensions_read(alloc, requested_extensions(&requested))?;
    let subject_alt_name = payload(alloc, requested_extensions(&requested))?;
    let has_unnormalized_name = has_unnormalized_subject(alloc, &subject_alt_name)?;
    Ok(RequestValues {
        are_types_distinct,
        is_password_malformed,
        is_request_malformed,
        requested,
        is_repeated,
        read,
        subject_alt_name,
        has_unnormalized_name,
        is_subject_distinct,
    })
}
