//! The extensions that a CSR asks for.

ghost use Rattle.std.specs.Prelude.{◌≡◌, ◌≤◌, ◌++◌, drop, length, List, ℕ, MatchResult};
ghost use Rattle.x509_c_calls.specs.AskedExtensions.{AsksAt, AsksNothing, FindsAsked, LooksUpAsked};
ghost use Rattle.x509_cert.specs.AttributeLookUp.{with_type};
ghost use Rattle.x509_cert.specs.Identifiers.{pkcs_9};
ghost use Rattle.x509_der.specs.List.{joined};
ghost use Rattle.x509_der.specs.Form.{spelling};
ghost use Rattle.x509_name.specs.Attribute as grammar;

use crate::request::look_up::find;
use crate::request::view::RequestView;
use crate::{Span, Status, View, enter, read, step};
use std::alloc::Global;
use x509_cert::request::{CertReq, ExtensionReq};
use x509_der::{AssociatedOid, ErrorKind, Grammar};
use x509_name::attr::Attribute;

/// Where the one value of the attribute stands, a list of extensions. The bytes of the attribute begin at the place.
fn value_of(
    alloc: Global,
    input: &[u8],
    place: usize,
    attribute: &Attribute,
) -> Result<Span, ErrorKind>
    requires { place ≤ length input.now }
    ensures { (behind : List ℕ) → drop place input.now ≡ spelling grammar.attribute attribute.now ++ behind
        → MatchResult result (λ span. AsksAt input.now attribute.now.values behind span) (λ e. AsksNothing attribute.now.values e) }
{
    let [value] = attribute.values.as_slice() else {
        return Err(ErrorKind::Failed);
    };
    match value.decode_as::<ExtensionReq>(alloc) {
        Ok(_asked) => {
            let mut at = place;
            enter(input, &mut at);
            step(input, &mut at, true);
            enter(input, &mut at);
            Ok(step(input, &mut at, true))
        }
        Err(e) => Err(e.kind()),
    }
}

/// Fills in where the extensions stand that the attributes ask for. The bytes of the attributes begin at the place.
#[tactic(auto, unfolding(crate::specs::AskedExtensions::FindsAsked))]
fn pick(
    alloc: Global,
    input: &[u8],
    place: usize,
    attributes: &[Attribute],
    found: &mut Span,
) -> Status
    requires { place ≤ length input.now }
    ensures { (more : List ℕ) → drop place input.now ≡ joined (spelling grammar.attribute) attributes.now ++ more
        → FindsAsked input.now attributes.now more (with_type (pkcs_9 14) attributes.now) found.old found.new result }
{
    let oid = ExtensionReq::OID.as_bytes();
    let Some((at, attribute, others)) = find(input, place, attributes, oid) else {
        return Status::Absent;
    };
    if find(input, at, others, oid).is_some() {
        return Status::Repeated;
    }
    match value_of(alloc, input, at, attribute) {
        Ok(span) => {
            *found = span;
            Status::Done
        }
        Err(e) => Status::Refused(e),
    }
}

/// Decodes a CSR, and fills in where the list of extensions stands that it asks for: the value of its attribute
/// extensionRequest (RFC 2985 5.4.2).
///
/// # Errors
///
/// [`Status::Absent`] exactly where it has no such attribute, [`Status::Repeated`] exactly where it has two or more.
/// `Failed` exactly where the one has no value, or two or more, and `Malformed` where its one value is no list of
/// extensions. Else `Overlength` where the bytes are more than 268,435,455, and within that length `Malformed` where
/// they are the encoding of no CSR. `Memory` when out of memory. `found` is unchanged then.
#[tactic(auto, unfolding(crate::specs::AskedExtensions::LooksUpAsked))]
pub fn request_extensions(alloc: Global, input: &[u8], found: &mut Span) -> Status
    ensures { LooksUpAsked ⟦<CertReq as Grammar>⟧.form ⟦<CertReq as Grammar>⟧.refuses input.now found.old found.new result }
{
    let request = match read::<CertReq>(alloc, input) {
        Ok(request) => request,
        Err(e) => return Status::Refused(e),
    };
    let mut at = RequestView::view(input, 0, &request).attributes.place;
    enter(input, &mut at);
    pick(alloc, input, at, request.info.attributes.as_slice(), found)
}
