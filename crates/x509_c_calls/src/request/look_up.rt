//! The attribute of a type.

ghost use Rattle.std.specs.Prelude.{◌≡◌, ◌≤◌, ◌++◌, ◌∷◌, [], drop, length, List, ℕ, IfSome, MatchOption};
ghost use Rattle.x509_c_calls.specs.RequestAttributes.{FindsAttribute, LooksUpAttribute};
ghost use Rattle.x509_cert.specs.AttributeLookUp.{with_type};
ghost use Rattle.x509_der.specs.List.{joined};
ghost use Rattle.x509_der.specs.Form.{spelling};
ghost use Rattle.x509_name.specs.Attribute as grammar;
ghost use Rattle.x509_name.specs.declared.attr.attribute.Attribute.{Attribute};

use crate::request::attribute::RequestAttributeView;
use crate::request::view::RequestView;
use crate::{Status, View, enter, read, step};
use std::alloc::Global;
use x509_cert::request::CertReq;
use x509_der::Grammar;
use x509_name::attr::Attribute;

/// The first attribute of the type, with its place, and those that follow it. The bytes of the attributes begin at the
/// place.
pub(crate) fn find<'a>(
    input: &[u8],
    place: usize,
    attributes: &'a [Attribute],
    oid: &[u8],
) -> Option<(usize, &'a Attribute, &'a [Attribute])>
    requires { place ≤ length input.now }
    ensures found { MatchOption result (with_type oid.now attributes.now ≡ []) (λ f. with_type oid.now attributes.now ≡ f.1.now ∷ with_type oid.now f.2.now) }
    ensures within { IfSome result (λ f. f.0 ≤ length input.now) }
    ensures split { IfSome result (λ f. (before : List Attribute) × (attributes.now ≡ before ++ f.1.now ∷ f.2.now)) }
    ensures stands { IfSome result (λ f. (more : List ℕ) → drop place input.now ≡ joined (spelling grammar.attribute) attributes.now ++ more
        → drop f.0 input.now ≡ spelling grammar.attribute f.1.now ++ (joined (spelling grammar.attribute) f.2.now ++ more)) }
{
    let mut at = place;
    let mut rest = attributes;
    while let Some((first, others)) = rest.split_first() {
        if first.oid.as_bytes() == oid {
            return Some((at, first, others));
        }
        step(input, &mut at, true);
        rest = others;
    }
    None
}

/// Fills in the one attribute of the type. The bytes of the attributes begin at the place.
#[tactic(auto, unfolding(crate::specs::RequestAttributes::FindsAttribute))]
fn pick(
    input: &[u8],
    place: usize,
    attributes: &[Attribute],
    oid: &[u8],
    found: &mut RequestAttributeView,
) -> Status
    requires { place ≤ length input.now }
    ensures { (more : List ℕ) → drop place input.now ≡ joined (spelling grammar.attribute) attributes.now ++ more
        → FindsAttribute input.now attributes.now more (with_type oid.now attributes.now) found.old found.new result }
{
    let Some((at, attribute, others)) = find(input, place, attributes, oid) else {
        return Status::Absent;
    };
    if find(input, at, others, oid).is_some() {
        return Status::Repeated;
    }
    *found = RequestAttributeView::view(input, at, attribute);
    Status::Done
}

/// Decodes a CSR, and fills in its attribute of the type that has an OID with these content octets.
///
/// # Errors
///
/// [`Status::Absent`] exactly where no attribute has the OID, [`Status::Repeated`] exactly where two or more have it.
/// Else `Overlength` where the bytes are more than 268,435,455, and within that length `Malformed` where they are the
/// encoding of no CSR. `Memory` when out of memory. `found` is unchanged then.
#[tactic(auto, unfolding(crate::specs::RequestAttributes::LooksUpAttribute))]
pub fn request_attribute(
    alloc: Global,
    input: &[u8],
    oid: &[u8],
    found: &mut RequestAttributeView,
) -> Status
    ensures { LooksUpAttribute ⟦<CertReq as Grammar>⟧.form ⟦<CertReq as Grammar>⟧.refuses input.now oid.now found.old found.new result }
{
    let request = match read::<CertReq>(alloc, input) {
        Ok(request) => request,
        Err(e) => return Status::Refused(e),
    };
    let mut at = RequestView::view(input, 0, &request).attributes.place;
    enter(input, &mut at);
    pick(input, at, request.info.attributes.as_slice(), oid, found)
}
