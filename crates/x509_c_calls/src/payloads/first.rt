//! The first attribute of a type in a name.

ghost use Rattle.std.specs.Prelude.{◌≡◌, ◌≤◌, ◌++◌, None, drop, length, List, ℕ, IfSome};
ghost use Rattle.x509_c_calls.specs.Attributes.{IsAttribute};
ghost use Rattle.x509_c_calls.specs.FirstAttribute.{FindsAttribute, IsFirstIn, ShowsFirst};
ghost use Rattle.x509_der.specs.List.{joined};
ghost use Rattle.x509_der.specs.Form.{spelling};
ghost use Rattle.x509_name.specs.Iterators.{members_of};
ghost use Rattle.x509_name.specs.LookUp.{first_of_type};
ghost use Rattle.x509_name.specs.Names.{relative_distinguished_name};
ghost use Rattle.x509_name.specs.TypeAndValue.{attribute_type_and_value};
ghost use Rattle.x509_name.specs.declared.attr.type_and_value.AttributeTypeAndValue.{AttributeTypeAndValue};

use crate::payloads::calls::View;
use crate::payloads::name::AttributeView;
use crate::{Status, enter, read, step};
use std::alloc::Global;
use x509_der::Grammar;
use x509_name::attr::AttributeTypeAndValue;
use x509_name::name::{Name, RelativeDistinguishedName};

/// What is said of the first of the attributes that is of the type. Their bytes begin at the place.
fn first_in(
    input: &[u8],
    place: usize,
    attributes: &[AttributeTypeAndValue],
    oid: &[u8],
) -> Option<AttributeView>
    requires { place ≤ length input.now }
    ensures none { result ≡ None → first_of_type oid.now attributes.now ≡ None }
    ensures found { IfSome result (λ view. (more : List ℕ) → drop place input.now ≡ joined (spelling attribute_type_and_value) attributes.now ++ more
        → (first : AttributeTypeAndValue) × (rest : List AttributeTypeAndValue)
        × IsFirstIn oid.now attributes.now first rest × IsAttribute input.now first (joined (spelling attribute_type_and_value) rest ++ more) view) }
{
    let mut at = place;
    let mut rest = attributes;
    while let Some((first, others)) = rest.split_first() {
        if first.oid.as_bytes() == oid {
            return Some(AttributeView::view(input, at, first));
        }
        step(input, &mut at, true);
        rest = others;
    }
    None
}

/// What is said of the first attribute of the RDNs that is of the type. The bytes of the RDNs begin at the place, and nothing stands behind them.
fn first_of(
    input: &[u8],
    place: usize,
    rdns: &[RelativeDistinguishedName],
    oid: &[u8],
) -> Option<AttributeView>
    requires { place ≤ length input.now }
    ensures none { result ≡ None → first_of_type oid.now (members_of rdns.now) ≡ None }
    ensures found { IfSome result (λ view. drop place input.now ≡ joined (spelling relative_distinguished_name) rdns.now
        → ShowsFirst input.now rdns.now oid.now view) }
{
    let mut at = place;
    let mut rest = rdns;
    while let Some((rdn, others)) = rest.split_first() {
        let mut inside = at;
        enter(input, &mut inside);
        if let Some(view) = first_in(input, inside, rdn.as_slice(), oid) {
            return Some(view);
        }
        step(input, &mut at, true);
        rest = others;
    }
    None
}

/// Decodes a name, and fills in its first attribute, in the order of the encoding, whose type has the OID with these content octets.
///
/// # Errors
///
/// [`Status::Absent`] exactly where no attribute is of the type. Else `Overlength` where the bytes are more than 268,435,455, and within that length
/// `Malformed` where they are the encoding of no name. `Memory` when out of memory. `found` is unchanged then.
#[tactic(auto, unfolding(crate::specs::FirstAttribute::FindsAttribute))]
pub fn name_attribute(alloc: Global, input: &[u8], oid: &[u8], found: &mut AttributeView) -> Status
    ensures { FindsAttribute ⟦<Name as Grammar>⟧.form ⟦<Name as Grammar>⟧.refuses input.now oid.now found.old found.new result }
{
    let name = match read::<Name>(alloc, input) {
        Ok(name) => name,
        Err(e) => return Status::Refused(e),
    };
    let mut at = 0;
    enter(input, &mut at);
    let Some(view) = first_of(input, at, name.as_ref().as_slice(), oid) else {
        return Status::Absent;
    };
    *found = view;
    Status::Done
}
