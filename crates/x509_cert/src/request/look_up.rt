//! Look-ups among the attributes of CSRs.

ghost use Rattle.std.specs.Prelude.{◌≡◌, [], ◌∷◌, MatchOption};
ghost use Rattle.x509_cert.specs.AttributeLookUp.{DecodesAlone, FindsValue, with_type};

use std::alloc::Global;
use x509_der::{AssociatedOid, Decode, Error, ErrorKind, ObjectIdentifier};
use x509_name::attr::{Attribute, Attributes};

/// The first attribute of the type, and those that follow it.
fn split_first_with(
    attributes: &[Attribute],
    oid: ObjectIdentifier,
) -> Option<(&Attribute, &[Attribute])>
    ensures { MatchOption result (with_type oid attributes.now ≡ []) (λ found. with_type oid attributes.now ≡ found.0.now ∷ with_type oid found.1.now) }
{
    let mut rest = attributes;
    while let Some((first, others)) = rest.split_first() {
        if first.oid == oid {
            return Some((first, others));
        }
        rest = others;
    }
    None
}

/// The one value of the attribute.
fn only_value<T: Decode>(alloc: Global, attribute: &Attribute) -> Result<T, Error>
    ensures { DecodesAlone T.form T.refuses T.wants_memory attribute.now.values result }
{
    let [value] = attribute.values.as_slice() else {
        return Err(ErrorKind::Failed.into());
    };
    value.decode_as(alloc)
}

/// The value of the attribute of type `T`, found by the OID of the type, among attributes that have one value each, as
/// those of CSRs do (RFC 2985 5.4). `None` exactly where no attribute has the OID.
///
/// # Errors
///
/// `Failed` where two or more attributes have the OID, and where the only one has no value, or two or more, whatever
/// they are. Where it has one value, the errors of [`Any::decode_as`](x509_der::Any::decode_as) on that.
pub fn get_attribute<T: AssociatedOid + Decode>(
    alloc: Global,
    attributes: &Attributes,
) -> Result<Option<T>, Error>
    ensures { FindsValue T.form T.refuses T.wants_memory (with_type T.OID attributes.now) result }
{
    let Some((attribute, others)) = split_first_with(attributes.as_slice(), T::OID) else {
        return Ok(None);
    };
    if split_first_with(others, T::OID).is_some() {
        return Err(ErrorKind::Failed.into());
    }
    Ok(Some(only_value(alloc, attribute)?))
}
