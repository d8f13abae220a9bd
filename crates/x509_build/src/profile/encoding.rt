//! The order of a name's attributes.

ghost use Rattle.std.specs.Prelude.{◌≡◌, ◌++◌, [], ◌∷◌, ℕ, None, Some, IfErr, IfOk, nat_lt};
ghost use Rattle.x509_build.specs.Order.{IsChecked, break_of, has_from, has_type, is_there};

use crate::profile::attribute_types::place_of;
use crate::{Error, Result};
use x509_der::ObjectIdentifier;
use x509_name::name::{Name, RelativeDistinguishedName};

fn is_there(rdn: &RelativeDistinguishedName, oid: ObjectIdentifier) -> bool
    ensures { result ≡ is_there oid rdn.now }
{
    let mut attributes = rdn.as_slice();
    while let [attribute, rest @ ..] = attributes {
        if attribute.oid == oid {
            return true;
        }
        attributes = rest;
    }
    false
}

/// Whether some attribute of these has the type.
pub(crate) fn has_type(mut rdns: &[RelativeDistinguishedName], oid: ObjectIdentifier) -> bool
    ensures { result ≡ has_type oid rdns.entry.now }
{
    while let [rdn, rest @ ..] = rdns {
        if is_there(rdn, oid) {
            return true;
        }
        rdns = rest;
    }
    false
}

/// `next` is the place in the order after all types of the earlier RDNs. The answer is that place after this RDN too,
/// or the rule that it breaks.
fn next_place(
    earlier: &[RelativeDistinguishedName],
    next: usize,
    rdn: &RelativeDistinguishedName,
    multiple_allowed: bool,
) -> Result<usize>
    requires { (place : ℕ) → has_from place earlier.now ≡ nat_lt place next }
    ensures ok { IfOk result (λ after. break_of multiple_allowed earlier.now rdn.now ≡ None) }
    ensures behind { IfOk result (λ after. (place : ℕ) → has_from place (earlier.now ++ rdn.now ∷ []) ≡ nat_lt place after) }
    ensures err { IfErr result (λ e. break_of multiple_allowed earlier.now rdn.now ≡ Some e) }
{
    let [attribute] = rdn.as_slice() else {
        return Err(Error::NonUniqueRdn);
    };
    let oid = attribute.oid;
    let place = place_of(oid);
    if let Some(place) = place
        && place >= next
    {
        // No earlier type of the order stands here or later, so none is this one.
        return Ok(place + 1);
    }
    if !multiple_allowed && has_type(earlier, oid) {
        return Err(Error::NonUniqueATV);
    }
    if place.is_some() {
        return Err(Error::InvalidAttribute { oid });
    }
    Ok(next)
}

/// Checks that a name is encoded as the CA/Browser Forum asks (Baseline Requirements 7.1.4.1): each relative
/// distinguished name (RDN) has one attribute; without `multiple_allowed` no attribute type is there twice; and the
/// types of this list come in its order, each once at most: domainComponent, countryName, stateOrProvinceName,
/// localityName, postalCode, streetAddress, organizationName, surname, givenName, organizationalUnitName, commonName.
/// Types that aren't in the list may stand anywhere. The empty name is in order.
///
/// It takes no memory. With `multiple_allowed` the time is linear. Without it each attribute whose type isn't in the
/// list is compared with all attributes before it, so the length of a name from an untrusted source should be bounded
/// first.
///
/// # Errors
///
/// The first RDN that breaks a rule gives the error, by the first of these that it breaks: `NonUniqueRdn` where it
/// hasn't just one attribute; `NonUniqueATV` where `multiple_allowed` is false and its type was there before;
/// `InvalidAttribute` with its type where that is in the list and an earlier one stands in the list at the same place
/// or later.
pub fn check_names_encoding(name: &Name, multiple_allowed: bool) -> Result<()>
    ensures { IsChecked multiple_allowed name.now result }
{
    let rdns = name.as_ref().as_slice();
    let mut next = 0;
    for i in 0..rdns.len() {
        next = next_place(&rdns[..i], next, &rdns[i], multiple_allowed)?;
    }
    Ok(())
}
