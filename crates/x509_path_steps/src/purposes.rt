//! The key purposes of a certificate (RFC 5280 4.2.1.12).

ghost use Rattle.std.specs.List.{filter};
ghost use Rattle.std.specs.Option.{option_map};
ghost use Rattle.std.specs.Prelude.{◌≡◌, ◌↔◌, ◌⊎◌, ◌++◌, ◌∷◌, [], ℕ, List, Option, IfOk, IsTrue, false, true};
ghost use Rattle.x509_ext.specs.Identifiers.{id_ce};
ghost use Rattle.x509_path.specs.Certificates as certificates;
ghost use Rattle.x509_path.specs.Lent.{lent_extensions};
ghost use Rattle.x509_path_steps.specs.Inputs.{purposes_of};
ghost use Rattle.x509_path_steps.specs.Steps.{AreLeft, asked_before, left_at};
ghost use Rattle.x509_path_steps.specs.Validation.{AllowsPurpose, LackPurpose, any_purpose, asked_at, asks_purpose};
ghost use Rattle.x509_policy.specs.Levels.{In};
ghost use Rattle.x509_policy.specs.Values.{has};
ghost use Rattle.x509_policy.specs.Views.{octets_of};

use crate::asked::Asked;
use crate::payloads::owned_payload;
use crate::settings::PathSettings;
use std::alloc::{AllocError, Global};
use x509_check::ExtensionRef;
use x509_der::ObjectIdentifier;
use x509_ext::pkix::ExtendedKeyUsage;
use x509_policy::PolicySet;

/// The content octets of anyExtendedKeyUsage.
const ANY_PURPOSE: [u8; 4] = [0x55, 0x1D, 37, 0];

/// The content octets of the OIDs.
fn octets<'a>(
    alloc: Global,
    identifiers: &'a [ObjectIdentifier],
) -> Result<Vec<&'a [u8]>, AllocError>
    ensures { IfOk result (λ found. octets_of found.items ≡ identifiers.now) }
{
    let mut found = Vec::with_capacity(alloc, identifiers.len())?;
    for identifier in identifiers {
        found.push(identifier.as_bytes())?;
    }
    Ok(found)
}

/// Those of the purposes that are in the set.
fn within<'a>(
    alloc: Global,
    purposes: &[&'a [u8]],
    set: &PolicySet<'_>,
) -> Result<Vec<&'a [u8]>, AllocError>
    ensures { IfOk result (λ found. octets_of found.items ≡ filter (λ p. has set.now p) (octets_of purposes.now)) }
{
    let mut found = Vec::new(alloc);
    for purpose in purposes {
        if set.contains(purpose) {
            found.push(*purpose)?;
        }
    }
    Ok(found)
}

/// Those of the purposes that are named, or all where any is.
fn named<'a>(
    alloc: Global,
    purposes: &[&'a [u8]],
    usage: &ExtendedKeyUsage,
) -> Result<Vec<&'a [u8]>, AllocError>
    ensures { IfOk result (λ found. (p : List ℕ) → In p (octets_of found.items)
        ↔ (In p (octets_of purposes.now) × (In p usage.now.0 ⊎ In any_purpose usage.now.0))) }
{
    let set = PolicySet::new(octets(alloc, usage.0.as_slice())?);
    if set.contains(&ANY_PURPOSE) {
        return Vec::from_slice(alloc, purposes);
    }
    within(alloc, purposes, &set)
}

/// Those of the purposes that a certificate with these extensions allows, in O(n log n).
fn allowed<'a>(
    alloc: Global,
    purposes: &[&'a [u8]],
    extensions: &[ExtensionRef<'_>],
) -> Result<Vec<&'a [u8]>, AllocError>
    ensures { IfOk result (λ found. (c : certificates.Certificate) → lent_extensions extensions.now ≡ certificates.extensions_of c → (p : List ℕ)
        → In p (octets_of found.items) ↔ (In p (octets_of purposes.now) × AllowsPurpose p c)) }
{
    match owned_payload::<ExtendedKeyUsage>(alloc, extensions)? {
        Some(usage) => named(alloc, purposes, &usage),
        None => Vec::from_slice(alloc, purposes),
    }
}

/// The purposes that are left behind a certificate with these extensions, where one is asked for.
///
/// # Errors
///
/// Out of memory.
pub fn purposes_behind<'a>(
    alloc: Global,
    asked: &Asked<'a>,
    is_last: bool,
    extensions: &[ExtensionRef<'_>],
) -> Result<Option<Vec<&'a [u8]>>, AllocError>
    ensures { IfOk result (λ found. (purposes : Option (List (List ℕ))) (before : List certificates.Certificate) (c : certificates.Certificate)
        → lent_extensions extensions.now ≡ certificates.extensions_of c
        → AreLeft purposes (asked_before asked.now.uses.is_chained before) (left_at asked.now)
        → AreLeft purposes (asked_at asked.now.uses.is_chained is_last before c) (option_map (λ v. octets_of v.items) found)) }
{
    let Some(purposes) = &asked.purposes else {
        return Ok(None);
    };
    if !asked.uses.is_chained && !is_last {
        return Ok(Some(Vec::from_slice(alloc, purposes.as_slice())?));
    }
    Ok(Some(allowed(alloc, purposes.as_slice(), extensions)?))
}

/// Whether a purpose is asked for, and none is left.
pub fn is_none_left(left: &Option<Vec<&[u8]>>) -> bool
    ensures { (purposes : Option (List (List ℕ))) (asked : List certificates.Certificate)
        → AreLeft purposes asked (option_map (λ v. octets_of v.items) left.now) → IsTrue result ↔ LackPurpose purposes asked }
{
    match left {
        Some(left) => left.is_empty(),
        None => false,
    }
}

/// Whether a purpose is asked for.
pub fn is_any_asked(left: &Option<Vec<&[u8]>>) -> bool
    ensures { (purposes : Option (List (List ℕ))) (asked : List certificates.Certificate)
        → AreLeft purposes asked (option_map (λ v. octets_of v.items) left.now) → result ≡ asks_purpose purposes }
{
    left.is_some()
}

/// Whether a purpose is asked for, and a certificate with these extensions allows none of those of which one is.
///
/// # Errors
///
/// Out of memory.
pub fn lacks_purposes(
    alloc: Global,
    settings: &PathSettings<'_>,
    extensions: &[ExtensionRef<'_>],
) -> Result<bool, AllocError>
    ensures { IfOk result (λ b. (c : certificates.Certificate) → lent_extensions extensions.now ≡ certificates.extensions_of c
        → IsTrue b ↔ LackPurpose (purposes_of settings.now) (c ∷ [])) }
{
    let Some(purposes) = settings.purposes else {
        return Ok(false);
    };
    let left = Some(allowed(alloc, purposes, extensions)?);
    Ok(is_none_left(&left))
}
