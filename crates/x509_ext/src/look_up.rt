//! The one extension of a type.

ghost use Rattle.std.specs.Option.{option_copied};
ghost use Rattle.std.specs.Prelude.{◌≡◌, ◌↔◌, [], ◌∷◌, MatchOption, IfOk, IfErr, IsTrue};
ghost use Rattle.x509_ext.specs.LookUp.{Decodes, DecodesPayload, Finds, IsRepeated, members, with_oid};
ghost use Rattle.x509_der.specs.declared.error.ErrorKind.TheVariants.{Memory};

use crate::{Extension, Extensions};
use std::alloc::Global;
use x509_der::{AssociatedOid, Decode, Error, ErrorKind, ObjectIdentifier, ValueOrd};

/// The extensions; none where the list is absent.
pub fn members(extensions: Option<&Extensions>) -> &[Extension]
    ensures { result.now ≡ members (option_copied extensions.entry) }
{
    match extensions {
        None => &[],
        Some(list) => list.as_slice(),
    }
}

/// The first extension with the OID, and those that follow it.
#[inline(always)]
pub(crate) fn split_first_with(
    extensions: &[Extension],
    oid: ObjectIdentifier,
) -> Option<(&Extension, &[Extension])>
    ensures { MatchOption result (with_oid oid extensions.now ≡ []) (λ found. with_oid oid extensions.now ≡ found.0.now ∷ with_oid oid found.1.now) }
{
    let mut rest = extensions;
    while let Some((first, others)) = rest.split_first() {
        if first.extn_id == oid {
            return Some((first, others));
        }
        rest = others;
    }
    None
}

/// Whether the extension is critical, and the value of its octets.
pub(crate) fn decode<T: Decode>(alloc: Global, extension: &Extension) -> Result<(bool, T), Error>
    ensures { DecodesPayload T.form T.refuses T.wants_memory extension.now result }
{
    let payload = T::from_der(alloc, extension.extn_value.as_bytes())?;
    Ok((extension.critical, payload))
}

/// The extension of type `T`, found by the OID of the type: whether it is critical, and its value; `None` exactly where
/// no extension has the OID. An extension may appear once at most (RFC 5280 4.2).
///
/// # Errors
///
/// `Failed` where two or more extensions have the OID (a repeated extension), whatever they hold. Where one has it, the
/// errors of [`Decode::from_der`] on the octets that it holds, `Memory` only where decoding the type may take memory.
pub fn get_extension<T: AssociatedOid + Decode>(
    alloc: Global,
    extensions: &[Extension],
) -> Result<Option<(bool, T)>, Error>
    ensures { Finds T.form T.refuses T.wants_memory (with_oid T.OID extensions.now) result }
{
    let Some((extension, others)) = split_first_with(extensions, T::OID) else {
        return Ok(None);
    };
    if split_first_with(others, T::OID).is_some() {
        return Err(ErrorKind::Failed.into());
    }
    Ok(Some(decode(alloc, extension)?))
}

/// Up to so many extensions are each compared with those that follow it; of more the OIDs are sorted.
const MAX_PAIRED: usize = 16;

/// Whether two or more of the extensions have one OID. O(n²) comparisons.
fn is_any_repeated(extensions: &[Extension]) -> bool
    ensures { IsTrue result ↔ IsRepeated extensions.now }
{
    let mut rest = extensions;
    while let Some((first, others)) = rest.split_first() {
        if split_first_with(others, first.extn_id).is_some() {
            return true;
        }
        rest = others;
    }
    false
}

/// Whether two or more of the extensions have one OID, which RFC 5280 4.2 forbids. O(n log n) comparisons.
///
/// # Errors
///
/// `Memory` when out of memory, and nothing else: it copies the OIDs of more than 16 extensions.
pub fn has_repeated_extension(alloc: Global, extensions: &[Extension]) -> Result<bool, Error>
    ensures ok { IfOk result (λ repeated. IsTrue repeated ↔ IsRepeated extensions.now) }
    ensures err { IfErr result (λ e. e.kind ≡ Memory) }
{
    if extensions.len() <= MAX_PAIRED {
        return Ok(is_any_repeated(extensions));
    }
    let mut identifiers = Vec::with_capacity(alloc, extensions.len())?;
    for extension in extensions {
        identifiers.push(extension.extn_id)?;
    }
    identifiers.sort_unstable_by(|a, b| a.value_cmp(b));
    Ok(!identifiers.is_sorted_by(|a, b| a.value_cmp(b).is_lt()))
}
