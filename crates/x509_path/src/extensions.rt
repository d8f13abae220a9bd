//! The extensions of a certificate that say where it may stand in a path.

ghost use Rattle.std.specs.Prelude.{◌≡◌, ◌↔◌, [], ◌∷◌, true, List, IfOk, IfErr, IfSome, IsTrue, MatchOption, None, Some, bytes_eq, false, drop, get_or, length, take, ◌+◌, ◌-◌, ◌<◌, ◌≤◌, ℕ};
ghost use Rattle.x509_check.specs.ExtensionRefs.{extensions_left, lent_extension};
ghost use Rattle.x509_ext.specs.LookUp.{IsRepeated, with_oid};
ghost use Rattle.x509_ext.specs.declared.extension.Extension.{Extension};
ghost use Rattle.x509_path.specs.Certificates as certificates;
ghost use Rattle.x509_path.specs.Lent.{lent_extensions};
ghost use Rattle.x509_path.specs.PathLength.{HasConstraints};

use std::alloc::{AllocError, Global};
use x509_check::{Check, ExtensionRef, ExtensionRefs};
use x509_der::{AssociatedOid, Decode, ObjectIdentifier, ValueOrd};
use x509_ext::pkix::{BasicConstraints, ExtendedKeyUsage, KeyUsage, SubjectAltName};

/// Up to so many extensions are each compared with those that follow it; of more the OIDs are sorted.
const FEW_EXTENSIONS: usize = 16;

/// What stands in a place for an extension before one does.
fn no_extension<'a>() -> ExtensionRef<'a> {
    ExtensionRef {
        extn_id: KeyUsage::OID,
        critical: false,
        extn_value: &[],
    }
}

/// Places for few extensions.
pub fn places<'a>() -> [ExtensionRef<'a>; FEW_EXTENSIONS]
    ensures { length result ≡ 16 }
{
    [
        no_extension(),
        no_extension(),
        no_extension(),
        no_extension(),
        no_extension(),
        no_extension(),
        no_extension(),
        no_extension(),
        no_extension(),
        no_extension(),
        no_extension(),
        no_extension(),
        no_extension(),
        no_extension(),
        no_extension(),
        no_extension(),
    ]
}

/// How many extensions there are, each lent to a place, from the first on; `None` where the places are too few.
pub(crate) fn gather<'a>(
    extensions: ExtensionRefs<'a>,
    few: &mut [ExtensionRef<'a>],
) -> Option<usize>
    ensures few { IfSome result (λ count. (count ≤ length few.new) × (lent_extensions (take count few.new) ≡ extensions_left extensions.entry)) }
    ensures many { result ≡ None → length few.old < length (extensions_left extensions.entry) }
    ensures places { length few.new ≡ length few.old }
{
    let mut rest = extensions;
    let mut count = 0;
    while let Some(extension) = rest.next() {
        if count >= few.len() {
            return None;
        }
        few[count] = extension;
        count += 1;
    }
    Some(count)
}

/// The extensions, each lent.
///
/// # Errors
///
/// Out of memory.
pub fn collect<'a>(
    alloc: Global,
    extensions: ExtensionRefs<'a>,
) -> Result<Vec<ExtensionRef<'a>>, AllocError>
    ensures { IfOk result (λ list. lent_extensions list.items ≡ extensions_left extensions.entry) }
{
    let mut rest = extensions;
    let mut list = Vec::with_capacity(alloc, FEW_EXTENSIONS)?;
    while let Some(extension) = rest.next() {
        match list.push(extension) {
            Ok(()) => {}
            Err(_) => return Err(AllocError),
        }
    }
    Ok(list)
}

/// The first extensions.
#[inline(always)]
pub(crate) fn front<'s, 'a>(
    extensions: &'s [ExtensionRef<'a>],
    count: usize,
) -> &'s [ExtensionRef<'a>]
    requires { count ≤ length extensions.now }
    ensures { result.now ≡ take count extensions.now }
{
    &extensions[..count]
}

/// The extensions, each lent: in the places where these are enough, else in the list.
///
/// # Errors
///
/// Out of memory, only of more extensions than places.
pub fn lend_all<'s, 'a>(
    alloc: Global,
    extensions: ExtensionRefs<'a>,
    few: &'s mut [ExtensionRef<'a>],
    many: &'s mut Vec<ExtensionRef<'a>>,
) -> Result<&'s [ExtensionRef<'a>], AllocError>
    ensures ok { IfOk result (λ list. lent_extensions list.now ≡ extensions_left extensions.entry) }
    ensures err { IfErr result (λ e. length few.old < length (extensions_left extensions.entry)) }
{
    match gather(extensions, few) {
        Some(count) => Ok(front(few, count)),
        None => {
            *many = collect(alloc, extensions)?;
            Ok(many.as_slice())
        }
    }
}

/// The extensions that follow the one at that index.
#[inline(always)]
fn behind<'s, 'a>(extensions: &'s [ExtensionRef<'a>], index: usize) -> &'s [ExtensionRef<'a>]
    requires { index < length extensions.now }
    ensures { result.now ≡ drop (index + 1) extensions.now }
{
    &extensions[index + 1..]
}

/// The last octet of the OID.
#[inline(always)]
fn last_octet(oid: &ObjectIdentifier) -> u8
    ensures { result ≡ get_or oid.now (length oid.now - 1) 0 }
{
    match oid.as_bytes() {
        [.., last] => *last,
        [] => 0,
    }
}

/// Whether the extension has the OID. The last octets are compared first, which mostly tells two OIDs apart.
#[inline(always)]
fn is_of(extension: &ExtensionRef<'_>, oid: &ObjectIdentifier) -> bool
    ensures { result ≡ bytes_eq extension.now.extn_id oid.now }
{
    last_octet(&extension.extn_id) == last_octet(oid) && extension.extn_id == *oid
}

/// Whether an extension has the OID.
fn has_any(extensions: &[ExtensionRef<'_>], oid: ObjectIdentifier) -> bool
    ensures none { result ≡ false → with_oid oid (lent_extensions extensions.now) ≡ [] }
    ensures some { result ≡ true → 1 ≤ length (with_oid oid (lent_extensions extensions.now)) }
{
    for extension in extensions {
        if is_of(extension, &oid) {
            return true;
        }
    }
    false
}

/// The octets of the one extension with the OID; `None` where there are none or several.
pub fn find_one<'a>(extensions: &[ExtensionRef<'a>], oid: ObjectIdentifier) -> Option<&'a [u8]>
    ensures { MatchOption result ((e : Extension) → with_oid oid (lent_extensions extensions.now) ≡ e ∷ [] → ⊥)
        (λ octets. (e : Extension) × (with_oid oid (lent_extensions extensions.now) ≡ e ∷ []) × (octets.now ≡ e.extn_value)) }
{
    for (index, extension) in extensions.iter().enumerate() {
        if is_of(extension, &oid) {
            if has_any(behind(extensions, index), oid) {
                return None;
            }
            return Some(extension.extn_value);
        }
    }
    None
}

/// Whether two or more of the extensions have one OID. O(n²) comparisons.
fn is_any_repeated(extensions: &[ExtensionRef<'_>]) -> bool
    ensures { IsTrue result ↔ IsRepeated (lent_extensions extensions.now) }
{
    for (index, extension) in extensions.iter().enumerate() {
        let others = behind(extensions, index);
        if has_any(others, extension.extn_id) {
            return true;
        }
    }
    false
}

/// Whether two of the extensions have one OID. O(n log n) comparisons.
///
/// # Errors
///
/// Out of memory, only of more than 16.
pub fn is_repeated(alloc: Global, extensions: &[ExtensionRef<'_>]) -> Result<bool, AllocError>
    ensures ok { IfOk result (λ b. IsTrue b ↔ IsRepeated (lent_extensions extensions.now)) }
    ensures err { IfErr result (λ e. 16 < length extensions.now) }
{
    if extensions.len() <= FEW_EXTENSIONS {
        return Ok(is_any_repeated(extensions));
    }
    let mut identifiers = Vec::with_capacity(alloc, extensions.len())?;
    for extension in extensions {
        identifiers.push(extension.extn_id)?;
    }
    identifiers.sort_unstable_by(|a, b| a.value_cmp(b));
    Ok(!identifiers.is_sorted_by(|a, b| a.value_cmp(b).is_lt()))
}

/// Whether the extension has the OID of the type, and its octets are an encoding of the type.
pub fn is_readable<T: AssociatedOid + Check>(extension: &ExtensionRef<'_>) -> bool
    ensures { IsTrue result ↔ certificates.IsReadable T.form T.OID (lent_extension extension.now) }
{
    is_of(extension, &T::OID) && T::check(extension.extn_value).is_ok()
}

/// Whether the extension is of a type that is processed here, and can be decoded.
pub fn is_known(extension: &ExtensionRef<'_>) -> bool
    ensures { IsTrue result ↔ certificates.IsKnown (lent_extension extension.now) }
{
    is_readable::<BasicConstraints>(extension)
        || is_readable::<KeyUsage>(extension)
        || is_readable::<ExtendedKeyUsage>(extension)
        || is_readable::<SubjectAltName>(extension)
}

/// Whether each critical extension is of a type that is processed here, and can be decoded.
pub(crate) fn are_handled(extensions: &[ExtensionRef<'_>]) -> bool
    ensures { IsTrue result ↔ certificates.AreHandled (lent_extensions extensions.now) }
{
    for extension in extensions {
        if extension.critical && !is_known(extension) {
            return false;
        }
    }
    true
}

/// The value of the one extension of the type; `None` where there isn't one that can be decoded. The type is one that
/// takes no memory.
pub fn payload<T: AssociatedOid + Decode>(
    alloc: Global,
    extensions: &[ExtensionRef<'_>],
) -> Option<T>
    requires { T.wants_memory → ⊥ }
    ensures { (value : T) → certificates.HasPayload T.form T.OID (lent_extensions extensions.now) value ↔ (result ≡ Some value) }
{
    match find_one(extensions, T::OID) {
        Some(octets) => match T::from_der(alloc, octets) {
            Ok(value) => Some(value),
            Err(_) => None,
        },
        None => None,
    }
}

/// The value of the one BasicConstraints that can be decoded, where another certificate follows.
pub fn basic_constraints(
    alloc: Global,
    is_last: bool,
    extensions: &[ExtensionRef<'_>],
) -> Option<BasicConstraints>
    ensures { is_last ≡ false → HasConstraints (lent_extensions extensions.now) result }
{
    if is_last {
        return None;
    }
    payload::<BasicConstraints>(alloc, extensions)
}

/// Whether they are those of a certification authority.
pub fn is_ca(constraints: Option<BasicConstraints>) -> bool
    ensures { (extensions : List Extension) → HasConstraints extensions constraints → IsTrue result ↔ certificates.IsCa extensions }
{
    match constraints {
        Some(constraints) => constraints.ca,
        None => false,
    }
}

/// How many certificates that aren't self-issued may follow, the last apart; `None` where there is no path length
/// constraint.
pub fn path_len(constraints: Option<BasicConstraints>) -> Option<u8>
    ensures { (extensions : List Extension) → HasConstraints extensions constraints → (k : ℕ) → certificates.HasPathLen extensions k ↔ (result ≡ Some k) }
{
    match constraints {
        Some(constraints) => constraints.path_len_constraint,
        None => None,
    }
}

/// Whether there is a KeyUsage without keyCertSign.
pub fn lacks_key_cert_sign(alloc: Global, extensions: &[ExtensionRef<'_>]) -> bool
    ensures { IsTrue result ↔ certificates.LacksKeyCertSign (lent_extensions extensions.now) }
{
    match payload::<KeyUsage>(alloc, extensions) {
        Some(usage) => !usage.key_cert_sign(),
        None => has_any(extensions, KeyUsage::OID),
    }
}
