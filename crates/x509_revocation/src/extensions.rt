//! Extensions of CRLs and of their entries.

ghost use Rattle.std.specs.List.{All};
ghost use Rattle.std.specs.Prelude.{◌≡◌, ◌↔◌, ◌⊎◌, [], true, IfOk, IsTrue, MatchOption};
ghost use Rattle.x509_check.specs.ExtensionRefs.{extensions_left, lent_extension};
ghost use Rattle.x509_ext.specs.LookUp.{with_oid};
ghost use Rattle.x509_path.specs.Certificates.{HasPayload, IsReadable};
ghost use Rattle.x509_revocation.specs.Crls.{Crl, HaveSame, crl_extensions};
ghost use Rattle.x509_revocation.specs.Lent.{LendsCrl};

use std::alloc::{AllocError, Global};
use x509_check::{Check, CrlRef, ExtensionRef, ExtensionRefs};
use x509_der::{AssociatedOid, Decode, ErrorKind, ObjectIdentifier};

/// Whether the extension has the OID of the type, and its octets are an encoding of the type.
fn is_readable<T: AssociatedOid + Check>(extension: &ExtensionRef<'_>) -> bool
    ensures { IsTrue result ↔ IsReadable T.form T.OID (lent_extension extension.now) }
{
    if extension.extn_id != T::OID {
        return false;
    }
    T::check(extension.extn_value).is_ok()
}

/// Whether the extension is of one of two types, and its value can be decoded.
fn is_either<T: AssociatedOid + Check, U: AssociatedOid + Check>(
    extension: &ExtensionRef<'_>,
) -> bool
    ensures { IsTrue result
        ↔ (IsReadable T.form T.OID (lent_extension extension.now) ⊎ IsReadable U.form U.OID (lent_extension extension.now)) }
{
    is_readable::<T>(extension) || is_readable::<U>(extension)
}

/// Whether each critical extension is of one of the types, and can be decoded.
pub(crate) fn are_processed<T: AssociatedOid + Check, U: AssociatedOid + Check>(
    extensions: ExtensionRefs<'_>,
) -> bool
    ensures { IsTrue result ↔ All (λ e. e.critical ≡ true → IsReadable T.form T.OID e ⊎ IsReadable U.form U.OID e) (extensions_left extensions.entry) }
{
    let mut rest = extensions;
    while let Some(extension) = rest.next() {
        if extension.critical && !is_either::<T, U>(&extension) {
            return false;
        }
    }
    true
}

/// Whether no extension has the OID.
pub(crate) fn has_none(extensions: &ExtensionRefs<'_>, oid: ObjectIdentifier) -> bool
    ensures { IsTrue result ↔ (with_oid oid (extensions_left extensions.now) ≡ []) }
{
    matches!(extensions.find_extension(oid), Ok(None))
}

/// Whether both have one extension with the OID, with the same octets, or neither has one.
pub(crate) fn have_same(a: &ExtensionRefs<'_>, b: &ExtensionRefs<'_>, oid: ObjectIdentifier) -> bool
    ensures { IsTrue result ↔ HaveSame oid (extensions_left a.now) (extensions_left b.now) }
{
    match a.find_extension(oid) {
        Ok(None) => has_none(b, oid),
        Ok(Some(first)) => match b.find_extension(oid) {
            Ok(Some(second)) => first.extn_value == second.extn_value,
            Ok(None) | Err(_) => false,
        },
        Err(_) => false,
    }
}

/// The value of the CRL's extension of the type; `None` where it has none that can be decoded.
pub(crate) fn value_of<T: AssociatedOid + Decode>(
    alloc: Global,
    crl: &CrlRef<'_>,
) -> Result<Option<T>, AllocError>
    ensures { IfOk result (λ found. (of : Crl) → LendsCrl crl.now.bytes.now of
        → MatchOption found ((value : T) → HasPayload T.form T.OID (crl_extensions of) value → ⊥) (HasPayload T.form T.OID (crl_extensions of))) }
{
    match crl.get_extension::<T>(alloc) {
        Ok(Some((_, value))) => Ok(Some(value)),
        Ok(None) => Ok(None),
        Err(e) => match e.kind() {
            ErrorKind::Memory => Err(AllocError),
            _ => Ok(None),
        },
    }
}
