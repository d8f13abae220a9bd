//! What is asked of a list of extensions.

ghost use Rattle.std.specs.Option.{option_copied};
ghost use Rattle.std.specs.Prelude.{◌≡◌, ◌&&◌, not, IfOk, IfErr};
ghost use Rattle.x509_der.specs.declared.error.ErrorKind.TheVariants.{Memory};
ghost use Rattle.x509_lint.specs.Words.{IsSpelled, IsValue, extensions_of, has, has_critical, has_uncritical, is_empty, is_of, passes};

use crate::passes;
use std::alloc::Global;
use x509_base::Raw;
use x509_cert::certificate::CertificateInner;
use x509_der::{AssociatedOid, Decode, Error, ErrorKind, SequenceOf};
use x509_ext::{Extension, Extensions, get_extension, members};

/// Whether a value is there and passes a test, as `passes!(usage, usage => usage.key_cert_sign())`.
#[macro_export]
macro_rules! passes {
    ($value:expr, $name:pat => $test:expr) => {
        match $value {
            Some($name) => $test,
            None => false,
        }
    };
}

/// The extensions of a certificate; none where the list is absent.
pub fn extensions_of(certificate: &CertificateInner<Raw>) -> &[Extension]
    ensures { result.now ≡ extensions_of certificate.now }
{
    members(certificate.tbs_certificate().extensions())
}

/// Whether the extension has the OID of the type.
pub(crate) fn is_of<T: AssociatedOid>(extension: &Extension) -> bool
    ensures { result ≡ is_of T.OID extension.now }
{
    extension.extn_id == T::OID
}

pub(crate) fn is_critical<T: AssociatedOid>(extension: &Extension) -> bool
    ensures { result ≡ (is_of T.OID extension.now && extension.now.critical) }
{
    is_of::<T>(extension) && extension.critical
}

pub(crate) fn is_uncritical<T: AssociatedOid>(extension: &Extension) -> bool
    ensures { result ≡ (is_of T.OID extension.now && not extension.now.critical) }
{
    is_of::<T>(extension) && !extension.critical
}

/// Whether some extension has the OID of the type.
pub fn has<T: AssociatedOid>(extensions: &[Extension]) -> bool
    ensures { result ≡ has T.OID extensions.now }
{
    let mut rest = extensions;
    while let [first, behind @ ..] = rest {
        if is_of::<T>(first) {
            return true;
        }
        rest = behind;
    }
    false
}

/// Whether some extension has the OID of the type, and is critical.
pub fn has_critical<T: AssociatedOid>(extensions: &[Extension]) -> bool
    ensures { result ≡ has_critical T.OID extensions.now }
{
    let mut rest = extensions;
    while let [first, behind @ ..] = rest {
        if is_critical::<T>(first) {
            return true;
        }
        rest = behind;
    }
    false
}

/// Whether some extension has the OID of the type, and isn't critical.
pub fn has_uncritical<T: AssociatedOid>(extensions: &[Extension]) -> bool
    ensures { result ≡ has_uncritical T.OID extensions.now }
{
    let mut rest = extensions;
    while let [first, behind @ ..] = rest {
        if is_uncritical::<T>(first) {
            return true;
        }
        rest = behind;
    }
    false
}

/// Whether the list is there, and has no member.
pub(crate) fn is_empty_sequence<T>(list: &Option<SequenceOf<T>>) -> bool
    ensures { result ≡ passes is_empty list.now }
{
    passes!(list, list => list.as_slice().is_empty())
}

/// Whether the list of extensions is there, and has none.
pub(crate) fn is_empty_list(list: Option<&Extensions>) -> bool
    ensures { result ≡ passes is_empty (option_copied list.entry) }
{
    passes!(list, list => list.as_slice().is_empty())
}

/// The value of the one extension of the type; `None` where there is none, there are several, or it can't be decoded.
///
/// # Errors
///
/// `Memory` when out of memory, and nothing else.
pub fn payload<T: AssociatedOid + Decode + Drop>(
    alloc: Global,
    extensions: &[Extension],
) -> Result<Option<T>, Error>
    ensures ok { IfOk result (IsValue T.form T.OID extensions.now) }
    ensures err { IfErr result (λ e. e.kind ≡ Memory) }
{
    match get_extension::<T>(alloc, extensions) {
        Ok(Some((_, value))) => Ok(Some(value)),
        Ok(None) => Ok(None),
        Err(e) => match e.kind() {
            ErrorKind::Memory => Err(e),
            _ => Ok(None),
        },
    }
}

/// The value whose encoding the octets are; `None` where they are that of none.
pub(crate) fn spelled<T: Decode + Drop>(alloc: Global, octets: &[u8]) -> Result<Option<T>, Error>
    ensures ok { IfOk result (IsSpelled T.form octets.now) }
    ensures err { IfErr result (λ e. e.kind ≡ Memory) }
{
    match T::from_der(alloc, octets) {
        Ok(value) => Ok(Some(value)),
        Err(e) => match e.kind() {
            ErrorKind::Memory => Err(e),
            _ => Ok(None),
        },
    }
}
