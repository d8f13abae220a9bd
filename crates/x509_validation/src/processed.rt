//! The extensions that are looked at where a path is validated.

ghost use Rattle.std.specs.Prelude.{◌≡◌, ◌↔◌, IsTrue, true};
ghost use Rattle.std.specs.List.{All};
ghost use Rattle.x509_check.specs.ExtensionRefs.{lent_extension};
ghost use Rattle.x509_path.specs.Lent.{lent_extensions};
ghost use Rattle.x509_path_steps.specs.Validation.{AreProcessed, AreSpelled, IsAboutPolicies, IsDecodable, IsOfUse, IsPolicySpelled, IsProcessed, IsSpelled, IsUseSpelled, LacksUsage};

use bitflags::Flags;
use std::alloc::Global;
use x509_check::{Check, ExtensionRef};
use x509_der::AssociatedOid;
use x509_ext::pkix::{
    BasicConstraints, CertificatePolicies, ExtendedKeyUsage, InhibitAnyPolicy, KeyUsage,
    NameConstraints, PolicyConstraints, PolicyMappings, SubjectAltName,
};
use x509_path::extensions::payload;

/// Whether each critical extension is of a type that is processed here, where a purpose is asked for or isn't.
pub(crate) fn are_processed(asks_purpose: bool, extensions: &[ExtensionRef<'_>]) -> bool
    ensures { IsTrue result ↔ AreProcessed asks_purpose (lent_extensions extensions.now) }
{
    for extension in extensions {
        if extension.critical && !is_processed(asks_purpose, extension) {
            return false;
        }
    }
    true
}

/// Whether the extension is of a type that is processed here.
pub(crate) fn is_processed(asks_purpose: bool, extension: &ExtensionRef<'_>) -> bool
    ensures { IsTrue result ↔ IsProcessed asks_purpose (lent_extension extension.now) }
{
    is_of_use(asks_purpose, extension) || is_about_policies(extension)
}

/// Whether the extension has the OID of the type. The last octets are compared first, which mostly tells two OIDs apart.
#[inline(always)]
fn is_of<T: AssociatedOid>(extension: &ExtensionRef<'_>) -> bool
    ensures { IsTrue result ↔ (extension.now.extn_id ≡ T.OID) }
{
    extension.extn_id.as_bytes().last() == T::OID.as_bytes().last() && extension.extn_id == T::OID
}

/// Whether the extension says what the certificate is for, or which names are allowed.
fn is_of_use(asks_purpose: bool, extension: &ExtensionRef<'_>) -> bool
    ensures { IsTrue result ↔ IsOfUse asks_purpose (lent_extension extension.now) }
{
    is_of::<BasicConstraints>(extension)
        || is_of::<KeyUsage>(extension)
        || is_of::<SubjectAltName>(extension)
        || is_of::<NameConstraints>(extension)
        || asks_purpose && is_of::<ExtendedKeyUsage>(extension)
}

/// Whether the extension is about policies.
fn is_about_policies(extension: &ExtensionRef<'_>) -> bool
    ensures { IsTrue result ↔ IsAboutPolicies (lent_extension extension.now) }
{
    is_of::<CertificatePolicies>(extension)
        || is_of::<PolicyMappings>(extension)
        || is_of::<PolicyConstraints>(extension)
        || is_of::<InhibitAnyPolicy>(extension)
}

/// Whether there is a KeyUsage that can be decoded, without all bits of the other.
pub(crate) fn lacks_usage(alloc: Global, asked: KeyUsage, extensions: &[ExtensionRef<'_>]) -> bool
    ensures { IsTrue result ↔ LacksUsage asked (lent_extensions extensions.now) }
{
    match payload::<KeyUsage>(alloc, extensions) {
        Some(usage) => !usage.0.contains(asked.0),
        None => false,
    }
}

/// Whether the octets of the extension are an encoding of the type, if it has the OID of it.
fn is_spelled<T: AssociatedOid + Check>(extension: &ExtensionRef<'_>) -> bool
    ensures { IsTrue result ↔ IsSpelled T.form T.OID (lent_extension extension.now) }
{
    !is_of::<T>(extension) || T::check(extension.extn_value).is_ok()
}

/// Whether the extension can be decoded, if it says what the certificate is for, or which names are allowed.
fn is_use_spelled(extension: &ExtensionRef<'_>) -> bool
    ensures { IsTrue result ↔ IsUseSpelled (lent_extension extension.now) }
{
    is_spelled::<BasicConstraints>(extension)
        && is_spelled::<KeyUsage>(extension)
        && is_spelled::<ExtendedKeyUsage>(extension)
        && is_spelled::<SubjectAltName>(extension)
        && is_spelled::<NameConstraints>(extension)
}

/// Whether the extension can be decoded, if it is about policies.
fn is_policy_spelled(extension: &ExtensionRef<'_>) -> bool
    ensures { IsTrue result ↔ IsPolicySpelled (lent_extension extension.now) }
{
    is_spelled::<CertificatePolicies>(extension)
        && is_spelled::<PolicyMappings>(extension)
        && is_spelled::<PolicyConstraints>(extension)
        && is_spelled::<InhibitAnyPolicy>(extension)
}

/// Whether the extension can be decoded, if it is of a type that is looked at.
pub(crate) fn is_decodable(extension: &ExtensionRef<'_>) -> bool
    ensures { IsTrue result ↔ IsDecodable (lent_extension extension.now) }
{
    is_use_spelled(extension) && is_policy_spelled(extension)
}

/// Whether each extension of a type that is looked at can be decoded.
pub(crate) fn are_spelled(extensions: &[ExtensionRef<'_>]) -> bool
    ensures { IsTrue result ↔ AreSpelled (lent_extensions extensions.now) }
{
    for extension in extensions {
        if !is_decodable(extension) {
            return false;
        }
    }
    true
}
