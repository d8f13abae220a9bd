//! What is trusted.

ghost use Rattle.std.specs.Prelude.{◌≡◌, ◌↔◌, [], IsTrue, MatchResult, Some};
ghost use Rattle.x509_check.specs.ExtensionRefs.{extensions_left};
ghost use Rattle.x509_der.specs.Form.{Spells};
ghost use Rattle.x509_der.specs.declared.error.ErrorKind.{ErrorKind};
ghost use Rattle.x509_ext.specs.BasicConstraints.{basic_constraints};
ghost use Rattle.x509_ext.specs.Identifiers.{id_ce};
ghost use Rattle.x509_path.specs.Certificates as certificates;
ghost use Rattle.x509_path.specs.Lent.{Lends};
ghost use Rattle.x509_path_steps.specs.Inputs.{SpellsOption};
ghost use Rattle.x509_path_steps.specs.Trusts as trusts;

use crate::limits::{NO_FLAGS, flags_said, length_of};
use std::alloc::Global;
use x509_check::{CertificateRef, Check, ExtensionRefs};
use x509_der::{AssociatedOid, Decode, Error, ErrorKind};
use x509_ext::pkix::{
    BasicConstraints, CertificatePolicies, InhibitAnyPolicy, NameConstraints, PolicyConstraints,
};
use x509_path::AnchorRef;
use x509_policy::AnchorFlags;

/// What is trusted, lent: a name and a public key, and for which paths (RFC 5280 6.1.1 (d), RFC 5937 2).
#[derive(Clone, Copy, Debug)]
pub struct Trusted<'a> {
    /// The name and the public key, each as its element.
    pub anchor: AnchorRef<'a>,

    /// The names that certificates below may have, as the encoding of a NameConstraints; any where absent.
    pub name_constraints: Option<&'a [u8]>,

    /// How many certificates that aren't self-issued may stand between it and the last one; any number where absent.
    pub max_path_length: Option<u32>,

    /// The policies under which paths below may be valid, as the encoding of a CertificatePolicies; any where absent.
    pub policies: Option<&'a [u8]>,

    /// Whether policies may not be mapped, have to be named, and any-policy counts for nothing.
    pub policy_flags: AnchorFlags,
}

/// The encoding of a name without RDNs.
const EMPTY_NAME: &[u8] = &[0x30, 0x00];

/// Whether the subject of the certificate is empty.
fn has_no_name(certificate: &CertificateRef<'_>) -> bool
    ensures { (c : certificates.Certificate) → Lends certificate.now.bytes.now c → IsTrue result ↔ (c.tbs_certificate.subject ≡ []) }
{
    certificate.subject() == EMPTY_NAME
}

/// The octets, where they are those of a value.
fn checked<T: Check>(octets: &[u8]) -> Result<Option<&[u8]>, Error>
    requires { (e : ErrorKind) → T.refuses e → ⊥ }
    ensures { MatchResult result (λ lent. (value : T) × Spells T.form value octets.now × SpellsOption (λ o. o.now) T.form lent (Some value))
        (λ e. trusts.IsRefused T.form (λ kind. ⊥) octets.now e.kind) }
{
    match T::check(octets) {
        Ok(()) => Ok(Some(octets)),
        Err(e) => Err(e),
    }
}

/// The octets of the one extension of the type, if there is one.
fn lent_value<'a, T: AssociatedOid + Check>(
    extensions: &ExtensionRefs<'a>,
) -> Result<Option<&'a [u8]>, Error>
    requires { (e : ErrorKind) → T.refuses e → ⊥ }
    ensures { MatchResult result (λ lent. trusts.LendsOwn T.form T.OID (extensions_left extensions.now) lent)
        (λ e. trusts.RefusesValue T.form T.OID (extensions_left extensions.now) e.kind) }
{
    match extensions.find_extension(T::OID) {
        Ok(Some(extension)) => checked::<T>(extension.extn_value),
        Ok(None) => Ok(None),
        Err(e) => Err(e),
    }
}

/// The path length of the BasicConstraints, if there is one.
fn own_path_len(alloc: Global, extensions: &ExtensionRefs<'_>) -> Result<Option<u32>, Error>
    ensures { MatchResult result (λ limit. trusts.HasLimit (extensions_left extensions.now) limit)
        (λ e. trusts.RefusesValue basic_constraints (id_ce 19) (extensions_left extensions.now) e.kind) }
{
    match extensions.get_extension::<BasicConstraints>(alloc) {
        Ok(Some((_, constraints))) => Ok(length_of(&constraints)),
        Ok(None) => Ok(None),
        Err(e) => Err(e),
    }
}

/// The value of the one extension of the type, if there is one. The type is one that takes no memory.
fn own_value<T: AssociatedOid + Decode>(
    alloc: Global,
    extensions: &ExtensionRefs<'_>,
) -> Result<Option<T>, Error>
    requires memory { T.wants_memory → ⊥ }
    requires refusals { (e : ErrorKind) → T.refuses e → ⊥ }
    ensures { MatchResult result (λ found. trusts.IsValueOf T.form T.OID (extensions_left extensions.now) found)
        (λ e. trusts.RefusesValue T.form T.OID (extensions_left extensions.now) e.kind) }
{
    match extensions.get_extension::<T>(alloc) {
        Ok(Some((_, value))) => Ok(Some(value)),
        Ok(None) => Ok(None),
        Err(e) => Err(e),
    }
}

/// The flags about policies that the extensions set.
fn own_flags(alloc: Global, extensions: &ExtensionRefs<'_>) -> Result<AnchorFlags, Error>
    ensures { MatchResult result (λ flags. trusts.AreFlags (extensions_left extensions.now) flags)
        (λ e. trusts.RefusesFlags (extensions_left extensions.now) e.kind) }
{
    let constraints = own_value::<PolicyConstraints>(alloc, extensions)?;
    let inhibit = own_value::<InhibitAnyPolicy>(alloc, extensions)?;
    Ok(flags_said(constraints, inhibit))
}

impl<'a> Trusted<'a> {
    ghost use Rattle.std.specs.Prelude.{◌≡◌, MatchResult, None, false};
    ghost use Rattle.x509_path.specs.Certificates as certificates;
    ghost use Rattle.x509_path.specs.Lent.{Lends};
    ghost use Rattle.x509_path_steps.specs.Inputs.{LendsTrust, Trust};
    ghost use Rattle.x509_path_steps.specs.Trusts.{IsTrustOf, RefusesSigned};

    /// A name and a key, for all paths.
    pub fn new(anchor: AnchorRef<'a>) -> Trusted<'a>
        ensures anchor { result.anchor ≡ anchor.entry }
        ensures constraints { result.name_constraints ≡ None }
        ensures length { result.max_path_length ≡ None }
        ensures policies { result.policies ≡ None }
        ensures flags { result.policy_flags ≡ record { inhibit_policy_mapping = false; require_explicit_policy = false; inhibit_any_policy = false } }
    {
        Trusted {
            anchor,
            name_constraints: None,
            max_path_length: None,
            policies: None,
            policy_flags: NO_FLAGS,
        }
    }

    /// What a certificate gives that is trusted (RFC 5937 2, 3.2): its subject and its public key, the constraints of its
    /// NameConstraints, the path length of its BasicConstraints, the policies of its CertificatePolicies, and the flags about
    /// these that its PolicyConstraints and its InhibitAnyPolicy set, whatever the numbers in them. The caller trusts it:
    /// nothing else of it is checked. It takes no memory.
    ///
    /// # Errors
    ///
    /// `Failed` exactly where the subject is empty (RFC 5937 3.2). Else the error of the first of the five extensions that
    /// gives no value, in the order NameConstraints, BasicConstraints, CertificatePolicies, PolicyConstraints,
    /// InhibitAnyPolicy: `Failed` where it is repeated, and where it can't be decoded the error of that.
    pub fn from_certificate(
        alloc: Global,
        certificate: &CertificateRef<'a>,
    ) -> Result<Trusted<'a>, Error>
        ensures { (c : certificates.Certificate) → Lends certificate.now.bytes.now c → MatchResult result
            (λ trusted. (trust : Trust) × IsTrustOf c.tbs_certificate trust × LendsTrust trusted trust)
            (λ e. ((trust : Trust) → IsTrustOf c.tbs_certificate trust → ⊥) × RefusesSigned c.tbs_certificate e.kind) }
    {
        if has_no_name(certificate) {
            return Err(ErrorKind::Failed.into());
        }
        let extensions = certificate.extensions();
        Ok(Trusted {
            anchor: AnchorRef::from_certificate(certificate),
            name_constraints: lent_value::<NameConstraints>(&extensions)?,
            max_path_length: own_path_len(alloc, &extensions)?,
            policies: lent_value::<CertificatePolicies>(&extensions)?,
            policy_flags: own_flags(alloc, &extensions)?,
        })
    }
}
