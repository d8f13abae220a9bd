//! What trust anchors say of the paths below them.

ghost use Rattle.std.specs.Int.RustNames.{bit_and};
ghost use Rattle.std.specs.Prelude.{◌≡◌, ◌==◌, ◌⊎◌, MatchResult};
ghost use Rattle.x509_der.specs.declared.error.ErrorKind.{ErrorKind};
ghost use Rattle.x509_der.specs.declared.error.ErrorKind.TheVariants as errors;
ghost use Rattle.x509_ext.specs.BasicConstraints.{basic_constraints};
ghost use Rattle.x509_ext.specs.Identifiers.{id_ce};
ghost use Rattle.x509_ext.specs.LookUp.{members};
ghost use Rattle.x509_path_steps.specs.Trusts as trusts;
ghost use Rattle.x509_path_steps.specs.Trusts.{AreFlags, AreLimits, AreOwnLimits, HasLimit, IsValueOf, RefusesFlags, RefusesLimits, RefusesOwnLimits, RefusesValue};

use crate::policies::{explicit_policy, mapping_inhibit};
use bitflags::Flags;
use std::alloc::Global;
use x509_cert::Certificate;
use x509_cert::anchor::CertPolicyFlags;
use x509_cert::certificate::TbsCertificate;
use x509_der::{AssociatedOid, Decode, Error};
use x509_ext::pkix::{
    BasicConstraints, CertificatePolicies, InhibitAnyPolicy, NameConstraints, PolicyConstraints,
};
use x509_policy::AnchorFlags;

/// No flag.
pub(crate) const NO_FLAGS: AnchorFlags = AnchorFlags {
    inhibit_policy_mapping: false,
    require_explicit_policy: false,
    inhibit_any_policy: false,
};

/// For which paths something is trusted.
pub(crate) struct Limits {
    /// The names that certificates may have; any where absent.
    pub(crate) constraints: Option<NameConstraints>,

    /// The path length; any where absent.
    pub(crate) max_path_length: Option<u32>,

    /// The policies; any where absent.
    pub(crate) policies: Option<CertificatePolicies>,

    /// The flags about policies.
    pub(crate) flags: AnchorFlags,
}

impl Drop for Limits {
    fn drop(self) {
        let Limits {
            constraints: _,
            max_path_length: _,
            policies: _,
            flags: _,
        } = self;
    }
}

/// The path length, if there is one.
pub(crate) fn length_of(constraints: &BasicConstraints) -> Option<u32>
    ensures { result ≡ constraints.now.path_len_constraint }
{
    match constraints.path_len_constraint {
        Some(path_len) => Some(u32::from(path_len)),
        None => None,
    }
}

/// The flags that these extensions set, where they are there. A number in them says after how many certificates; what is
/// trusted has flags alone.
pub(crate) fn flags_said(
    constraints: Option<PolicyConstraints>,
    inhibit: Option<InhibitAnyPolicy>,
) -> AnchorFlags
    ensures { result ≡ trusts.flags_said constraints inhibit }
{
    AnchorFlags {
        inhibit_policy_mapping: mapping_inhibit(constraints).is_some(),
        require_explicit_policy: explicit_policy(constraints).is_some(),
        inhibit_any_policy: inhibit.is_some(),
    }
}

/// Whether a set of flags has all of another one.
fn has(flags: CertPolicyFlags, other: CertPolicyFlags) -> bool
    ensures { result ≡ (bit_and flags.0 other.0 == other.0) }
{
    flags.contains(other)
}

/// The flags of the controls, or else those.
pub(crate) fn flags_or(set: Option<CertPolicyFlags>, flags: AnchorFlags) -> AnchorFlags
    ensures { result ≡ trusts.flags_or set flags }
{
    let Some(set) = set else {
        return flags;
    };
    AnchorFlags {
        inhibit_policy_mapping: has(set, CertPolicyFlags::INHIBIT_POLICY_MAPPING),
        require_explicit_policy: has(set, CertPolicyFlags::REQUIRE_EXPLICIT_POLICY),
        inhibit_any_policy: has(set, CertPolicyFlags::INHIBIT_ANY_POLICY),
    }
}

/// The value of the one extension of the type, if there is one. The type has no refusals of its own.
fn own_value<T: AssociatedOid + Decode>(
    alloc: Global,
    signed: &TbsCertificate,
) -> Result<Option<T>, Error>
    requires { (e : ErrorKind) → T.refuses e → ⊥ }
    ensures { MatchResult result (λ found. IsValueOf T.form T.OID (members signed.now.extensions) found)
        (λ e. ((e.kind ≡ errors.Memory) × T.wants_memory) ⊎ RefusesValue T.form T.OID (members signed.now.extensions) e.kind) }
{
    match signed.get_extension::<T>(alloc) {
        Ok(Some((_, value))) => Ok(Some(value)),
        Ok(None) => Ok(None),
        Err(e) => Err(e),
    }
}

/// The path length of the BasicConstraints, if there is one.
fn own_length(alloc: Global, signed: &TbsCertificate) -> Result<Option<u32>, Error>
    ensures { MatchResult result (λ limit. HasLimit (members signed.now.extensions) limit)
        (λ e. RefusesValue basic_constraints (id_ce 19) (members signed.now.extensions) e.kind) }
{
    match signed.get_extension::<BasicConstraints>(alloc) {
        Ok(Some((_, constraints))) => Ok(length_of(&constraints)),
        Ok(None) => Ok(None),
        Err(e) => Err(e),
    }
}

/// The flags about policies that the extensions set.
fn own_flags(alloc: Global, signed: &TbsCertificate) -> Result<AnchorFlags, Error>
    ensures { MatchResult result (λ flags. AreFlags (members signed.now.extensions) flags) (λ e. RefusesFlags (members signed.now.extensions) e.kind) }
{
    let constraints = own_value::<PolicyConstraints>(alloc, signed)?;
    let inhibit = own_value::<InhibitAnyPolicy>(alloc, signed)?;
    Ok(flags_said(constraints, inhibit))
}

/// What the extensions of the signed part say.
pub(crate) fn limits_of(alloc: Global, signed: &TbsCertificate) -> Result<Limits, Error>
    ensures { MatchResult result (λ limits. AreLimits (members signed.now.extensions) limits)
        (λ e. (e.kind ≡ errors.Memory) ⊎ RefusesLimits (members signed.now.extensions) e.kind) }
{
    let constraints = own_value::<NameConstraints>(alloc, signed)?;
    let max_path_length = own_length(alloc, signed)?;
    let policies = own_value::<CertificatePolicies>(alloc, signed)?;
    let flags = own_flags(alloc, signed)?;
    Ok(Limits {
        constraints,
        max_path_length,
        policies,
        flags,
    })
}

/// What the extensions of the certificate in the description of an anchor say; nothing where there is none.
pub(crate) fn own_limits(alloc: Global, certificate: &Option<Certificate>) -> Result<Limits, Error>
    ensures { MatchResult result (λ limits. AreOwnLimits certificate.now limits)
        (λ e. (e.kind ≡ errors.Memory) ⊎ RefusesOwnLimits certificate.now e.kind) }
{
    match certificate {
        Some(certificate) => limits_of(alloc, certificate.tbs_certificate()),
        None => Ok(Limits {
            constraints: None,
            max_path_length: None,
            policies: None,
            flags: NO_FLAGS,
        }),
    }
}
