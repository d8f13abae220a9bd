//! What is trusted, owned.

ghost use Rattle.std.specs.List.{All};
ghost use Rattle.std.specs.Prelude.{◌≡◌, ◌⊎◌, ◌↔◌, IsTrue, MatchResult, option_map};
ghost use Rattle.x509_der.specs.Form.{Spells};
ghost use Rattle.x509_der.specs.Writing.{plain};
ghost use Rattle.x509_der.specs.declared.error.ErrorKind.TheVariants as errors;
ghost use Rattle.x509_ext.specs.Identifiers.{id_ce};
ghost use Rattle.x509_ext.specs.LookUp.{members};
ghost use Rattle.x509_ext.specs.SubjectKeyIdentifier.{subject_key_identifier};
ghost use Rattle.x509_path_steps.specs.Inputs.{SpellsOption, Trust};
ghost use Rattle.x509_path_steps.specs.Trusts.{HasItsCertificate, HasKeyId, HoldsTrust, IsCertificateOf, IsOverlong, IsTrustOf, IsTrustOfInfo, RefusesEncoding, RefusesInfo, RefusesItsCertificate, LimitsPaths, MayBeLeft, RefusesOption, RefusesSigned, RefusesTrust, RefusesValue, or_else};

use crate::limits::{flags_or, limits_of, own_limits};
use crate::trusted::Trusted;
use std::alloc::Global;
use x509_base::SubjectPublicKeyInfo;
use x509_base::laws::equality_of_keys_is_exact;
use x509_cert::anchor::{CertPathControls, TrustAnchorChoice, TrustAnchorInfo};
use x509_cert::certificate::TbsCertificate;
use x509_der::{AssociatedOid, Decode, Encode, Error, ErrorKind, ObjectIdentifier, Spelled};
use x509_ext::pkix::{
    BasicConstraints, CertificatePolicies, InhibitAnyPolicy, NameConstraints, PolicyConstraints,
    SubjectKeyIdentifier,
};
use x509_ext::{Extension, Extensions};
use x509_name::laws::equal_names_are_one_value;
use x509_name::name::Name;
use x509_path::AnchorRef;
use x509_policy::AnchorFlags;
use x509_prim::OctetString;

/// What is trusted, owned: that of a trust anchor (RFC 5914), of which not every part can be lent.
#[derive(Debug)]
pub struct TrustedBuf {
    name: Vec<u8>,
    key: Vec<u8>,
    name_constraints: Option<Vec<u8>>,
    max_path_length: Option<u32>,
    policies: Option<Vec<u8>>,
    policy_flags: AnchorFlags,
}

impl Drop for TrustedBuf {
    fn drop(self) {
        let TrustedBuf {
            name: _,
            key: _,
            name_constraints: _,
            max_path_length: _,
            policies: _,
            policy_flags: _,
        } = self;
    }
}

/// Whether the key identifier of the signed part is that one, if it has one.
fn has_key_id(alloc: Global, signed: &TbsCertificate, key_id: &OctetString) -> Result<bool, Error>
    ensures { MatchResult result (λ same. IsTrue same ↔ HasKeyId (members signed.now.extensions) key_id.now)
        (λ e. (e.kind ≡ errors.Memory) ⊎ RefusesValue subject_key_identifier (id_ce 14) (members signed.now.extensions) e.kind) }
{
    match signed.get_extension::<SubjectKeyIdentifier>(alloc) {
        Ok(Some((_, found))) => Ok(found.0 == *key_id),
        Ok(None) => Ok(true),
        Err(e) => Err(e),
    }
}

/// Whether the signed part has that subject and that key.
fn has_name_and_key(signed: &TbsCertificate, name: &Name, key: &SubjectPublicKeyInfo) -> bool
    ensures { IsTrue result ↔ ((signed.now.subject ≡ name.now) × (signed.now.subject_public_key_info ≡ key.now)) }
{
    equal_names_are_one_value();
    equality_of_keys_is_exact();
    *signed.subject() == *name && *signed.subject_public_key_info() == *key
}

/// Whether the signed part is that of a certificate of the anchor that is described, under that name.
fn is_certificate_of(
    alloc: Global,
    info: &TrustAnchorInfo,
    ta_name: &Name,
    signed: &TbsCertificate,
) -> Result<bool, Error>
    ensures { MatchResult result (λ same. IsTrue same ↔ IsCertificateOf info.now ta_name.now signed.now)
        (λ e. (e.kind ≡ errors.Memory) ⊎ RefusesValue subject_key_identifier (id_ce 14) (members signed.now.extensions) e.kind) }
{
    if !has_name_and_key(signed, ta_name, &info.pub_key) {
        return Ok(false);
    }
    has_key_id(alloc, signed, &info.key_id)
}

/// Whether the certificate in the description, if there is one, is of the anchor that is described.
fn has_its_certificate(
    alloc: Global,
    info: &TrustAnchorInfo,
    controls: &CertPathControls,
) -> Result<bool, Error>
    ensures { MatchResult result (λ same. IsTrue same ↔ HasItsCertificate info.now controls.now controls.now.certificate)
        (λ e. (e.kind ≡ errors.Memory) ⊎ RefusesItsCertificate info.now controls.now controls.now.certificate e.kind) }
{
    match &controls.certificate {
        Some(certificate) => {
            is_certificate_of(
                alloc,
                info,
                &controls.ta_name,
                certificate.tbs_certificate(),
            )
        }
        None => Ok(true),
    }
}

/// The encoding of the value. All values of the type have one.
pub(crate) fn encoded<T: Encode + Spelled>(alloc: Global, value: &T) -> Result<Vec<u8>, Error>
    requires plain { T.writing ≡ plain }
    requires good { (v : T) → T.premise v }
    ensures { MatchResult result (λ octets. Spells T.form value.now octets.items) (λ e. RefusesEncoding T.form value.now e.kind) }
{
    value.has_spelling();
    value.to_der(alloc)
}

/// The encoding of the value, if there is one.
fn encoded_option<T: Encode + Spelled>(
    alloc: Global,
    value: &Option<T>,
) -> Result<Option<Vec<u8>>, Error>
    requires plain { T.writing ≡ plain }
    requires good { (v : T) → T.premise v }
    ensures { MatchResult result (λ octets. SpellsOption (λ o. o) T.form (option_map (λ o. o.items) octets) value.now)
        (λ e. RefusesOption T.form value.now e.kind) }
{
    let Some(value) = value else {
        return Ok(None);
    };
    let octets = encoded(alloc, value)?;
    Ok(Some(octets))
}

/// What has that name and that key, for the paths that are limited so.
fn held(
    alloc: Global,
    name: &Name,
    key: &SubjectPublicKeyInfo,
    constraints: &Option<NameConstraints>,
    max_path_length: Option<u32>,
    policies: &Option<CertificatePolicies>,
    policy_flags: AnchorFlags,
) -> Result<TrustedBuf, Error>
    ensures { (trust : Trust) → trust ≡ record {
      anchor = record { name = name.now; key = key.now };
      constraints = constraints.now;
      max_path_length = max_path_length;
      policies = policies.now;
      flags = policy_flags;
    }
        → MatchResult result (λ trusted. HoldsTrust trusted trust) (λ e. (e.kind ≡ errors.Memory) ⊎ ((e.kind ≡ errors.Overlength) × IsOverlong trust)) }
{
    Ok(TrustedBuf {
        name: encoded(alloc, name)?,
        key: encoded(alloc, key)?,
        name_constraints: encoded_option(alloc, constraints)?,
        max_path_length,
        policies: encoded_option(alloc, policies)?,
        policy_flags,
    })
}

/// What the signed part of a certificate gives.
fn of_signed(alloc: Global, signed: &TbsCertificate) -> Result<TrustedBuf, Error>
    ensures { MatchResult result (λ trusted. (trust : Trust) × IsTrustOf signed.now trust × HoldsTrust trusted trust)
        (λ e. RefusesTrust (IsTrustOf signed.now) (RefusesSigned signed.now) e.kind) }
{
    if signed.subject().is_empty() {
        return Err(ErrorKind::Failed.into());
    }
    let limits = limits_of(alloc, signed)?;
    held(
        alloc,
        signed.subject(),
        signed.subject_public_key_info(),
        &limits.constraints,
        limits.max_path_length,
        &limits.policies,
        limits.flags,
    )
}

/// The value of the controls, or else that one.
fn value_or<'a, T>(value: &'a Option<T>, other: &'a Option<T>) -> &'a Option<T>
    ensures { result.now ≡ or_else value.now other.now }
{
    if value.is_some() { value } else { other }
}

/// Whether the OID is that of an extension that limits paths.
fn limits_paths(oid: ObjectIdentifier) -> bool
    ensures { IsTrue result ↔ LimitsPaths oid }
{
    oid == BasicConstraints::OID
        || oid == NameConstraints::OID
        || oid == CertificatePolicies::OID
        || oid == PolicyConstraints::OID
        || oid == InhibitAnyPolicy::OID
}

/// Whether the extension is neither critical nor one that limits paths.
fn may_be_left(extension: &Extension) -> bool
    ensures { IsTrue result ↔ MayBeLeft extension.now }
{
    !extension.critical && !limits_paths(extension.extn_id)
}

/// Whether each of the extensions is one that may be left.
fn may_all_be_left(extensions: &[Extension]) -> bool
    ensures { IsTrue result ↔ All (λ e. MayBeLeft e) extensions.now }
{
    for extension in extensions {
        if !may_be_left(extension) {
            return false;
        }
    }
    true
}

/// Whether each of the extensions, if there are any, is one that may be left.
fn may_others_be_left(extensions: &Option<Extensions>) -> bool
    ensures { IsTrue result ↔ All (λ e. MayBeLeft e) (members extensions.now) }
{
    match extensions {
        Some(extensions) => may_all_be_left(extensions.as_slice()),
        None => true,
    }
}

/// What a description gives.
fn of_info(alloc: Global, info: &TrustAnchorInfo) -> Result<TrustedBuf, Error>
    ensures { MatchResult result (λ trusted. (trust : Trust) × IsTrustOfInfo info.now trust × HoldsTrust trusted trust)
        (λ e. RefusesTrust (IsTrustOfInfo info.now) (RefusesInfo info.now) e.kind) }
{
    let Some(controls) = &info.cert_path else {
        return Err(ErrorKind::Failed.into());
    };
    if controls.ta_name.is_empty() {
        return Err(ErrorKind::Failed.into());
    }
    if !may_others_be_left(&info.extensions) {
        return Err(ErrorKind::Failed.into());
    }
    if !has_its_certificate(alloc, info, controls)? {
        return Err(ErrorKind::Failed.into());
    }
    let own = own_limits(alloc, &controls.certificate)?;
    held(
        alloc,
        &controls.ta_name,
        &info.pub_key,
        value_or(&controls.name_constr, &own.constraints),
        *value_or(&controls.path_len_constraint, &own.max_path_length),
        value_or(&controls.policy_set, &own.policies),
        flags_or(controls.policy_flags, own.flags),
    )
}

impl TrustedBuf {
    ghost use Rattle.std.specs.Prelude.{◌≡◌, ◌⊎◌, MatchResult};
    ghost use Rattle.x509_base.specs.declared.profile.Rfc5280.{Rfc5280};
    ghost use Rattle.x509_cert.specs.TrustAnchorChoice.{rfc5280_trust_anchor_choice};
    ghost use Rattle.x509_cert.specs.declared.anchor.trust_anchor_choice.TrustAnchorChoice as choices;
    ghost use Rattle.x509_der.specs.Form.{Spells};
    ghost use Rattle.x509_der.specs.declared.error.ErrorKind.TheVariants as errors;
    ghost use Rattle.x509_path_steps.specs.Inputs.{LendsTrust, Trust};
    ghost use Rattle.x509_path_steps.specs.Trusts.{HoldsTrust, IsNoAnchor, IsTrustOfAnchor, IsUntrusted, RefusesAnchor, RefusesTrust};

    /// What a trust anchor gives that is trusted (RFC 5937 2, RFC 5914 2.5). Of a certificate, or of a TBSCertificate: what
    /// [`Trusted::from_certificate`] says. Of a description: its public key, and the name, the constraints, the path length,
    /// the policies and the flags about these of its `certPath`; in the place of each of these limits that is absent, what
    /// the extensions of its certificate give, if it has one. That certificate has to be of the anchor: its subject is the
    /// name, its public key the key, and its key identifier, if it has one, `keyId`; each is compared as a value, so that
    /// encodings are equal. The extensions of the description itself aren't followed.
    ///
    /// # Errors
    ///
    /// Where nothing is trusted: `Failed` where there is no name, or an empty one (RFC 5937 3.2, RFC 5914 2.5); where a
    /// description has an extension of its own that is critical, or a NameConstraints, BasicConstraints, CertificatePolicies,
    /// PolicyConstraints or InhibitAnyPolicy; where its certificate is of another name, key or key identifier; and where one
    /// of the extensions that are looked at is repeated; where one can't be decoded, the error of that. `Memory` when out of
    /// memory. Of an anchor that wasn't decoded `Overlength` where the name, the key, the constraints or the policies are longer
    /// than [`Length::MAX`](x509_der::Length::MAX).
    pub fn from_trust_anchor(alloc: Global, anchor: &TrustAnchorChoice) -> Result<TrustedBuf, Error>
        ensures { MatchResult result (λ trusted. (trust : Trust) × IsTrustOfAnchor anchor.now trust × HoldsTrust trusted trust)
            (λ e. RefusesTrust (IsTrustOfAnchor anchor.now) (RefusesAnchor anchor.now) e.kind) }
    {
        match anchor {
            TrustAnchorChoice::Certificate(certificate) => {
                of_signed(alloc, certificate.tbs_certificate())
            }
            TrustAnchorChoice::TbsCertificate(signed) => of_signed(alloc, signed),
            TrustAnchorChoice::TaInfo(info) => of_info(alloc, info),
        }
    }

    /// What the trust anchor gives of which the bytes are the encoding.
    ///
    /// # Errors
    ///
    /// Those of decoding a `TrustAnchorChoice`; else those of [`TrustedBuf::from_trust_anchor`] where nothing is trusted of
    /// the anchor. `Memory` when out of memory.
    pub fn from_der(alloc: Global, bytes: &[u8]) -> Result<TrustedBuf, Error>
        ensures { MatchResult result (λ trusted. (anchor : choices.TrustAnchorChoice Rfc5280)
            × (trust : Trust) × Spells rfc5280_trust_anchor_choice anchor bytes.now
            × IsTrustOfAnchor anchor trust × HoldsTrust trusted trust)
            (λ e. (e.kind ≡ errors.Memory) ⊎ (IsNoAnchor bytes.now e.kind ⊎ IsUntrusted bytes.now e.kind)) }
    {
        let anchor = TrustAnchorChoice::from_der(alloc, bytes)?;
        TrustedBuf::from_trust_anchor(alloc, &anchor)
    }

    /// What is trusted, borrowed from this value.
    pub fn as_trusted(&self) -> Trusted<'_>
        ensures { (trust : Trust) → HoldsTrust self.now trust → LendsTrust result trust }
    {
        Trusted {
            anchor: AnchorRef {
                name: self.name.as_slice(),
                key: self.key.as_slice(),
            },
            name_constraints: self.name_constraints.as_deref(),
            max_path_length: self.max_path_length,
            policies: self.policies.as_deref(),
            policy_flags: self.policy_flags,
        }
    }
}
