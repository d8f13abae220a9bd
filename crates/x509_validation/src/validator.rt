//! The checks of one certificate of a path that is validated.

ghost use Rattle.std.specs.Prelude.{◌≡◌, ◌↔◌, IfOk, IsTrue, List, Option, false};
ghost use Rattle.x509_path.specs.Certificates as certificates;
ghost use Rattle.x509_path.specs.Lent.{Lends, lent_extensions};
ghost use Rattle.x509_path_steps.specs.Steps.{AreConstraintsOf};
ghost use Rattle.x509_path_steps.specs.Validation.{HasUnusable};
ghost use Rattle.x509_path_steps.specs.declared.validation_fault.ValidationFault.TheVariants as faults;
ghost use Rattle.x509_path_steps.specs.declared.validation_fault.ValidationReason.TheVariants as reasons;

use crate::own::has_own_fault;
use crate::processed::lacks_usage;
use std::alloc::{AllocError, Global};
use x509_base::DateTime;
use x509_check::{CertificateRef, ExtensionRef};
use x509_constraints::is_usable;
use x509_ext::pkix::{BasicConstraints, NameConstraints, SubjectAltName};
use x509_name::name::Name;
use x509_path::AnchorRef;
use x509_path::extensions::{basic_constraints, lacks_key_cert_sign, lend_all, places};
use x509_path::lengths::is_over;
use x509_path::trust::{Trust, is_signed, known_value};
use x509_path_steps::above::{Above, filled_in};
use x509_path_steps::asked::{Asked, is_authority};
use x509_path_steps::common_names::allows_common_names;
use x509_path_steps::matching::{is_asked, is_self_issued, names_match};
use x509_path_steps::payloads::owned_payload;
use x509_path_steps::policies::{Said, said_of};
use x509_path_steps::purposes::{is_any_asked, is_none_left, purposes_behind};
use x509_path_steps::{ValidationFault, ValidationReason};

/// The reasons after `Decode`, in their order, those of policies apart.
const REASONS: [ValidationReason; 15] = [
    ValidationReason::Algorithm,
    ValidationReason::Issuer,
    ValidationReason::Moment,
    ValidationReason::Signature,
    ValidationReason::Version,
    ValidationReason::Repeated,
    ValidationReason::Extension,
    ValidationReason::Critical,
    ValidationReason::NotCa,
    ValidationReason::KeyUsage,
    ValidationReason::PathLen,
    ValidationReason::Usage,
    ValidationReason::Purpose,
    ValidationReason::Names,
    ValidationReason::Constraints,
];

/// Where a certificate stands in a path.
#[derive(Clone, Copy)]
pub(crate) struct Stand<'s, 'a> {
    /// The name and the key above it.
    pub(crate) above: Above<'a>,

    /// How many certificates that aren't self-issued may follow, where that is limited.
    pub(crate) max_path_length: Option<u32>,

    /// What is asked of it: names, purposes and uses.
    pub(crate) sets: &'s Asked<'a>,

    /// Whether it is the last.
    pub(crate) is_last: bool,
}

/// What a certificate lends to the checks.
#[derive(Clone, Copy)]
struct Parts<'s, 'a> {
    /// The certificate.
    certificate: &'s CertificateRef<'a>,

    /// Its extensions.
    extensions: &'s [ExtensionRef<'a>],

    /// Whether its subject matches its issuer.
    is_self_issued: bool,

    /// The value of its BasicConstraints, where another certificate follows.
    basic_constraints: Option<BasicConstraints>,

    /// The value of its NameConstraints, where another certificate follows.
    name_constraints: &'s Option<NameConstraints>,
}

/// What a certificate says of those below it.
#[derive(Drop)]
pub(crate) struct Limits<'a> {
    /// The value of its BasicConstraints.
    pub(crate) basic_constraints: Option<BasicConstraints>,

    /// The value of its NameConstraints.
    pub(crate) name_constraints: Option<NameConstraints>,

    /// The purposes that are left behind it, where one is asked for.
    pub(crate) purposes: Option<Vec<&'a [u8]>>,

    /// What it says of policies.
    pub(crate) policies: Said<'a>,
}

/// What the certificates of a path are checked with.
#[derive(Drop)]
pub(crate) struct Validator<'s, S> {
    /// Where memory is taken.
    pub(crate) alloc: Global,

    /// The verifier of signatures.
    pub(crate) signatures: &'s S,

    /// The time.
    pub(crate) moment: DateTime,
}

/// The value of the one NameConstraints that can be decoded, where another certificate follows.
fn name_constraints(
    alloc: Global,
    is_last: bool,
    extensions: &[ExtensionRef<'_>],
) -> Result<Option<NameConstraints>, AllocError>
    ensures { IfOk result (λ found. (c : certificates.Certificate) → lent_extensions extensions.now ≡ certificates.extensions_of c → is_last ≡ false
        → AreConstraintsOf c found) }
{
    if is_last {
        return Ok(None);
    }
    let found = owned_payload::<NameConstraints>(alloc, extensions)?;
    Ok(found)
}

/// Whether the constraints are there, and can't be used.
fn is_unusable(constraints: &Option<NameConstraints>) -> bool
    ensures { (c : certificates.Certificate) → AreConstraintsOf c constraints.now → IsTrue result
        ↔ HasUnusable c }
{
    match constraints {
        Some(constraints) => !is_usable(constraints),
        None => false,
    }
}

impl<S: Trust> Validator<'_, S> {
    ghost use Rattle.std.specs.Prelude.{◌≡◌, ◌↔◌, ◌⊎◌, ℕ, List, Ok, Err, IfOk, IsTrue, MatchResult, true, false};
    ghost use Rattle.x509_base.specs.declared.subject_public_key_info.SubjectPublicKeyInfo as keys;
    ghost use Rattle.x509_match.specs.Matching.{NamesMatch};
    ghost use Rattle.x509_path.specs.Certificates as certificates;
    ghost use Rattle.x509_path.specs.Lent.{Lends, LendsAnchor, lent_extensions};
    ghost use Rattle.x509_path.specs.declared.anchor.Anchor.{Anchor};
    ghost use Rattle.x509_path_steps.specs.Inputs.{Inputs};
    ghost use Rattle.x509_path_steps.specs.Steps.{HoldsKey};
    ghost use Rattle.x509_path_steps.specs.Validation.{AreCommonNamesAllowed, AreNamesAllowed, Breaks, HasOtherCommonNames, HasOtherNames, LackPurpose, asked_at};
    ghost use Rattle.x509_path_steps.specs.declared.validation_fault.ValidationReason.TheVariants as reasons;
    ghost use Rattle.x509_validation.specs.Judging.{IsOwn, JudgesAlone, JudgesParts, Knows, Stands, standing};

    /// Whether the issuer doesn't match the name above.
    fn is_of_another(
        &self,
        stand: &Stand<'_, '_>,
        certificate: &CertificateRef<'_>,
    ) -> Result<bool, AllocError>
        ensures { IfOk result (λ b. (c : certificates.Certificate) (above : Anchor) → Lends certificate.now.bytes.now c
            → LendsAnchor stand.now.above.anchor above → IsTrue b ↔ (NamesMatch c.tbs_certificate.issuer above.name → ⊥)) }
    {
        let is_same = names_match(self.alloc, certificate.issuer(), stand.above.anchor.name)?;
        Ok(!is_same)
    }

    /// Whether the verifier accepts the signature of the signed part, as it stands in the bytes, for the key above, as that is used.
    fn is_signed(
        &self,
        stand: &Stand<'_, '_>,
        certificate: &CertificateRef<'_>,
    ) -> Result<bool, AllocError>
        ensures { IfOk result (λ b. (c : certificates.Certificate) (above : Anchor) (key : keys.SubjectPublicKeyInfo) → Lends certificate.now.bytes.now c
            → LendsAnchor stand.now.above.anchor above → HoldsKey stand.now.above key
            → IsTrue b ↔ certificates.IsSigned (S.accepts self.now.signatures.now) key certificate.now.bytes.now c) }
    {
        let own = stand.above.anchor;
        let Some(parameters) = stand.above.inherited else {
            return is_signed(self.alloc, self.signatures, &Some(own), certificate);
        };
        let filled = match filled_in(self.alloc, own.key, parameters) {
            Ok(filled) => filled,
            Err(_) => return Err(AllocError),
        };
        let above = AnchorRef {
            name: own.name,
            key: filled.as_slice(),
        };
        is_signed(self.alloc, self.signatures, &Some(above), certificate)
    }

    /// Whether the names of the certificate are allowed.
    fn are_allowed(&self, stand: &Stand<'_, '_>, parts: &Parts<'_, '_>) -> Result<bool, AllocError>
        ensures { IfOk result (λ b. (inputs : Inputs) (above : Anchor) (before : List certificates.Certificate) (c : certificates.Certificate)
            → Stands inputs above before self.now.moment stand.now.above stand.now.max_path_length stand.now.sets.now
            → Knows c parts.now.certificate.now.bytes.now parts.now.extensions.now stand.now.is_last parts.now.is_self_issued
            parts.now.basic_constraints parts.now.name_constraints.now
            → IsTrue b ↔ AreNamesAllowed inputs before c) }
    {
        let subject = known_value::<Name>(self.alloc, parts.certificate.subject())?;
        let names = owned_payload::<SubjectAltName>(self.alloc, parts.extensions)?;
        let are_allowed = stand
            .sets
            .names
            .sets
            .allows_names(self.alloc, &subject, names.as_ref())?;
        Ok(are_allowed)
    }

    /// Whether the certificate is asked for its names, and they aren't allowed.
    fn has_other_names(
        &self,
        stand: &Stand<'_, '_>,
        parts: &Parts<'_, '_>,
    ) -> Result<bool, AllocError>
        ensures { IfOk result (λ b. (inputs : Inputs) (above : Anchor) (before : List certificates.Certificate) (c : certificates.Certificate)
            → Stands inputs above before self.now.moment stand.now.above stand.now.max_path_length stand.now.sets.now
            → Knows c parts.now.certificate.now.bytes.now parts.now.extensions.now stand.now.is_last parts.now.is_self_issued
            parts.now.basic_constraints parts.now.name_constraints.now
            → IsTrue b ↔ HasOtherNames inputs before stand.now.is_last c) }
    {
        if !stand.sets.names.is_any {
            return Ok(false);
        }
        if !is_asked(stand.is_last, parts.is_self_issued) {
            return Ok(false);
        }
        let are_allowed = self.are_allowed(stand, parts)?;
        Ok(!are_allowed)
    }

    /// Whether the names of servers in the certificate's common names are allowed.
    fn are_common_names_allowed(
        &self,
        stand: &Stand<'_, '_>,
        parts: &Parts<'_, '_>,
    ) -> Result<bool, AllocError>
        ensures { IfOk result (λ b. (inputs : Inputs) (above : Anchor) (before : List certificates.Certificate) (c : certificates.Certificate)
            → Stands inputs above before self.now.moment stand.now.above stand.now.max_path_length stand.now.sets.now
            → Knows c parts.now.certificate.now.bytes.now parts.now.extensions.now stand.now.is_last parts.now.is_self_issued
            parts.now.basic_constraints parts.now.name_constraints.now
            → IsTrue b ↔ AreCommonNamesAllowed inputs before c) }
    {
        let subject = known_value::<Name>(self.alloc, parts.certificate.subject())?;
        let names = owned_payload::<SubjectAltName>(self.alloc, parts.extensions)?;
        let are_allowed = allows_common_names(
            self.alloc,
            &stand.sets.names.sets,
            &subject,
            names.as_ref(),
        )?;
        Ok(are_allowed)
    }

    /// Whether the certificate is the last one, the caller asks for its common names, and they aren't allowed.
    fn has_other_common_names(
        &self,
        stand: &Stand<'_, '_>,
        parts: &Parts<'_, '_>,
    ) -> Result<bool, AllocError>
        ensures { IfOk result (λ b. (inputs : Inputs) (above : Anchor) (before : List certificates.Certificate) (c : certificates.Certificate)
            → Stands inputs above before self.now.moment stand.now.above stand.now.max_path_length stand.now.sets.now
            → Knows c parts.now.certificate.now.bytes.now parts.now.extensions.now stand.now.is_last parts.now.is_self_issued
            parts.now.basic_constraints parts.now.name_constraints.now
            → IsTrue b ↔ HasOtherCommonNames inputs before stand.now.is_last c) }
    {
        if !stand.sets.uses.constrain_common_names || !stand.is_last {
            return Ok(false);
        }
        if !stand.sets.names.is_any {
            return Ok(false);
        }
        let are_allowed = self.are_common_names_allowed(stand, parts)?;
        Ok(!are_allowed)
    }

    /// Whether a name of the certificate that is asked isn't allowed.
    fn breaks_names(&self, stand: &Stand<'_, '_>, parts: &Parts<'_, '_>) -> Result<bool, AllocError>
        ensures { IfOk result (λ b. (inputs : Inputs) (above : Anchor) (before : List certificates.Certificate) (n : ℕ) (c : certificates.Certificate)
            → Stands inputs above before self.now.moment stand.now.above stand.now.max_path_length stand.now.sets.now
            → Knows c parts.now.certificate.now.bytes.now parts.now.extensions.now stand.now.is_last parts.now.is_self_issued
            parts.now.basic_constraints parts.now.name_constraints.now
            → IsTrue b ↔ Breaks (S.accepts self.now.signatures.now) inputs (standing above before stand.now.is_last n) parts.now.certificate.now.bytes.now c
            reasons.Names) }
    {
        if self.has_other_names(stand, parts)? {
            return Ok(true);
        }
        let has_other = self.has_other_common_names(stand, parts)?;
        Ok(has_other)
    }

    /// Whether a purpose is asked for, and none is left behind the certificate with these extensions.
    fn lacks_purpose(
        &self,
        stand: &Stand<'_, '_>,
        extensions: &[ExtensionRef<'_>],
    ) -> Result<bool, AllocError>
        ensures { IfOk result (λ b. (inputs : Inputs) (above : Anchor) (before : List certificates.Certificate) (c : certificates.Certificate)
            → Stands inputs above before self.now.moment stand.now.above stand.now.max_path_length stand.now.sets.now
            → lent_extensions extensions.now ≡ certificates.extensions_of c
            → IsTrue b ↔ LackPurpose inputs.purposes (asked_at inputs.uses.is_chained stand.now.is_last before c)) }
    {
        let left = purposes_behind(self.alloc, stand.sets, stand.is_last, extensions)?;
        Ok(is_none_left(&left))
    }

    /// Whether the certificate has that fault, its policies apart.
    fn breaks(
        &self,
        stand: &Stand<'_, '_>,
        parts: &Parts<'_, '_>,
        reason: ValidationReason,
    ) -> Result<bool, AllocError>
        ensures { IfOk result (λ b. (inputs : Inputs) (above : Anchor) (before : List certificates.Certificate) (n : ℕ) (c : certificates.Certificate)
            → Stands inputs above before self.now.moment stand.now.above stand.now.max_path_length stand.now.sets.now
            → Knows c parts.now.certificate.now.bytes.now parts.now.extensions.now stand.now.is_last parts.now.is_self_issued
            parts.now.basic_constraints parts.now.name_constraints.now
            → IsOwn reason → IsTrue b
            ↔ Breaks (S.accepts self.now.signatures.now) inputs (standing above before stand.now.is_last n) parts.now.certificate.now.bytes.now c reason) }
    {
        let certificate = parts.certificate;
        let extensions = parts.extensions;
        match reason {
            ValidationReason::Issuer => self.is_of_another(stand, certificate),
            ValidationReason::Signature => Ok(!self.is_signed(stand, certificate)?),
            ValidationReason::NotCa => {
                let basic_constraints = parts.basic_constraints;
                Ok(!stand.is_last && !is_authority(stand.sets.uses, certificate, basic_constraints))
            }
            ValidationReason::KeyUsage => {
                Ok(!stand.is_last && lacks_key_cert_sign(self.alloc, extensions))
            }
            ValidationReason::PathLen => {
                Ok(!stand.is_last && is_over(stand.max_path_length, parts.is_self_issued))
            }
            ValidationReason::Usage => Ok(
                stand.is_last && lacks_usage(self.alloc, stand.sets.uses.key_usage, extensions),
            ),
            ValidationReason::Purpose => self.lacks_purpose(stand, extensions),
            ValidationReason::Names => self.breaks_names(stand, parts),
            ValidationReason::Constraints => {
                Ok(!stand.is_last && is_unusable(parts.name_constraints))
            }
            _ => {
                let asks_purpose = is_any_asked(&stand.sets.purposes);
                has_own_fault(
                    self.alloc,
                    certificate,
                    extensions,
                    self.moment,
                    asks_purpose,
                    reason,
                )
            }
        }
    }

    /// What a certificate says of those below it with which nothing is wrong, its policies apart; `index` is its place.
    fn judge_parts<'a>(
        &self,
        stand: &Stand<'_, 'a>,
        certificate: &CertificateRef<'a>,
        extensions: &[ExtensionRef<'a>],
        index: usize,
    ) -> Result<Limits<'a>, ValidationFault>
        ensures { (inputs : Inputs) (above : Anchor) (before : List certificates.Certificate) (n : ℕ) (c : certificates.Certificate)
            → Stands inputs above before self.now.moment stand.now.above stand.now.max_path_length stand.now.sets.now → Lends certificate.now.bytes.now c
            → lent_extensions extensions.now ≡ certificates.extensions_of c
            → JudgesParts (S.accepts self.now.signatures.now) inputs (standing above before stand.now.is_last n) certificate.now.bytes.now index c result }
    {
        let basic_constraints = basic_constraints(self.alloc, stand.is_last, extensions);
        let name_constraints = name_constraints(self.alloc, stand.is_last, extensions)?;
        let is_self_issued = is_self_issued(self.alloc, certificate)?;
        let parts = Parts {
            certificate,
            extensions,
            is_self_issued,
            basic_constraints,
            name_constraints: &name_constraints,
        };
        for reason in REASONS {
            if self.breaks(stand, &parts, reason)? {
                return Err(ValidationFault::At {
                    place: index,
                    reason,
                });
            }
        }
        let purposes = purposes_behind(self.alloc, stand.sets, stand.is_last, extensions)?;
        let policies = said_of(self.alloc, is_self_issued, extensions)?;
        Ok(Limits {
            basic_constraints,
            name_constraints,
            purposes,
            policies,
        })
    }

    /// The certificate of these bytes, where nothing is wrong with it, its policies apart, and what it says of those below it;
    /// `index` is its place.
    pub(crate) fn judge<'a>(
        &self,
        stand: &Stand<'_, 'a>,
        bytes: &'a [u8],
        index: usize,
    ) -> Result<(CertificateRef<'a>, Limits<'a>), ValidationFault>
        ensures { (inputs : Inputs) (above : Anchor) (before : List certificates.Certificate) (n : ℕ)
            → Stands inputs above before self.now.moment stand.now.above stand.now.max_path_length stand.now.sets.now → MatchResult result
            (λ judged. (c : certificates.Certificate) × Lends judged.0.bytes.now c
            × JudgesParts (S.accepts self.now.signatures.now) inputs (standing above before stand.now.is_last n) bytes.now index c (Ok judged.1))
            (λ e. JudgesAlone (S.accepts self.now.signatures.now) inputs (standing above before stand.now.is_last n) bytes.now index (Err e)) }
    {
        let certificate = match CertificateRef::from_der(bytes) {
            Ok(certificate) => certificate,
            Err(_) => return Err(unreadable(index)),
        };
        let mut few = places();
        let mut many = Vec::new(self.alloc);
        let extensions = lend_all(self.alloc, certificate.extensions(), &mut few, &mut many)?;
        match self.judge_parts(stand, &certificate, extensions, index) {
            Ok(limits) => Ok((certificate, limits)),
            Err(e) => Err(e),
        }
    }
}

/// The fault where the bytes are the encoding of no certificate.
fn unreadable(place: usize) -> ValidationFault
    ensures { result ≡ faults.At place reasons.Decode }
{
    ValidationFault::At {
        place,
        reason: ValidationReason::Decode,
    }
}
