//! What holds of all paths that are validated. Each law is a function with an empty body, whose contract is the law.

ghost use Rattle.std.specs.Prelude.{◌≡◌, ◌⊎◌, ◌↔◌, ◌++◌, ◌∷◌, [], IsOk, List, ℕ, Result, Err, true};
ghost use Rattle.x509_cert.specs.Certificate.{rfc5280_certificate};
ghost use Rattle.x509_der.specs.Form.{Spells};
ghost use Rattle.x509_path.specs.Certificates.{Accepting, Certificate, accept_all};
ghost use Rattle.x509_path_steps.specs.Inputs.{Inputs, LendsInputs};
ghost use Rattle.x509_path_steps.specs.Validation as validation;
ghost use Rattle.x509_path_steps.specs.Validation.{AreUnusable, PathIsValid};
ghost use Rattle.x509_path_steps.specs.declared.settings.PathSettings.{PathSettings};
ghost use Rattle.x509_path_steps.specs.declared.trusted.Trusted.{Trusted};
ghost use Rattle.x509_path_steps.specs.declared.validated.Validated.{Validated};
ghost use Rattle.x509_path_steps.specs.declared.validation_fault.ValidationFault.{ValidationFault};
ghost use Rattle.x509_path_steps.specs.declared.validation_fault.ValidationFault.TheVariants as validation_faults;
ghost use Rattle.x509_path_steps.specs.declared.validation_fault.ValidationReason.{ValidationReason};
ghost use Rattle.x509_path_steps.specs.declared.validation_fault.ValidationReason.TheVariants as validation_reasons;
ghost use Rattle.x509_policy.specs.declared.anchor.AnchorFlags.{AnchorFlags};
ghost use Rattle.x509_validation.specs.Last.{BreaksAlone, asked_alone};

use crate::{AnchorFlags, ValidationFault, ValidationReason};
use x509_base::Rfc5280;
use x509_cert::laws::signed_bytes_spell_the_signed_part;

/// Apart from out of memory there is one answer to a path that is validated: that it is valid, exactly where it is, and
/// else the first fault of the lowest place that has one.
pub fn one_validation()
    ensures valid { (accepts : Accepting) (inputs : Inputs) (path : List (List ℕ)) (a : Result Validated ValidationFault)
        → PathIsValid accepts inputs path → validation.Answers accepts inputs path a → IsOk a ⊎ (a ≡ Err validation_faults.Memory) }
    ensures fault { (accepts : Accepting) (inputs : Inputs) (path : List (List ℕ)) (place : ℕ) (reason : ValidationReason)
        (a : Result Validated ValidationFault) → (AreUnusable inputs → ⊥) → validation.IsFirstFault accepts inputs path place reason
        → validation.Answers accepts inputs path a → (a ≡ Err (validation_faults.At place reason)) ⊎ (a ≡ Err validation_faults.Memory) }
{}

/// A path is valid exactly where it is with all bits taken for signatures ([`AnySignature`](x509_path::AnySignature)), and the
/// signature of each of its certificates is accepted, for the key above it. So signatures may be verified apart from the
/// rest, when a path was validated.
pub fn signatures_of_validated_paths_may_be_verified_apart()
    ensures { (accepts : Accepting) (inputs : Inputs) (path : List (List ℕ)) → PathIsValid accepts inputs path
        ↔ (PathIsValid accept_all inputs path × ((place : ℕ) → validation.HasFault accepts inputs path place validation_reasons.Signature → ⊥)) }
{
    signed_bytes_spell_the_signed_part::<Rfc5280>();
}

/// `==` of faults of validation, of their reasons and of the flags of anchors holds exactly of equal values.
#[tactic(auto, using(crate::specs::Equality::exact_fault, crate::specs::Equality::exact_reason, crate::specs::Equality::exact_flags))]
pub fn equality_of_faults_and_flags_is_exact()
    ensures faults { (a b : ValidationFault) → (⟦<ValidationFault as PartialEq>⟧.eq a b ≡ true) ↔ (a ≡ b) }
    ensures reasons { (a b : ValidationReason) → (⟦<ValidationReason as PartialEq>⟧.eq a b ≡ true) ↔ (a ≡ b) }
    ensures flags { (a b : AnchorFlags) → (⟦<AnchorFlags as PartialEq>⟧.eq a b ≡ true) ↔ (a ≡ b) }
{}

/// What is wrong with a certificate as the last one of a path, whatever stands above it ([`last_fault`](crate::last_fault)): no path
/// that ends in it is valid.
pub fn no_valid_path_ends_in_a_faulty_certificate()
    ensures { (accepts : Accepting) (trusted : Trusted) (settings : PathSettings) (inputs : Inputs) (above : List (List ℕ)) (bytes : List ℕ)
        (c : Certificate) (reason : ValidationReason) → LendsInputs trusted settings inputs → Spells rfc5280_certificate c bytes
        → BreaksAlone (asked_alone settings) c reason → PathIsValid accepts inputs (above ++ bytes ∷ []) → ⊥ }
{}
