//! What holds of all paths. Each law is a function with an empty body, whose contract is the law.

ghost use Rattle.std.specs.Prelude.{◌≡◌, ◌⊎◌, ◌↔◌, List, ℕ, Result, Ok, Err, true};
ghost use Rattle.x509_base.specs.CivilTime.{CivilTime};
ghost use Rattle.x509_path.specs.Certificates.{Accepting, accept_all};
ghost use Rattle.x509_path.specs.Path.{Answers, HasFault, IsFirstFault, PathHolds};
ghost use Rattle.x509_path.specs.declared.anchor.Anchor.{Anchor};
ghost use Rattle.x509_path.specs.declared.fault.PathFault.{PathFault};
ghost use Rattle.x509_path.specs.declared.fault.PathFault.TheVariants.{At, Memory};
ghost use Rattle.x509_path.specs.declared.fault.PathReason.{PathReason};
ghost use Rattle.x509_path.specs.declared.fault.PathReason.TheVariants.{Signature};

use crate::{Anchor, PathFault, PathReason};
use x509_base::Rfc5280;
use x509_cert::laws::signed_bytes_spell_the_signed_part;

/// Apart from out of memory there is one answer to a path: that it holds, exactly where it does, and else the first
/// fault of the lowest place that has one.
pub fn one_answer()
    ensures answers { (accepts : Accepting) (moment : CivilTime) (anchor : Anchor) (inputs : List (List ℕ)) (a b : Result Unit PathFault)
        → Answers accepts moment anchor inputs a → Answers accepts moment anchor inputs b → (a ≡ b) ⊎ ((a ≡ Err Memory) ⊎ (b ≡ Err Memory)) }
    ensures holds { (accepts : Accepting) (moment : CivilTime) (anchor : Anchor) (inputs : List (List ℕ)) (a : Result Unit PathFault)
        → PathHolds accepts moment anchor inputs → Answers accepts moment anchor inputs a → (a ≡ Ok tt) ⊎ (a ≡ Err Memory) }
    ensures fault { (accepts : Accepting) (moment : CivilTime) (anchor : Anchor) (inputs : List (List ℕ)) (place : ℕ) (reason : PathReason)
        (a : Result Unit PathFault) → IsFirstFault accepts moment anchor inputs place reason → Answers accepts moment anchor inputs a
        → (a ≡ Err (At place reason)) ⊎ (a ≡ Err Memory) }
{}

/// A path holds exactly where it does with all bits taken for signatures ([`AnySignature`](crate::AnySignature)), and
/// the signature of each of its certificates is accepted. So signatures may be verified apart from the rest.
pub fn signatures_may_be_verified_apart()
    ensures { (accepts : Accepting) (moment : CivilTime) (anchor : Anchor) (inputs : List (List ℕ)) → PathHolds accepts moment anchor inputs
        ↔ (PathHolds accept_all moment anchor inputs × ((place : ℕ) → HasFault accepts moment anchor inputs place Signature → ⊥)) }
{
    signed_bytes_spell_the_signed_part::<Rfc5280>();
}

/// `==` of trust anchors, of faults and of reasons holds exactly of equal values.
#[tactic(auto, using(crate::specs::Equality::exact_anchor, crate::specs::Equality::exact_fault, crate::specs::Equality::exact_reason))]
pub fn equality_of_anchors_and_faults_is_exact()
    ensures anchors { (a b : Anchor) → (⟦<Anchor as PartialEq>⟧.eq a b ≡ true) ↔ (a ≡ b) }
    ensures faults { (a b : PathFault) → (⟦<PathFault as PartialEq>⟧.eq a b ≡ true) ↔ (a ≡ b) }
    ensures reasons { (a b : PathReason) → (⟦<PathReason as PartialEq>⟧.eq a b ≡ true) ↔ (a ≡ b) }
{}
