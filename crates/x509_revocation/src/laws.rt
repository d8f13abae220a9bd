//! What holds of all statuses. Each law is a function with an empty body, whose contract is the law.

ghost use Rattle.std.specs.Prelude.{◌≡◌, ◌↔◌, ℕ, true, List, Option, Some, None};
ghost use Rattle.x509_ext.specs.declared.pkix.issuing_distribution_point.IssuingDistributionPoint.{IssuingDistributionPoint};
ghost use Rattle.x509_ext.specs.declared.pkix.reasons.Reasons.{Reasons};
ghost use Rattle.x509_revocation.specs.Crls.{Entry, HasList};
ghost use Rattle.x509_revocation.specs.Faults.{HasFault};
ghost use Rattle.x509_revocation.specs.Points.{all_reasons, is_indirect};
ghost use Rattle.x509_revocation.specs.Says.{FindsWith, GivenCrl, Question, Says, Tells};
ghost use Rattle.x509_revocation.specs.Status.{AddsTo, Answers};
ghost use Rattle.x509_revocation.specs.declared.fault.CrlFault.{CrlFault};
ghost use Rattle.x509_revocation.specs.declared.status.Revocation.{Revocation};
ghost use Rattle.x509_revocation.specs.declared.status.RevocationStatus.{RevocationStatus};

use crate::fault::CrlFault;
use crate::status::RevocationStatus;

/// There is one status of a certificate by some CRLs.
#[tactic(auto, using(crate::proofs::OneStatus::one))]
pub fn one_status()
    ensures { (question : Question) (given : List GivenCrl) (s t : RevocationStatus) → Answers question given s → Answers question given t → s ≡ t }
{}

/// `==` of statuses holds exactly of equal values: of those of revoked certificates where the places of the CRLs, the dates, in one spelling, and the reasons are
/// the same.
#[tactic(auto, using(crate::specs::Equality::exact_status))]
pub fn equality_of_statuses_is_exact()
    ensures { (a b : RevocationStatus) → (⟦<RevocationStatus as PartialEq>⟧.eq a b ≡ true) ↔ (a ≡ b) }
{}

/// A CRL has one first fault among some CRLs, or none.
#[tactic(auto, using(crate::proofs::Silent::one_fault))]
pub fn one_fault()
    ensures { (question : Question) (all : List GivenCrl) (given : GivenCrl) (a b : Option CrlFault)
        → HasFault question all given a → HasFault question all given b → a ≡ b }
{}

/// A CRL with a fault says of no reason whether the certificate is revoked.
pub fn a_crl_with_a_fault_says_nothing()
    ensures { (question : Question) (all : List GivenCrl) (given : GivenCrl) (fault : CrlFault) (place : ℕ) (reasons : Reasons) (revoked : Option Revocation)
        → HasFault question all given (Some fault) → Says question all place given reasons revoked → AddsTo all_reasons reasons → ⊥ }
{}

/// A CRL without a fault says of one reason or more what is found of the certificate in it, or in the delta CRL to it.
pub fn a_crl_without_a_fault_says()
    ensures { (question : Question) (all : List GivenCrl) (given : GivenCrl) (place : ℕ) (list : Option IssuingDistributionPoint) (found : Option (ℕ × Entry))
        (revoked : Option Revocation) → HasFault question all given None → HasList given.crl list
        → FindsWith question (is_indirect list) all place given found → Tells found revoked
        → (reasons : Reasons) × Says question all place given reasons revoked × AddsTo all_reasons reasons }
{}

/// `==` of faults of CRLs holds exactly of the same.
#[tactic(auto, using(crate::specs::Equality::exact_fault))]
pub fn equality_of_crl_faults_is_exact()
    ensures { (a b : CrlFault) → (⟦<CrlFault as PartialEq>⟧.eq a b ≡ true) ↔ (a ≡ b) }
{}
