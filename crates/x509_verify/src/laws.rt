//! Which limits are equal. The law is a function with an empty body, whose contract is the law.

ghost use Rattle.std.specs.Prelude.{◌≡◌, ◌↔◌, true};
ghost use Rattle.x509_verify.specs.declared.limits.SearchLimits as limits;

use crate::limits::SearchLimits;

/// `==` of limits holds exactly of equal values.
#[tactic(auto, using(crate::specs::Equality::exact_limits))]
pub fn equality_of_limits_is_exact()
    ensures { (a b : limits.SearchLimits) → (⟦<SearchLimits as PartialEq>⟧.eq a b ≡ true) ↔ (a ≡ b) }
{}
