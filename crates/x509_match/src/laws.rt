//! What holds of all names that match. Each law is a function with an empty body, whose contract is the law.

ghost use Rattle.std.specs.Prelude.{◌≡◌, ◌↔◌, IsPermutation, List, true};
ghost use Rattle.x509_match.specs.Keys.{attribute_key};
ghost use Rattle.x509_match.specs.Matching.{AttributesMatch, NamesMatch, RdnsMatch};
ghost use Rattle.x509_match.specs.NameKeys.{IsNameKey, IsRdnKey};
ghost use Rattle.x509_match.specs.declared.key.MatchedName.{MatchedName};
ghost use Rattle.x509_match.specs.declared.key.RdnKey.{RdnKey};
ghost use Rattle.x509_name.specs.declared.attr.type_and_value.AttributeTypeAndValue.{AttributeTypeAndValue};

use crate::key::{MatchedName, RdnKey};
use x509_name::attr::AttributeTypeAndValue;

/// Attributes are compared by the same octets exactly where they are of one type, and have either the same element or
/// texts of which the same is compared (RFC 5280 7.1).
#[tactic(auto, using(crate::proofs::AttributesAgree::attributes_agree))]
pub fn attributes_with_one_key_match()
    ensures { (a b : AttributeTypeAndValue) → (attribute_key a ≡ attribute_key b) ↔ AttributesMatch a b }
{}

/// Matching is an equivalence of names; so equal names match.
pub fn matching_is_an_equivalence()
    ensures reflexive { (x : List (List AttributeTypeAndValue)) → NamesMatch x x }
    ensures symmetric { (x y : List (List AttributeTypeAndValue)) → NamesMatch x y → NamesMatch y x }
    ensures transitive { (x y z : List (List AttributeTypeAndValue)) → NamesMatch x y → NamesMatch y z → NamesMatch x z }
{}

/// In whatever order the attributes of an RDN stand, it matches.
pub fn the_order_of_attributes_does_not_matter()
    ensures { (x y : List AttributeTypeAndValue) → IsPermutation x y → RdnsMatch x y }
{}

/// `==` of keys holds exactly where the RDNs or the names match.
pub fn keys_are_equal_where_names_match()
    ensures rdns { (k l : RdnKey) (x y : List AttributeTypeAndValue) → IsRdnKey k x → IsRdnKey l y
        → (⟦<RdnKey as PartialEq>⟧.eq k l ≡ true) ↔ RdnsMatch x y }
    ensures names { (k l : MatchedName) (x y : List (List AttributeTypeAndValue)) → IsNameKey k x → IsNameKey l y
        → (⟦<MatchedName as PartialEq>⟧.eq k l ≡ true) ↔ NamesMatch x y }
{}
