//! Rules on name constraints (RFC 5280 4.2.1.10).

ghost use Rattle.std.specs.List.{list_any};
ghost use Rattle.std.specs.Prelude.{◌≡◌, ◌==◌, ◌&&◌, is_some, not};
ghost use Rattle.x509_lint.specs.Constraint as grammar;
ghost use Rattle.x509_lint.specs.Wording.{Says};
ghost use Rattle.x509_lint.specs.Words.{passes};

use crate::entry::{Entry, rules};
use crate::extensions::is_empty_sequence;
use crate::group::{Group, Told};
use crate::lists::{Test, any_of};
use crate::names::{BaseFault, is_faulty_base};
use crate::passes;
use crate::rule::Rule;
use crate::values::ConstraintValues;
use x509_base::Raw;
use x509_cert::certificate::CertificateInner;
use x509_ext::pkix::NameConstraints;
use x509_ext::pkix::constraints::name::{GeneralSubtree, GeneralSubtrees};

/// Rules on name constraints (RFC 5280 4.2.1.10).
#[derive(Clone, Copy, PartialEq, Eq)]
pub enum ConstraintRule {
    /// The NameConstraints has neither list (RFC 5280 4.2.1.10, error).
    NameConstraintsEmpty,

    /// The base of a subtree is an ediPartyName or a registeredID (RFC 5280 4.2.1.10, warning).
    NameConstraintsOtherForm,

    /// A list of the NameConstraints has no subtree (RFC 5280 4.2.1.10, error).
    NameConstraintsSubtreesEmpty,

    /// The minimum of a subtree isn't 0 (RFC 5280 4.2.1.10, error).
    NameConstraintsMinimum,

    /// A subtree has a maximum (RFC 5280 4.2.1.10, error).
    NameConstraintsMaximum,

    /// The base of a subtree is a URI that isn't a host's DNS name, nor one behind a dot (RFC 5280 4.2.1.10, error).
    NameConstraintsUriInvalid,

    /// The base of a subtree is an iPAddress that has neither 8 nor 32 octets (RFC 5280 4.2.1.10, error).
    NameConstraintsAddressLength,

    /// The base of a subtree is an iPAddress of 8 or 32 octets whose mask isn't ones and zeros behind them (RFC 5280 4.2.1.10, error).
    NameConstraintsAddressMask,
}

/// The rules in their order, with how each is told.
pub(crate) static CONSTRAINT_RULES: [Told<ConstraintRule>; 8] = rules! { ConstraintRule;
    NameConstraintsEmpty => must("name_constraints_empty", "4.2.1.10", "tbsCertificate.extensions.nameConstraints"),
    NameConstraintsOtherForm => should("name_constraints_other_form", "4.2.1.10", "tbsCertificate.extensions.nameConstraints"),
    NameConstraintsSubtreesEmpty => must("name_constraints_subtrees_empty", "4.2.1.10", "tbsCertificate.extensions.nameConstraints"),
    NameConstraintsMinimum => must("name_constraints_minimum", "4.2.1.10", "tbsCertificate.extensions.nameConstraints"),
    NameConstraintsMaximum => must("name_constraints_maximum", "4.2.1.10", "tbsCertificate.extensions.nameConstraints"),
    NameConstraintsUriInvalid => must("name_constraints_uri_invalid", "4.2.1.10", "tbsCertificate.extensions.nameConstraints"),
    NameConstraintsAddressLength => must("name_constraints_address_length", "4.2.1.10", "tbsCertificate.extensions.nameConstraints"),
    NameConstraintsAddressMask => must("name_constraints_address_mask", "4.2.1.10", "tbsCertificate.extensions.nameConstraints"),
};

impl ConstraintRule {
    /// How bad it is to break the rule, its name, its section, and its place.
    pub fn entry(self) -> Entry
        ensures { Says result (grammar.constraint_wording self) }
    {
        CONSTRAINT_RULES[self as usize].entry
    }
}

/// That the minimum of a subtree isn't 0.
struct Minimum;

impl Test<GeneralSubtree> for Minimum {
    ghost use Rattle.std.specs.Prelude.{◌==◌, not};

    ghost holds_of = { λ test subtree. not (subtree.minimum == 0) };

    fn holds_of(&self, subtree: &GeneralSubtree) -> bool {
        subtree.minimum != 0
    }
}

/// That a subtree has a maximum.
struct Maximum;

impl Test<GeneralSubtree> for Maximum {
    ghost use Rattle.std.specs.Prelude.{is_some};

    ghost holds_of = { λ test subtree. is_some subtree.maximum };

    fn holds_of(&self, subtree: &GeneralSubtree) -> bool {
        subtree.maximum.is_some()
    }
}

impl Test<GeneralSubtree> for BaseFault {
    ghost use Rattle.x509_lint.specs.Constraint.{has_fault};

    ghost holds_of = { λ fault subtree. has_fault fault subtree.base };

    fn holds_of(&self, subtree: &GeneralSubtree) -> bool {
        is_faulty_base(*self, &subtree.base)
    }
}

fn have_subtree<P: Test<GeneralSubtree>>(test: &P, subtrees: &Option<GeneralSubtrees>) -> bool
    ensures { result ≡ passes (λ subtrees. list_any (P.holds_of test.now) subtrees) subtrees.now }
{
    passes!(subtrees, subtrees => any_of(test, subtrees.as_slice()))
}

/// Whether a subtree passes.
fn has_subtree<P: Test<GeneralSubtree>>(test: &P, constraints: &NameConstraints) -> bool
    ensures { result ≡ grammar.has_subtree (P.holds_of test.now) constraints.now }
{
    have_subtree(test, &constraints.permitted_subtrees)
        || have_subtree(test, &constraints.excluded_subtrees)
}

fn has_no_list(constraints: &NameConstraints) -> bool
    ensures { result ≡ (not (is_some constraints.now.permitted_subtrees) && not (is_some constraints.now.excluded_subtrees)) }
{
    !constraints.permitted_subtrees.is_some() && !constraints.excluded_subtrees.is_some()
}

fn has_empty_subtrees(constraints: &NameConstraints) -> bool
    ensures { result ≡ grammar.has_empty_subtrees constraints.now }
{
    is_empty_sequence(&constraints.permitted_subtrees)
        || is_empty_sequence(&constraints.excluded_subtrees)
}

/// Whether the name constraints break the rule.
pub(crate) fn breaks_name_constraints(rule: ConstraintRule, constraints: &NameConstraints) -> bool
    ensures { result ≡ grammar.breaks_name_constraints rule constraints.now }
{
    match rule {
        ConstraintRule::NameConstraintsEmpty => has_no_list(constraints),
        ConstraintRule::NameConstraintsOtherForm => {
            has_subtree(&BaseFault::OtherForm, constraints)
        }
        ConstraintRule::NameConstraintsSubtreesEmpty => has_empty_subtrees(constraints),
        ConstraintRule::NameConstraintsMinimum => has_subtree(&Minimum, constraints),
        ConstraintRule::NameConstraintsMaximum => has_subtree(&Maximum, constraints),
        ConstraintRule::NameConstraintsUriInvalid => {
            has_subtree(&BaseFault::NoHost, constraints)
        }
        ConstraintRule::NameConstraintsAddressLength => {
            has_subtree(&BaseFault::NoRange, constraints)
        }
        ConstraintRule::NameConstraintsAddressMask => {
            has_subtree(&BaseFault::OddMask, constraints)
        }
    }
}

impl Group<CertificateInner<Raw>, ConstraintValues> for ConstraintRule {
    ghost use Rattle.x509_lint.specs.Constraint.{constraint_sentence};
    ghost use Rattle.x509_lint.specs.declared.rule.Rule.TheVariants.{Constraint};

    ghost sentence = { constraint_sentence };

    ghost as_rule = { λ rule. Constraint rule };

    fn is_broken(&self, _certificate: &CertificateInner<Raw>, values: &ConstraintValues) -> bool {
        passes!(&values.name_constraints, constraints => breaks_name_constraints(*self, constraints))
    }

    fn to_rule(&self) -> Rule {
        Rule::Constraint(*self)
    }
}
