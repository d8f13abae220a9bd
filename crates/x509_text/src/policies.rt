//! Policies, and what limits the certificates that may follow in a path (RFC 5280 4.2.1).

ghost use Rattle.std.specs.Prelude.{◌≡◌, ◌++◌, OnOk, string_bytes};
ghost use Rattle.x509_text.specs.Policies as policies;

use crate::line::{Place, write_line};
use crate::show::{Show, show_each};
use crate::values::{write_number, write_oid, write_optional_number};
use std::alloc::{AllocError, Global};
use x509_der::SequenceOf;
use x509_ext::pkix::certpolicy::{PolicyInformation, PolicyQualifierInfo};
use x509_ext::pkix::constraints::name::{GeneralSubtree, GeneralSubtrees};
use x509_ext::pkix::{
    CertificatePolicies, InhibitAnyPolicy, NameConstraints, PolicyConstraints, PolicyMapping,
    PolicyMappings,
};

/// Writes qualifiers that may be left out.
fn write_optional_qualifiers(
    alloc: Global,
    at: Place,
    qualifiers: &Option<SequenceOf<PolicyQualifierInfo>>,
    out: &mut String,
) -> Result<(), AllocError>
    ensures { OnOk result (string_bytes out.new ≡ string_bytes out.old ++ policies.optional_qualifiers at qualifiers.now) }
{
    match qualifiers {
        Some(qualifiers) => show_each(alloc, at, qualifiers.as_slice(), out),
        None => Ok(()),
    }
}

#[tactic(auto, unfolding(crate::specs::Policies::policy_lines))]
impl Show for PolicyInformation {
    ghost use Rattle.x509_text.specs.Policies.{policy_lines};

    ghost lines = { policy_lines };

    fn show(&self, alloc: Global, at: Place, out: &mut String) -> Result<(), AllocError> {
        write_oid(alloc, at, "policy", &self.policy_identifier, out)?;
        write_optional_qualifiers(alloc, at.below(), &self.policy_qualifiers, out)
    }
}

impl Show for CertificatePolicies {
    ghost use Rattle.x509_text.specs.Policies.{policies_lines};

    ghost lines = { λ at policies. policies_lines at policies.0 };

    fn show(&self, alloc: Global, at: Place, out: &mut String) -> Result<(), AllocError> {
        show_each(alloc, at, self.0.as_slice(), out)
    }
}

#[tactic(auto, unfolding(crate::specs::Policies::mapping_lines))]
impl Show for PolicyMapping {
    ghost use Rattle.x509_text.specs.Policies.{mapping_lines};

    ghost lines = { mapping_lines };

    fn show(&self, alloc: Global, at: Place, out: &mut String) -> Result<(), AllocError> {
        write_oid(
            alloc,
            at,
            "issuer domain policy",
            &self.issuer_domain_policy,
            out,
        )?;
        write_oid(
            alloc,
            at.below(),
            "subject domain policy",
            &self.subject_domain_policy,
            out,
        )
    }
}

impl Show for PolicyMappings {
    ghost use Rattle.x509_text.specs.Policies.{mappings_lines};

    ghost lines = { λ at mappings. mappings_lines at mappings.0 };

    fn show(&self, alloc: Global, at: Place, out: &mut String) -> Result<(), AllocError> {
        show_each(alloc, at, self.0.as_slice(), out)
    }
}

#[tactic(auto, unfolding(crate::specs::Policies::policy_constraints_lines))]
impl Show for PolicyConstraints {
    ghost use Rattle.x509_text.specs.Policies.{policy_constraints_lines};

    ghost lines = { policy_constraints_lines };

    fn show(&self, alloc: Global, at: Place, out: &mut String) -> Result<(), AllocError> {
        write_optional_number(
            alloc,
            at,
            "require explicit policy",
            self.require_explicit_policy,
            out,
        )?;
        write_optional_number(
            alloc,
            at,
            "inhibit policy mapping",
            self.inhibit_policy_mapping,
            out,
        )
    }
}

impl Show for InhibitAnyPolicy {
    ghost use Rattle.x509_text.specs.Policies.{inhibit_any_policy_lines};

    ghost lines = { inhibit_any_policy_lines };

    fn show(&self, alloc: Global, at: Place, out: &mut String) -> Result<(), AllocError> {
        write_number(alloc, at, "skip certificates", u64::from(self.0), out)
    }
}

/// Writes the minimum of a subtree where it isn't its default.
fn write_minimum(alloc: Global, at: Place, minimum: u32, out: &mut String) -> Result<(), AllocError>
    ensures { OnOk result (string_bytes out.new ≡ string_bytes out.old ++ policies.minimum_line at minimum) }
{
    if minimum == 0 {
        Ok(())
    } else {
        write_number(alloc, at, "minimum", u64::from(minimum), out)
    }
}

#[tactic(auto, unfolding(crate::specs::Policies::subtree_lines))]
impl Show for GeneralSubtree {
    ghost use Rattle.x509_text.specs.Policies.{subtree_lines};

    ghost lines = { subtree_lines };

    fn show(&self, alloc: Global, at: Place, out: &mut String) -> Result<(), AllocError> {
        self.base.show(alloc, at, out)?;
        write_minimum(alloc, at.below(), self.minimum, out)?;
        write_optional_number(alloc, at.below(), "maximum", self.maximum, out)
    }
}

/// Writes subtrees under a label.
#[tactic(auto, unfolding(crate::specs::Policies::labelled_subtrees))]
fn write_subtrees(
    alloc: Global,
    at: Place,
    label: &str,
    subtrees: &GeneralSubtrees,
    out: &mut String,
) -> Result<(), AllocError>
    ensures { OnOk result (string_bytes out.new ≡ string_bytes out.old ++ policies.labelled_subtrees at label.now subtrees.now) }
{
    write_line(alloc, at, label, "", out)?;
    show_each(alloc, at.below(), subtrees.as_slice(), out)
}

/// Writes subtrees that may be left out, under a label.
fn write_optional_subtrees(
    alloc: Global,
    at: Place,
    label: &str,
    subtrees: &Option<GeneralSubtrees>,
    out: &mut String,
) -> Result<(), AllocError>
    ensures { OnOk result (string_bytes out.new ≡ string_bytes out.old ++ policies.optional_subtrees at label.now subtrees.now) }
{
    match subtrees {
        Some(subtrees) => write_subtrees(alloc, at, label, subtrees, out),
        None => Ok(()),
    }
}

#[tactic(auto, unfolding(crate::specs::Policies::name_constraints_lines))]
impl Show for NameConstraints {
    ghost use Rattle.x509_text.specs.Policies.{name_constraints_lines};

    ghost lines = { name_constraints_lines };

    fn show(&self, alloc: Global, at: Place, out: &mut String) -> Result<(), AllocError> {
        write_optional_subtrees(alloc, at, "permitted", &self.permitted_subtrees, out)?;
        write_optional_subtrees(alloc, at, "excluded", &self.excluded_subtrees, out)
    }
}
