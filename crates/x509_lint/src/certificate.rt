//! The rules on certificates.

ghost use Rattle.std.specs.Prelude.{◌≡◌, ◌++◌, map, IfErr, IfOk, OnOk};
ghost use Rattle.x509_der.specs.declared.error.ErrorKind.TheVariants.{Memory};
ghost use Rattle.x509_lint.specs.Critical as critical_rules;
ghost use Rattle.x509_lint.specs.Field as field_rules;
ghost use Rattle.x509_lint.specs.List as list_rules;
ghost use Rattle.x509_lint.specs.Name as name_rules;
ghost use Rattle.x509_lint.specs.Rules.{AreFindings};
ghost use Rattle.x509_lint.specs.Sentence.{broken};
ghost use Rattle.x509_lint.specs.declared.rule.Rule.TheVariants as rules;

use crate::facts::{CertificateFacts, certificate_facts};
use crate::group::{add_broken, add_group};
use crate::rule::alternative::ALTERNATIVE_RULES;
use crate::rule::authority::AUTHORITY_RULES;
use crate::rule::constraint::CONSTRAINT_RULES;
use crate::rule::critical::CRITICAL_RULES;
use crate::rule::field::FIELD_RULES;
use crate::rule::key::KEY_RULES;
use crate::rule::list::{LIST_RULES, MALFORMED};
use crate::rule::name::NAME_RULES;
use crate::rule::point::POINT_RULES;
use crate::rule::policy::POLICY_RULES;
use crate::rule::public_key::PUBLIC_KEY_RULES;
use crate::rule::{
    AlternativeRule, AuthorityRule, ConstraintRule, KeyRule, PointRule, PolicyRule, PublicKeyRule,
    Rule,
};
use crate::values::{
    AlternativeValues, AuthorityValues, ConstraintValues, KeyValues, PointValues, PolicyValues,
    PublicKeyValues,
};
use std::alloc::{AllocError, Global};
use x509_base::Raw;
use x509_cert::certificate::CertificateInner;
use x509_der::Error;

/// Adds the rules on fields, names, the list of extensions and criticality that are broken.
fn add_first(
    certificate: &CertificateInner<Raw>,
    facts: &CertificateFacts,
    findings: &mut Vec<Rule>,
) -> Result<(), AllocError>
    ensures { OnOk result (findings.new.items ≡ findings.old.items ++ map rules.Field
        (broken field_rules.field_sentence certificate.now facts.now field_rules.field_rules) ++ map rules.Name
        (broken name_rules.name_sentence certificate.now facts.now name_rules.name_rules) ++ map rules.ExtensionList
        (broken list_rules.list_sentence certificate.now facts.now list_rules.list_rules) ++ map rules.ExtensionMalformed
        (broken list_rules.malformed_sentence certificate.now facts.now list_rules.extension_kinds) ++ map rules.Critical
        (broken critical_rules.critical_sentence certificate.now facts.now critical_rules.critical_rules)) }
{
    add_broken(certificate, facts, &FIELD_RULES, findings)?;
    add_broken(certificate, facts, &NAME_RULES, findings)?;
    add_broken(certificate, facts, &LIST_RULES, findings)?;
    add_broken(certificate, facts, &MALFORMED, findings)?;
    add_broken(certificate, facts, &CRITICAL_RULES, findings)
}

/// The rules of RFC 5280 4.1 and 4.2, and of other standards on keys, signatures, names and extensions, that the certificate breaks, in the
/// order of `certificate_rules` in `specs/Rules.antt`: those on its fields, on its names, on the list of its extensions
/// and on which of these are critical, then those on what extensions say, in each of these by section; last those on
/// its signature's algorithm and on its public key. The profile [`Raw`] lets in serial numbers of any length.
///
/// # Errors
///
/// `Memory` when out of memory, and nothing else.
pub fn lint_certificate(
    alloc: Global,
    certificate: &CertificateInner<Raw>,
) -> Result<Vec<Rule>, Error>
    ensures ok { IfOk result (λ findings. AreFindings certificate.now findings.items) }
    ensures err { IfErr result (λ e. e.kind ≡ Memory) }
{
    let mut findings = Vec::new(alloc);
    let facts = certificate_facts(alloc, certificate)?;
    add_first(certificate, &facts, &mut findings)?;
    add_group::<AuthorityValues, AuthorityRule>(
        alloc,
        certificate,
        &AUTHORITY_RULES,
        &mut findings,
    )?;
    add_group::<KeyValues, KeyRule>(alloc, certificate, &KEY_RULES, &mut findings)?;
    add_group::<AlternativeValues, AlternativeRule>(
        alloc,
        certificate,
        &ALTERNATIVE_RULES,
        &mut findings,
    )?;
    add_group::<PolicyValues, PolicyRule>(alloc, certificate, &POLICY_RULES, &mut findings)?;
    add_group::<ConstraintValues, ConstraintRule>(
        alloc,
        certificate,
        &CONSTRAINT_RULES,
        &mut findings,
    )?;
    add_group::<PointValues, PointRule>(alloc, certificate, &POINT_RULES, &mut findings)?;
    add_group::<PublicKeyValues, PublicKeyRule>(
        alloc,
        certificate,
        &PUBLIC_KEY_RULES,
        &mut findings,
    )?;
    Ok(findings)
}
