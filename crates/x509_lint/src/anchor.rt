//! The rules on trust anchors.

ghost use Rattle.std.specs.Prelude.{◌≡◌, ◌++◌, map, IfErr, IfOk, OnOk};
ghost use Rattle.x509_der.specs.declared.error.ErrorKind.TheVariants.{Memory};
ghost use Rattle.x509_lint.specs.Anchor as grammar;
ghost use Rattle.x509_lint.specs.Constraint.{constraint_rules};
ghost use Rattle.x509_lint.specs.List.{extension_kinds};
ghost use Rattle.x509_lint.specs.Rules.{AreAnchorFindings, AreFindings, AreInfoFindings};
ghost use Rattle.x509_lint.specs.Sentence.{broken};
ghost use Rattle.x509_lint.specs.declared.rule.Rule.TheVariants as rules;

pub(crate) mod values;

use crate::anchor::values::{AnchorValues, anchor_values};
use crate::certificate::lint_certificate;
use crate::group::add_broken;
use crate::rule::Rule;
use crate::rule::anchor::{ANCHOR_EXTENSION_RULES, ANCHOR_RULES};
use crate::rule::constraint::CONSTRAINT_RULES;
use crate::rule::list::MALFORMED;
use std::alloc::{AllocError, Global};
use x509_base::Raw;
use x509_cert::anchor::{TrustAnchorChoice, TrustAnchorInfo};
use x509_cert::certificate::{CertificateInner, TbsCertificateInner};
use x509_der::{Error, TryClone};
use x509_prim::BitString;

/// The rules that a certificate without a signature breaks.
fn lint_signed(alloc: Global, signed: &TbsCertificateInner<Raw>) -> Result<Vec<Rule>, Error>
    ensures ok { IfOk result (λ findings. AreFindings (grammar.unsigned signed.now) findings.items) }
    ensures err { IfErr result (λ e. e.kind ≡ Memory) }
{
    let part = signed.try_clone(alloc)?;
    let algorithm = signed.signature().try_clone(alloc)?;
    let bits = BitString::from_bytes(alloc, &[])?;
    let certificate = CertificateInner::from_parts(part, algorithm, bits);
    lint_certificate(alloc, &certificate)
}

/// Adds the rules that the description of a trust anchor, of which these are the values, breaks to the findings, in their order.
fn add_info(
    info: &TrustAnchorInfo<Raw>,
    values: &AnchorValues,
    findings: &mut Vec<Rule>,
) -> Result<(), AllocError>
    ensures { OnOk result (findings.new.items ≡ findings.old.items ++ map rules.Anchor
        (broken grammar.anchor_sentence info.now values.now grammar.anchor_rules) ++ map rules.AnchorConstraint
        (broken grammar.anchor_constraint_sentence info.now values.now constraint_rules) ++ map rules.AnchorExtension
        (broken grammar.anchor_extension_sentence info.now values.now grammar.anchor_extension_rules) ++ map rules.AnchorExtensionMalformed
        (broken grammar.anchor_malformed_sentence info.now values.now extension_kinds)) }
{
    add_broken(info, values, &ANCHOR_RULES, findings)?;
    add_broken(info, values, &CONSTRAINT_RULES, findings)?;
    add_broken(info, values, &ANCHOR_EXTENSION_RULES, findings)?;
    add_broken(info, values, &MALFORMED, findings)
}

/// The rules that the description of a trust anchor breaks.
fn lint_info(alloc: Global, info: &TrustAnchorInfo<Raw>) -> Result<Vec<Rule>, Error>
    ensures ok { IfOk result (λ findings. AreInfoFindings info.now findings.items) }
    ensures err { IfErr result (λ e. e.kind ≡ Memory) }
{
    let values = anchor_values(alloc, info)?;
    let mut findings = Vec::new(alloc);
    add_info(info, &values, &mut findings)?;
    Ok(findings)
}

/// The rules that the trust anchor breaks. Of its description those of RFC 5914 and RFC 5280, in the order of `info_rules` in
/// `specs/Rules.antt`: those on its title, on its controls, then those on its extensions. The certificate in the controls has to have the
/// anchor's name, key and key identifier, and no more is asked of it. Of an anchor that is a certificate those of [`lint_certificate`], and of
/// one that is a TBSCertificate those of a certificate of it.
///
/// # Errors
///
/// `Memory` when out of memory, and nothing else.
pub fn lint_anchor(alloc: Global, anchor: &TrustAnchorChoice<Raw>) -> Result<Vec<Rule>, Error>
    ensures ok { IfOk result (λ findings. AreAnchorFindings anchor.now findings.items) }
    ensures err { IfErr result (λ e. e.kind ≡ Memory) }
{
    match anchor {
        TrustAnchorChoice::Certificate(certificate) => lint_certificate(alloc, certificate),
        TrustAnchorChoice::TbsCertificate(signed) => lint_signed(alloc, signed),
        TrustAnchorChoice::TaInfo(info) => lint_info(alloc, info),
    }
}
