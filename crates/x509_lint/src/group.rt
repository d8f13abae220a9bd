//! Groups of rules.

ghost use Rattle.std.specs.Prelude.{◌≡◌, ◌++◌, map, IfErr, OnOk};
ghost use Rattle.x509_der.specs.declared.error.ErrorKind.TheVariants.{Memory};
ghost use Rattle.x509_lint.specs.Sentence.{broken, rules_of};

use crate::entry::Entry;
use crate::rule::Rule;
use std::alloc::{AllocError, Global};
use x509_base::Raw;
use x509_cert::certificate::CertificateInner;
use x509_der::Error;

/// A rule of a group, and how it is told: a line of the group's table.
pub(crate) struct Told<R> {
    pub(crate) rule: R,
    pub(crate) entry: Entry,
}

/// Rules that look at the same object, and at the same values of its extensions.
pub(crate) trait Group<O, V> {
    ghost use Rattle.std.specs.Prelude.{◌≡◌};
    ghost use Rattle.x509_lint.specs.Sentence.{Sentence};
    ghost use Rattle.x509_lint.specs.declared.rule.Rule.{Rule};

    /// How the rule is told, and whether the object, with these values of its extensions, breaks it.
    ghost sentence: { Self → Sentence O V };

    /// The rule, as one of all rules.
    ghost as_rule: { Self → Rule };

    /// Whether the rule is broken.
    fn is_broken(&self, object: &O, values: &V) -> bool
        ensures { result ≡ (sentence self.now).breaks object.now values.now };

    /// The rule, as one of all rules.
    fn to_rule(&self) -> Rule
        ensures { result ≡ as_rule self.now };
}

/// Adds those of the rules of the table that are broken to the findings, in their order.
pub(crate) fn add_broken<O, V, G: Group<O, V>>(
    object: &O,
    values: &V,
    table: &[Told<G>],
    findings: &mut Vec<Rule>,
) -> Result<(), AllocError>
    ensures { OnOk result (findings.new.items ≡ findings.old.items ++ map G.as_rule (broken G.sentence object.now values.now (rules_of table.now))) }
{
    for told in table {
        if told.rule.is_broken(object, values) {
            findings.push(told.rule.to_rule())?;
        }
    }
    Ok(())
}

/// What rules look at beside a certificate: values of its extensions, or of its key.
pub(crate) trait Values {
    ghost use Rattle.std.specs.Prelude.{◌≡◌, IfErr, IfOk};
    ghost use Rattle.x509_der.specs.declared.error.ErrorKind.TheVariants.{Memory};
    ghost use Rattle.x509_lint.specs.Words.{Certificate};

    /// Whether they are those of the certificate.
    ghost are_values: { Certificate → Self → Type 0 };

    /// Those of the certificate.
    fn values_of(alloc: Global, certificate: &CertificateInner<Raw>) -> Result<Self, Error>
        ensures ok { IfOk result (are_values certificate.now) }
        ensures err { IfErr result (λ e. e.kind ≡ Memory) };
}

/// Adds those of the rules of the table that the certificate breaks to the findings, in their order.
pub(crate) fn add_group<V: Values + Drop, G: Group<CertificateInner<Raw>, V>>(
    alloc: Global,
    certificate: &CertificateInner<Raw>,
    table: &[Told<G>],
    findings: &mut Vec<Rule>,
) -> Result<(), Error>
    ensures ok { OnOk result ((values : V) × V.are_values certificate.now values
        × (findings.new.items ≡ findings.old.items ++ map G.as_rule (broken G.sentence certificate.now values (rules_of table.now)))) }
    ensures err { IfErr result (λ e. e.kind ≡ Memory) }
{
    let values = V::values_of(alloc, certificate)?;
    add_broken(certificate, &values, table, findings)?;
    Ok(())
}
