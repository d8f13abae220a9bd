//! Which rules a certificate breaks.

ghost use Rattle.std.specs.Prelude.{◌≡◌, filter, IfErr, IfOk};
ghost use Rattle.x509_der.specs.declared.error.ErrorKind.TheVariants.{Memory};
ghost use Rattle.x509_lint_web.specs.Rules.{AreWebFindings, is_found};

use crate::rule::{WEB_RULES, WebRule};
use crate::values::{WebValues, web_values};
use std::alloc::{AllocError, Global};
use x509_base::{DateTime, Raw};
use x509_cert::certificate::CertificateInner;
use x509_der::Error;

/// Those of the rules that are in force at the moment and that the certificate, of which these are the values, breaks.
pub(crate) fn found(
    alloc: Global,
    moment: DateTime,
    certificate: &CertificateInner<Raw>,
    values: &WebValues,
    rules: &[WebRule],
) -> Result<Vec<WebRule>, AllocError>
    ensures { IfOk result (λ findings. findings.items ≡ filter (is_found moment certificate.now values.now) rules.now) }
{
    let mut findings = Vec::new(alloc);
    for rule in rules {
        if rule.is_in_force(moment) && rule.is_broken(certificate, values) {
            findings.push(*rule)?;
        }
    }
    Ok(findings)
}

/// The rules of the Baseline Requirements that are in force at the moment and that the certificate breaks, in the order of `web_rules` in
/// `specs/Rules.antt`. The date `notBefore` of the certificate as the moment tells what held when it was issued; the moment of today, what holds
/// for one that is issued now.
///
/// # Errors
///
/// `Memory` when out of memory, and nothing else.
pub fn lint_web(
    alloc: Global,
    moment: DateTime,
    certificate: &CertificateInner<Raw>,
) -> Result<Vec<WebRule>, Error>
    ensures ok { IfOk result (λ findings. AreWebFindings moment certificate.now findings.items) }
    ensures err { IfErr result (λ e. e.kind ≡ Memory) }
{
    let values = web_values(alloc, certificate)?;
    Ok(found(alloc, moment, certificate, &values, &WEB_RULES)?)
}
