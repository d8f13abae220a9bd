//! The rules on CSRs.

ghost use Rattle.std.specs.Prelude.{◌≡◌, IfErr, IfOk};
ghost use Rattle.x509_der.specs.declared.error.ErrorKind.TheVariants.{Memory};
ghost use Rattle.x509_lint.specs.Rules.{AreRequestFindings};

pub(crate) mod passwords;
pub(crate) mod values;

use crate::group::add_broken;
use crate::request::values::request_values;
use crate::rule::Rule;
use crate::rule::list::MALFORMED;
use crate::rule::request::{REQUEST_NAME_RULES, REQUEST_RULES};
use std::alloc::Global;
use x509_cert::request::CertReq;
use x509_der::Error;

/// The rules of RFC 2986, RFC 2985 and RFC 5280 that the CSR breaks, in the order of `request_rules` in `specs/Rules.antt`: those on
/// its subject, then those on its attributes, then those on the extensions that it asks for.
///
/// # Errors
///
/// `Memory` when out of memory, and nothing else.
pub fn lint_request(alloc: Global, request: &CertReq) -> Result<Vec<Rule>, Error>
    ensures ok { IfOk result (λ findings. AreRequestFindings request.now findings.items) }
    ensures err { IfErr result (λ e. e.kind ≡ Memory) }
{
    let mut findings = Vec::new(alloc);
    let values = request_values(alloc, request)?;
    add_broken(request, &values, &REQUEST_RULES, &mut findings)?;
    add_broken(request, &values, &MALFORMED, &mut findings)?;
    add_broken(request, &values, &REQUEST_NAME_RULES, &mut findings)?;
    Ok(findings)
}
