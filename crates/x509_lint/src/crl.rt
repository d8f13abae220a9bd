//! The rules on CRLs.

ghost use Rattle.std.specs.Prelude.{◌≡◌, IfErr, IfOk, IsOk, filter};
ghost use Rattle.x509_cert.specs.declared.crl.certificate_list.CertificateList as lists;
ghost use Rattle.x509_base.specs.declared.profile.Raw.{Raw};
ghost use Rattle.x509_crl_index.specs.Split.{IsSplit, emptied, read_entries, without_entries};
ghost use Rattle.x509_der.specs.declared.error.ErrorKind.TheVariants.{Memory};
ghost use Rattle.x509_lint.specs.Rules.{AreCrlFindings, crl_breaks, crl_rules};
ghost use Rattle.x509_lint.specs.Values.{AreCrlValues, AreFrontFacts};
ghost use Rattle.x509_lint.specs.Words.{crl_extensions_of};

use crate::entries::{EntryFacts, facts_of_elements, facts_of_entries};
use crate::facts::{CrlFacts, crl_facts};
use crate::group::add_broken;
use crate::rule::Rule;
use crate::rule::crl_entry::CRL_ENTRY_RULES;
use crate::rule::crl_extension::CRL_EXTENSION_RULES;
use crate::rule::crl_field::{CRL_ENTRY_LIST_RULES, CRL_FIELD_RULES, CRL_MALFORMED};
use crate::values::{CrlValues, crl_values};
use std::alloc::Global;
use x509_base::Raw;
use x509_cert::crl::{CertificateList, RevokedCert, TbsCertList};
use x509_der::{Error, SequenceOf, TryClone};
use x509_ext::members;

/// What the rules on CRLs look at, beside the CRL itself.
pub(crate) struct CrlParts {
    pub(crate) facts: CrlFacts,
    pub(crate) values: CrlValues,
}

impl Drop for CrlParts {
    fn drop(self) {
        let CrlParts {
            facts: _,
            values: _,
        } = self;
    }
}

/// What the rules look at, beside a CRL of whose entries these are the facts.
fn parts_of(
    alloc: Global,
    crl: &CertificateList<Raw>,
    entries: EntryFacts,
) -> Result<CrlParts, Error>
    ensures ok { IfOk result (λ parts. AreFrontFacts crl.now parts.facts × (parts.facts.entries ≡ entries) × AreCrlValues (crl_extensions_of crl.now) parts.values) }
    ensures err { IfErr result (λ e. e.kind ≡ Memory) }
{
    let facts = crl_facts(alloc, crl, entries)?;
    let values = crl_values(alloc, members(crl.tbs_cert_list.crl_extensions.as_ref()))?;
    Ok(CrlParts { facts, values })
}

/// The rules that a CRL breaks with these parts, in their order.
fn broken_rules(
    alloc: Global,
    crl: &CertificateList<Raw>,
    parts: &CrlParts,
) -> Result<Vec<Rule>, Error>
    ensures ok { IfOk result (λ findings. findings.items ≡ filter (crl_breaks crl.now parts.now) crl_rules) }
    ensures err { IfErr result (λ e. e.kind ≡ Memory) }
{
    let mut findings = Vec::new(alloc);
    add_broken(crl, &parts.facts, &CRL_FIELD_RULES, &mut findings)?;
    add_broken(crl, &parts.facts, &CRL_MALFORMED, &mut findings)?;
    add_broken(crl, &parts.facts, &CRL_ENTRY_LIST_RULES, &mut findings)?;
    add_broken(crl, &parts.values, &CRL_EXTENSION_RULES, &mut findings)?;
    add_broken(crl, parts, &CRL_ENTRY_RULES, &mut findings)?;
    Ok(findings)
}

/// The list of entries without these, where there is one.
fn emptied(
    alloc: Global,
    list: &Option<SequenceOf<RevokedCert<Raw>>>,
) -> Option<SequenceOf<RevokedCert<Raw>>>
    ensures { result ≡ emptied list.now }
{
    match list {
        Some(_) => Some(SequenceOf::new(alloc)),
        None => None,
    }
}

/// A copy of the CRL without the entries.
fn front_of(alloc: Global, crl: &CertificateList<Raw>) -> Result<CertificateList<Raw>, Error>
    ensures ok { IfOk result (λ front. front ≡ without_entries crl.now) }
    ensures err { IfErr result (λ e. e.kind ≡ Memory) }
{
    let part = &crl.tbs_cert_list;
    let signature = part.signature.try_clone(alloc)?;
    let issuer = part.issuer.try_clone(alloc)?;
    let crl_extensions = part.crl_extensions.try_clone(alloc)?;
    Ok(CertificateList {
        tbs_cert_list: TbsCertList {
            version: part.version,
            signature,
            issuer,
            this_update: part.this_update,
            next_update: part.next_update,
            revoked_certificates: emptied(alloc, &part.revoked_certificates),
            crl_extensions,
        },
        signature_algorithm: crl.signature_algorithm.try_clone(alloc)?,
        signature: crl.signature.try_clone(alloc)?,
    })
}

/// The rules of RFC 5280 5.1 to 5.3 that the CRL breaks, in the order of `crl_rules` in `specs/Rules.antt`: those on its
/// fields, then those on its extensions, then those on the extensions of its entries; in each of these by section.
///
/// # Errors
///
/// `Memory` when out of memory, and nothing else.
pub fn lint_crl(alloc: Global, crl: &CertificateList<Raw>) -> Result<Vec<Rule>, Error>
    ensures ok { IfOk result (λ findings. AreCrlFindings crl.now findings.items) }
    ensures err { IfErr result (λ e. e.kind ≡ Memory) }
{
    let front = front_of(alloc, crl)?;
    let entries = facts_of_entries(alloc, crl.tbs_cert_list.entries())?;
    let parts = parts_of(alloc, &front, entries)?;
    broken_rules(alloc, &front, &parts)
}

/// The same of a CRL that stands here without its entries, of which the octets are the elements.
pub(crate) fn lint_split(
    alloc: Global,
    front: &CertificateList<Raw>,
    octets: &[u8],
) -> Result<Vec<Rule>, Error>
    requires { IsOk (read_entries octets.now) }
    ensures ok { IfOk result (λ findings. (list : lists.CertificateList Raw) → IsSplit list front.now octets.now → AreCrlFindings list findings.items) }
    ensures err { IfErr result (λ e. e.kind ≡ Memory) }
{
    let entries = facts_of_elements(alloc, octets)?;
    let parts = parts_of(alloc, front, entries)?;
    broken_rules(alloc, front, &parts)
}
