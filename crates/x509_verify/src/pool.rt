//! Candidates for a path, looked up by subject.

ghost use Rattle.std.specs.List.{All};
ghost use Rattle.std.specs.Prelude.{◌≡◌, IfOk, IsPermutation};
ghost use Rattle.x509_der.specs.Form.{Spells};
ghost use Rattle.x509_match.specs.NameKeys.{IsNameKey};
ghost use Rattle.x509_name.specs.Names.{name};
ghost use Rattle.x509_path.specs.Certificates as certificates;
ghost use Rattle.x509_path.specs.Lent.{Lends};
ghost use Rattle.x509_verify.specs.Keyed.{IsInOrder};
ghost use Rattle.x509_verify.specs.Named.{IsUnderSubject, Name};

use crate::candidate::Candidate;
use crate::key_ids::{issuer_key_id_of, key_id_of};
use crate::keyed::{Keyed, in_order};
use std::alloc::{AllocError, Global};
use x509_check::CertificateRef;
use x509_match::MatchedName;

/// Candidates for the certificates of a path between what is trusted and the last one, in the order of their subjects: those of one
/// subject are found in time that grows with the logarithm of how many there are, the latest first. They are made once, and serve
/// any number of searches.
#[derive(Drop)]
pub struct Pool<'a> {
    pub(crate) entries: Vec<Keyed<MatchedName, Candidate<'a>>>,
    ghost order: { IsInOrder ⟦<MatchedName as Ord>⟧.cmp entries.items },
    ghost named: { ∥ All IsUnderSubject entries.items ∥₁ },
}

/// The key of the name of which these are the octets, which were checked.
pub(crate) fn name_key(alloc: Global, octets: &[u8]) -> Result<MatchedName, AllocError>
    ensures { IfOk result (λ key. (x : Name) → Spells name x octets.now → IsNameKey key x) }
{
    match MatchedName::from_der(alloc, octets) {
        Ok(key) => Ok(key),
        Err(_) => Err(AllocError),
    }
}

/// The certificate under its subject.
fn entry_of<'a>(
    alloc: Global,
    certificate: CertificateRef<'a>,
) -> Result<Keyed<MatchedName, Candidate<'a>>, AllocError>
    ensures under { (c : certificates.Certificate) → Lends certificate.entry.bytes.now c → IfOk result (λ entry. IsUnderSubject entry) }
    ensures bytes { IfOk result (λ entry. entry.value.certificate.bytes.now ≡ certificate.entry.bytes.now) }
{
    let key = name_key(alloc, certificate.subject())?;
    let issuer = name_key(alloc, certificate.issuer())?;
    Ok(Keyed {
        key,
        value: Candidate {
            certificate,
            issuer,
            key_id: key_id_of(&certificate),
            issuer_key_id: issuer_key_id_of(&certificate),
            not_before: certificate.validity().not_before.to_date_time(),
        },
    })
}

/// The candidates, those first that are valid from the latest moment on.
fn latest_first<'a>(
    entries: Vec<Keyed<MatchedName, Candidate<'a>>>,
) -> Result<Vec<Keyed<MatchedName, Candidate<'a>>>, AllocError>
    ensures { IfOk result (λ sorted. IsPermutation entries.entry.items sorted.items) }
{
    let mut sorted = entries;
    sorted.sort_by(|a, b| b.value.not_before.cmp(&a.value.not_before))?;
    Ok(sorted)
}

impl<'a> Pool<'a> {
    ghost use Rattle.std.specs.Prelude.{◌↔◌, ◌≢◌, ℕ, List, Contains, IfOk, map};
    ghost use Rattle.x509_verify.specs.Given.{candidates_of};
    ghost use Rattle.x509_verify.specs.Named.{IsDecodable};

    /// Those of the candidates that are the encodings of certificates: no other can stand in a path. Names are compared as they
    /// match (RFC 5280 7.1).
    ///
    /// # Errors
    ///
    /// When out of memory.
    pub fn new(alloc: Global, candidates: &[&'a [u8]]) -> Result<Pool<'a>, AllocError>
        ensures { IfOk result (λ pool. (bytes : List ℕ) → Contains (map (λ entry. entry.value.certificate.bytes.now) pool.entries.items) bytes
            ↔ (Contains (map (λ one. one.now) candidates.now) bytes × IsDecodable bytes)) }
    {
        let mut entries = Vec::new(alloc);
        for bytes in candidates {
            if let Ok(certificate) = CertificateRef::from_der(bytes) {
                entries.push(entry_of(alloc, certificate)?)?;
            }
        }
        Ok(Pool {
            entries: in_order(latest_first(entries)?)?,
        })
    }

    /// The candidates but this certificate, for a search that leaves it out.
    ///
    /// # Errors
    ///
    /// When out of memory.
    pub fn without(&self, alloc: Global, certificate: &[u8]) -> Result<Pool<'a>, AllocError>
        ensures { IfOk result (λ rest. (bytes : List ℕ) → Contains (candidates_of rest) bytes ↔ (Contains (candidates_of self.now) bytes × (bytes ≢ certificate.now))) }
    {
        let known = self.entries.as_slice();
        let mut entries = Vec::new(alloc);
        for place in 0..known.len() {
            let candidate = &known[place].value;
            if candidate.certificate.as_bytes() != certificate {
                entries.push(entry_of(alloc, candidate.certificate)?)?;
            }
        }
        Ok(Pool {
            entries: in_order(entries)?,
        })
    }
}
