//! A search for a path whose certificates are let through by their statuses.

ghost use Rattle.std.specs.Prelude.{◌≡◌, ◌++◌, ◌∷◌, [], ℕ, List};
ghost use Rattle.x509_trust.specs.Peers.{asked_above};
ghost use Rattle.x509_trust.specs.Searched.{told_behind};
ghost use Rattle.x509_verify.specs.Found.{octets};

use crate::candidates::Candidates;
use crate::error::VerifyError;
use crate::revocation::{RevocationCheck, RevocationScope};
use crate::statuses::first_refused;
use std::alloc::Global;
use x509_path::SliceVerifier;
use x509_revocation::laws::one_status;
use x509_validation::PathSettings;
use x509_verify::{Anchors, FindError, Found, Pool, SearchLimits, find_path};

/// Those certificates of a path above the last one that are asked for their statuses.
fn above_last<'s, 'a>(scope: RevocationScope, path: &'s [&'a [u8]]) -> &'s [&'a [u8]]
    ensures { (above : List (List ℕ)) (leaf : List ℕ) → octets path.now ≡ above ++ leaf ∷ [] → octets result.now ≡ asked_above scope above }
{
    match (scope, path) {
        (RevocationScope::Path, [above @ .., _]) => above,
        _ => &[],
    }
}

/// What is told where a search without a refused certificate answers that: what it answers, but where it says that there is no path,
/// the refusal.
fn told_behind<'a>(
    searched: Result<Found<'a>, VerifyError<'a>>,
    refusal: VerifyError<'a>,
) -> Result<Found<'a>, VerifyError<'a>>
    ensures { result ≡ told_behind refusal.entry searched.entry }
{
    match searched {
        Ok(found) => Ok(found),
        Err(VerifyError::Path(FindError::Memory)) => Err(VerifyError::Path(FindError::Memory)),
        Err(VerifyError::Path(FindError::Limit)) => Err(VerifyError::Path(FindError::Limit)),
        Err(VerifyError::TooManyRefused) => Err(VerifyError::TooManyRefused),
        Err(_) => Err(refusal),
    }
}

/// What is searched for.
#[derive(Drop)]
pub(crate) struct Search<'s, 'a, V> {
    pub(crate) alloc: Global,

    /// What is trusted.
    pub(crate) anchors: &'s Anchors<'a>,

    /// The certificate.
    pub(crate) leaf: &'a [u8],

    /// What its path has to be.
    pub(crate) path: &'s PathSettings<'a>,

    /// How long a path is searched for.
    pub(crate) limits: &'s SearchLimits,

    /// The verifier of signatures.
    pub(crate) verifier: &'s V,
}

impl<'s, 'a, V: SliceVerifier> Search<'s, 'a, V> {
    ghost use Rattle.std.specs.Prelude.{List, Some};
    ghost use Rattle.x509_revocation.specs.Lent.{LendsAll};
    ghost use Rattle.x509_revocation.specs.Says.{GivenCrl};
    ghost use Rattle.x509_trust.specs.Limits.{KeepsWithout, OfPaths};
    ghost use Rattle.x509_trust.specs.Peers.{AnswersPath};
    ghost use Rattle.x509_trust.specs.Searched.{AnswersAbove, pool_of};
    ghost use Rattle.x509_verify.specs.Given.{candidates_of, trusted_of};

    /// A path over the candidates whose certificates above the last one are let through, if they are asked for their statuses. Up to
    /// so many of them are left out for their statuses.
    fn find(
        &self,
        check: &RevocationCheck<'_, '_, '_>,
        candidates: Candidates<'_, 'a>,
        left: u8,
    ) -> Result<Found<'a>, VerifyError<'a>>
        ensures bounded { (given : List GivenCrl) → LendsAll check.now.crls.now given
            → OfPaths (KeepsWithout (V.accepts self.now.verifier.now) check.now given self.now.anchors.now self.now.limits.now self.now.leaf.now left (pool_of candidates.entry)) result }
        ensures answers { (given : List GivenCrl) → LendsAll check.now.crls.now given → AnswersAbove (V.accepts self.now.verifier.now) (record {
          settings = self.now.path.now;
          trusted = trusted_of self.now.anchors.now;
          candidates = candidates_of (pool_of candidates.entry);
          max_depth = self.now.limits.now.max_depth;
          leaf = self.now.leaf.now;
        }) check.now given left result }
    {
        one_status();
        let pool = candidates.pool();
        let found = match find_path(
            self.alloc,
            self.anchors,
            pool,
            self.leaf,
            self.path,
            self.limits,
            self.verifier,
        ) {
            Ok(found) => found,
            Err(e) => return Err(VerifyError::Path(e)),
        };
        let above = above_last(check.scope, found.path.as_slice());
        let refused = match first_refused(self.alloc, check, above, self.verifier) {
            Ok(None) => return Ok(found),
            Ok(Some(refused)) => refused,
            Err(_) => return Err(VerifyError::Path(FindError::Memory)),
        };
        let Some(fewer) = left.checked_sub(1) else {
            return Err(VerifyError::TooManyRefused);
        };
        let rest = match pool.without(self.alloc, refused.certificate) {
            Ok(rest) => rest,
            Err(_) => return Err(VerifyError::Path(FindError::Memory)),
        };
        drop(found);
        drop(candidates);
        let refusal = VerifyError::Revocation(refused);
        told_behind(self.find(check, Candidates::Left(rest), fewer), refusal)
    }

    /// A path over the candidates whose certificates are let through, as far as they are asked for their statuses.
    pub(crate) fn find_unrevoked(
        &self,
        check: &RevocationCheck<'_, '_, '_>,
        pool: &Pool<'a>,
    ) -> Result<Found<'a>, VerifyError<'a>>
        ensures bounded { (given : List GivenCrl) → LendsAll check.now.crls.now given
            → OfPaths (KeepsWithout (V.accepts self.now.verifier.now) check.now given self.now.anchors.now self.now.limits.now self.now.leaf.now check.now.max_refused pool.now) result }
        ensures answers { (given : List GivenCrl) → LendsAll check.now.crls.now given → AnswersPath (V.accepts self.now.verifier.now) (record {
          settings = self.now.path.now;
          trusted = trusted_of self.now.anchors.now;
          candidates = candidates_of pool.now;
          max_depth = self.now.limits.now.max_depth;
          leaf = self.now.leaf.now;
        }) (Some check.now) given result }
    {
        one_status();
        let found = match self.find(check, Candidates::Given(pool), check.max_refused) {
            Ok(found) => found,
            Err(e) => return Err(e),
        };
        match first_refused(self.alloc, check, &[self.leaf], self.verifier) {
            Ok(None) => Ok(found),
            Ok(Some(refused)) => Err(VerifyError::Revocation(refused)),
            Err(_) => Err(VerifyError::Path(FindError::Memory)),
        }
    }
}
