//! The search, from the certificate up.

ghost use Rattle.std.specs.Prelude.{◌≡◌, ◌∷◌, ◌↔◌, ℕ, Contains, IfOk, IsTrue};
ghost use Rattle.x509_verify.specs.Found.{octets};

use crate::anchors::Anchors;
use crate::candidate::{in_turn, start_of};
use crate::found::Found;
use crate::keyed::under_key;
use crate::pool::Pool;
use crate::progress::{Progress, Stop, note, take_one};
use crate::signatures::unsigned_place;
use std::alloc::{AllocError, Global};
use x509_base::Rfc5280;
use x509_cert::laws::signed_bytes_spell_the_signed_part;
use x509_match::MatchedName;
use x509_match::laws::keys_are_equal_where_names_match;
use x509_name::laws::bytes_determine_the_name;
use x509_path::{AnySignature, SliceVerifier};
use x509_validation::laws::signatures_of_validated_paths_may_be_verified_apart;
use x509_validation::{
    PathSettings, Trusted, ValidationFault, ValidationReason, validate_path_lent,
};

/// What is searched: for paths from what is trusted, over candidates.
#[derive(Drop)]
pub(crate) struct Search<'s, 'a, V> {
    pub(crate) alloc: Global,

    /// What is trusted.
    pub(crate) anchors: &'s Anchors<'a>,

    /// The candidates.
    pub(crate) pool: &'s Pool<'a>,

    /// What a path has to be.
    pub(crate) settings: &'s PathSettings<'a>,

    /// The verifier of signatures.
    pub(crate) verifier: &'s V,
}

/// Whether the bytes stand in the path.
fn is_in(path: &[&[u8]], bytes: &[u8]) -> bool
    ensures { IsTrue result ↔ Contains (octets path.now) bytes.now }
{
    for one in path {
        if *one == bytes {
            return true;
        }
    }
    false
}

/// The path with the bytes above it.
fn put_above<'a>(
    alloc: Global,
    bytes: &'a [u8],
    path: &[&'a [u8]],
) -> Result<Vec<&'a [u8]>, AllocError>
    ensures { IfOk result (λ longer. octets longer.items ≡ bytes.now ∷ octets path.now) }
{
    let mut longer = Vec::with_capacity(alloc, path.len() + 1)?;
    longer.push(bytes)?;
    longer.extend_from_slice(path)?;
    Ok(longer)
}

impl<'s, 'a, V: SliceVerifier> Search<'s, 'a, V> {
    ghost use Rattle.std.specs.List.{All};
    ghost use Rattle.std.specs.Prelude.{◌≡◌, ◌∷◌, ◌+◌, ◌*◌, [], ℕ, suc, Contains, MatchOption, MatchResult, None, length};
    ghost use Rattle.x509_path_steps.specs.declared.trusted.Trusted as trusts;
    ghost use Rattle.x509_verify.specs.Effort.{anchored, effort, effort_below};
    ghost use Rattle.x509_verify.specs.Found.{Wanted, octets};
    ghost use Rattle.x509_verify.specs.Progress as searches;
    ghost use Rattle.x509_verify.specs.Progress.{AreDecodable, IsOnPath, IsRight, IsSearched, KnowsIssuer};

    /// The path under what is trusted, if it is valid.
    fn attempt(
        &self,
        progress: &mut Progress<'a>,
        trusted: &Trusted<'a>,
        path: &[&'a [u8]],
    ) -> Result<Option<Found<'a>>, Stop>
        requires { AreDecodable (octets path.now) }
        ensures counted { searches.Spends (searches.left_of progress.old) (searches.left_of progress.new) (record { steps = 0; paths = 1; signatures = length path.now }) result }
        ensures long { searches.FindsLong (length path.now) result }
        ensures tells { (wanted : Wanted) → wanted.settings ≡ self.now.settings.now → Contains wanted.trusted trusted.now → IsOnPath wanted (octets path.now) 0
            → IsRight (V.accepts self.now.verifier.now) wanted progress.old → MatchResult result
            (λ found. searches.Continues (V.accepts self.now.verifier.now) wanted progress.old progress.new
            (searches.IsTriedUnder (V.accepts self.now.verifier.now) wanted trusted.now (octets path.now) progress.new.refusal) found) (λ _. Unit) }
    {
        signatures_of_validated_paths_may_be_verified_apart();
        signed_bytes_spell_the_signed_part::<Rfc5280>();
        take_one(&mut progress.paths)?;
        let validated = match validate_path_lent(
            self.alloc,
            trusted,
            path,
            self.settings,
            &AnySignature,
        ) {
            Ok(validated) => validated,
            Err(fault) => {
                if fault == ValidationFault::Memory {
                    return Err(Stop::Memory);
                }
                note(self.alloc, &mut progress.refusal, trusted, path, fault)?;
                return Ok(None);
            }
        };
        let unsigned = unsigned_place(
            self.alloc,
            self.verifier,
            &mut progress.asked,
            &mut progress.signatures,
            trusted.anchor.key,
            path,
        )?;
        if let Some(place) = unsigned {
            let fault = ValidationFault::At {
                place,
                reason: ValidationReason::Signature,
            };
            note(self.alloc, &mut progress.refusal, trusted, path, fault)?;
            return Ok(None);
        }
        Ok(Some(Found {
            trusted: *trusted,
            path: Vec::from_slice(self.alloc, path)?,
            validated,
        }))
    }

    /// The path under one of what is trusted under the name of this key, if it is valid.
    fn attempt_all(
        &self,
        progress: &mut Progress<'a>,
        path: &[&'a [u8]],
        issuer: &MatchedName,
    ) -> Result<Option<Found<'a>>, Stop>
        requires { AreDecodable (octets path.now) }
        ensures counted { searches.Spends (searches.left_of progress.old) (searches.left_of progress.new) (record {
          steps = 0;
          paths = anchored self.now.anchors.now issuer.now;
          signatures = anchored self.now.anchors.now issuer.now * length path.now;
        }) result }
        ensures long { searches.FindsLong (length path.now) result }
        ensures tells { (wanted : Wanted) → IsSearched self.now.settings.now self.now.anchors.now self.now.pool.now wanted → IsOnPath wanted (octets path.now) 0
            → KnowsIssuer (octets path.now) issuer.now → IsRight (V.accepts self.now.verifier.now) wanted progress.old → MatchResult result
            (λ found. searches.Continues (V.accepts self.now.verifier.now) wanted progress.old progress.new
            (searches.AreTried (V.accepts self.now.verifier.now) wanted (octets path.now) progress.new.refusal) found) (λ _. Unit) }
    {
        bytes_determine_the_name();
        keys_are_equal_where_names_match();
        let named = under_key(self.anchors.entries.as_slice(), issuer);
        for entry in named {
            if let Some(found) = self.attempt(progress, &entry.value, path)? {
                return Ok(Some(found));
            }
        }
        Ok(None)
    }

    /// A valid path that ends in this one, the issuer of whose topmost certificate has this key, with so many candidates more above it.
    /// Where that certificate names the identifier of the issuer's key, a candidate that has it is tried first.
    pub(crate) fn climb(
        &self,
        progress: &mut Progress<'a>,
        path: &[&'a [u8]],
        issuer: &MatchedName,
        key_id: Option<&[u8]>,
        left: u16,
    ) -> Result<Option<Found<'a>>, Stop>
        requires { AreDecodable (octets path.now) }
        ensures counted { searches.Spends (searches.left_of progress.old) (searches.left_of progress.new) (effort self.now.anchors.now self.now.pool.now (length path.now + left) left (octets path.now) issuer.now) result }
        ensures long { searches.FindsLong (length path.now + left) result }
        ensures tells { (wanted : Wanted) → IsSearched self.now.settings.now self.now.anchors.now self.now.pool.now wanted → IsOnPath wanted (octets path.now) left
            → KnowsIssuer (octets path.now) issuer.now → IsRight (V.accepts self.now.verifier.now) wanted progress.old → MatchResult result
            (λ found. searches.Continues (V.accepts self.now.verifier.now) wanted progress.old progress.new
            (searches.IsTried (V.accepts self.now.verifier.now) wanted (octets path.now) left progress.new.refusal) found) (λ _. Unit) }
    {
        let Some(fewer) = left.checked_sub(1) else {
            return self.attempt_all(progress, path, issuer);
        };
        bytes_determine_the_name();
        keys_are_equal_where_names_match();
        let named = under_key(self.pool.entries.as_slice(), issuer);
        let count = named.len();
        let start = start_of(named, key_id);
        for place in 0..count {
            let candidate = &named[in_turn(place, start, count)].value;
            let bytes = candidate.certificate.as_bytes();
            if !is_in(path, bytes) {
                take_one(&mut progress.steps)?;
                let longer = put_above(self.alloc, bytes, path)?;
                let found = self.climb(
                    progress,
                    longer.as_slice(),
                    &candidate.issuer,
                    candidate.issuer_key_id,
                    fewer,
                )?;
                if let Some(found) = found {
                    return Ok(Some(found));
                }
            }
        }
        Ok(None)
    }

    /// A shortest valid path over this one, the issuer of whose topmost certificate has this key, with at most so many candidates above it.
    pub(crate) fn climb_by_length(
        &self,
        progress: &mut Progress<'a>,
        path: &[&'a [u8]],
        issuer: &MatchedName,
        key_id: Option<&[u8]>,
        max_depth: u8,
    ) -> Result<Option<Found<'a>>, Stop>
        requires { AreDecodable (octets path.now) }
        ensures counted { searches.Spends (searches.left_of progress.old) (searches.left_of progress.new)
            (effort_below self.now.anchors.now self.now.pool.now (suc max_depth) (octets path.now) issuer.now) result }
        ensures shorter { searches.FindsBehind (length path.now) (λ count. effort_below self.now.anchors.now self.now.pool.now count (octets path.now) issuer.now) (searches.left_of progress.old) result }
        ensures tells { (wanted : Wanted) → IsSearched self.now.settings.now self.now.anchors.now self.now.pool.now wanted
            → wanted.max_depth ≡ max_depth → octets path.now ≡ wanted.leaf ∷ []
            → KnowsIssuer (octets path.now) issuer.now → All (searches.IsAnswer (V.accepts self.now.verifier.now)) progress.old.asked.items
            → progress.old.refusal ≡ None → MatchResult result
            (λ found. IsRight (V.accepts self.now.verifier.now) wanted progress.new × searches.EndsSearch (V.accepts self.now.verifier.now) wanted progress.new.refusal found)
            (λ _. Unit) }
    {
        for depth in 0..u16::from(max_depth) + 1 {
            if let Some(found) = self.climb(progress, path, issuer, key_id, depth)? {
                return Ok(Some(found));
            }
        }
        Ok(None)
    }
}
