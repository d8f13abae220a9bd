//! Finding a path.

ghost use Rattle.std.specs.Prelude.{◌≡◌};
ghost use Rattle.x509_verify.specs.Effort.{KeepsLimits};
ghost use Rattle.x509_verify.specs.Found.{Answers, told_by};
ghost use Rattle.x509_verify.specs.Given.{candidates_of, trusted_of};

use crate::anchors::Anchors;
use crate::find_error::FindError;
use crate::found::Found;
use crate::key_ids::issuer_key_id_of;
use crate::limits::SearchLimits;
use crate::pool::{Pool, name_key};
use crate::progress::{Progress, Stop};
use crate::search::Search;
use std::alloc::Global;
use x509_base::Rfc5280;
use x509_check::CertificateRef;
use x509_path::SliceVerifier;
use x509_validation::laws::no_valid_path_ends_in_a_faulty_certificate;
use x509_validation::{PathSettings, last_fault};

/// Why no path is found, where the search came to its end: the refusal that it noted, if there is one.
fn none_found<'a>(progress: Progress<'a>) -> FindError<'a>
    ensures { result ≡ told_by progress.entry.refusal }
{
    let Progress { refusal, .. } = progress;
    match refusal {
        Some(refusal) => FindError::Refused(refusal),
        None => FindError::UnknownIssuer,
    }
}

/// A valid path from what is trusted to the certificate of these bytes (RFC 5280 6.1): one that `validate_path_lent` accepts under one
/// of the anchors, of any candidates in any number and order, none of them twice nor the certificate itself, and at most
/// [`SearchLimits::max_depth`] of them. Where it is said that there is none, there is none, however the candidates are put.
///
/// What is wrong with the certificate in whatever path is told first, and nothing is searched then. The search goes up from the
/// certificate. Above one stand those whose subject matches its issuer (RFC 5280 7.1), which are looked up.
/// Under each anchor of that name what stands below is validated as a whole, with any bits taken for signatures; and where that
/// is valid the signatures are verified, from the topmost down. Shorter paths are tried before longer ones, so that no valid path is
/// shorter than the one that is found. Candidates of one name are tried from the latest on, by `notBefore`; that whose
/// SubjectKeyIdentifier the certificate below names in its AuthorityKeyIdentifier is the first (4.2.1.1, 4.2.1.2). None is ruled out
/// by that.
///
/// The time grows with what is tried, which the limits bound: a certificate that issues itself, loops and cross-signed authorities
/// end there. A path is found only where all that are shorter take no more steps and paths than are allowed. Memory is taken for names, for paths that are tried, and for what the verifier was asked.
///
/// # Errors
///
/// [`FindError::Decode`] exactly where the bytes are the encoding of no certificate. Else [`FindError::Leaf`] exactly where
/// something is wrong with the certificate whatever stands above it, with the first such thing, as
/// [`last_fault`](x509_validation::last_fault) says. Else [`FindError::UnknownIssuer`] or [`FindError::Refused`] only where there is
/// no path, the first only where no candidates lead by their names from an anchor to the certificate, the second with a fault of
/// one that does; and only where to try all paths takes no more steps and paths than are allowed. In place of these
/// [`FindError::Limit`] only where it takes more steps, paths or signatures than are allowed, and, wherever the bytes are those of a
/// certificate, [`FindError::Memory`] when out of memory: these say nothing of whether there is a path.
pub fn find_path<'a, V: SliceVerifier>(
    alloc: Global,
    anchors: &Anchors<'a>,
    pool: &Pool<'a>,
    leaf: &'a [u8],
    settings: &PathSettings<'a>,
    limits: &SearchLimits,
    verifier: &V,
) -> Result<Found<'a>, FindError<'a>>
    ensures bounded { KeepsLimits anchors.now pool.now limits.now leaf.now result }
    ensures answers { Answers (V.accepts verifier.now) (record {
      settings = settings.now;
      trusted = trusted_of anchors.now;
      candidates = candidates_of pool.now;
      max_depth = limits.now.max_depth;
      leaf = leaf.now;
    }) result }
{
    let Ok(certificate) = CertificateRef::<Rfc5280>::from_der(leaf) else {
        return Err(FindError::Decode);
    };
    no_valid_path_ends_in_a_faulty_certificate();
    match last_fault(alloc, &certificate, settings) {
        Ok(Some(reason)) => return Err(FindError::Leaf(reason)),
        Ok(None) => {}
        Err(_) => return Err(FindError::Memory),
    }
    let issuer = match name_key(alloc, certificate.issuer()) {
        Ok(issuer) => issuer,
        Err(_) => return Err(FindError::Memory),
    };
    let mut progress = Progress {
        steps: limits.max_steps,
        paths: limits.max_paths,
        signatures: limits.max_signatures,
        asked: Vec::new(alloc),
        refusal: None,
    };
    let search = Search {
        alloc,
        anchors,
        pool,
        settings,
        verifier,
    };
    let key_id = issuer_key_id_of(&certificate);
    match search.climb_by_length(&mut progress, &[leaf], &issuer, key_id, limits.max_depth) {
        Ok(Some(found)) => Ok(found),
        Ok(None) => Err(none_found(progress)),
        Err(Stop::Memory) => Err(FindError::Memory),
        Err(Stop::Limit) => Err(FindError::Limit),
    }
}
