//! A certificate, verified as a peer's.

ghost use Rattle.std.specs.Prelude.{List};
ghost use Rattle.x509_revocation.specs.Says.{GivenCrl};
ghost use Rattle.x509_trust.specs.Limits.{KeepsPeer, OfPaths};
ghost use Rattle.x509_trust.specs.Peers.{AnswersPeer, LendsCrls};
ghost use Rattle.x509_verify.specs.Given.{candidates_of, trusted_of};

use crate::error::VerifyError;
use crate::peer::names_peer;
use crate::search::Search;
use crate::settings::VerifySettings;
use std::alloc::Global;
use x509_base::Rfc5280;
use x509_check::CertificateRef;
use x509_path::SliceVerifier;
use x509_verify::{Anchors, FindError, Found, Pool, find_path};

/// A path from what is trusted to the certificate of these bytes, where it is that of the peer: it names the peer
/// ([`matches_name`](x509_peer::matches_name), [`matches_email`](x509_peer::matches_email)), the path is one that
/// [`find_path`] answers for, and each certificate of it that is asked for its status is let through: by
/// [`revocation_status`](x509_revocation::revocation_status) it isn't revoked, and where the CRLs don't say, the settings let it
/// through. No such path is shorter. Where it is said that there is none, there is none.
///
/// A path with a certificate that isn't let through doesn't end the search: the next one is over the candidates without it. Each is
/// over at most all candidates and within the limits, and there is at most one more than [`max_refused`](crate::RevocationCheck)
/// says. The status of the certificate itself is asked last, once. Memory is taken as [`find_path`] and `revocation_status` do.
///
/// # Errors
///
/// [`VerifyError::Path`] with [`FindError::Decode`] exactly where the bytes are the encoding of no certificate. Else
/// [`VerifyError::OtherName`] exactly where it doesn't name the peer. Else [`VerifyError::Path`] where no path is valid, whatever
/// the statuses are, with what [`find_path`] tells; [`VerifyError::Revocation`] where a path is valid, and each that is has a
/// certificate that isn't let through. In place of these, where nothing is said of whether there is a path:
/// [`VerifyError::TooManyRefused`] only where more candidates aren't let through than may be left out; [`VerifyError::Path`] with
/// [`FindError::Limit`] only where a search over all candidates, or over those without some that aren't let through, takes more
/// than is allowed, and with [`FindError::Memory`] when out of memory.
pub fn verify_peer<'a, V: SliceVerifier>(
    alloc: Global,
    anchors: &Anchors<'a>,
    pool: &Pool<'a>,
    leaf: &'a [u8],
    settings: &VerifySettings<'_, '_, '_, '_, 'a>,
    verifier: &V,
) -> Result<Found<'a>, VerifyError<'a>>
    ensures bounded { (given : List GivenCrl) → LendsCrls settings.now.revocation given
        → OfPaths (KeepsPeer (V.accepts verifier.now) settings.now.revocation given anchors.now settings.now.limits leaf.now pool.now) result }
    ensures answers { (given : List GivenCrl) → LendsCrls settings.now.revocation given → AnswersPeer (V.accepts verifier.now) (record {
      settings = settings.now.path;
      trusted = trusted_of anchors.now;
      candidates = candidates_of pool.now;
      max_depth = settings.now.limits.max_depth;
      leaf = leaf.now;
    }) settings.now.name settings.now.revocation given result }
{
    let Ok(certificate) = CertificateRef::<Rfc5280>::from_der(leaf) else {
        return Err(VerifyError::Path(FindError::Decode));
    };
    if !names_peer(&certificate, &settings.name) {
        return Err(VerifyError::OtherName);
    }
    let search = Search {
        alloc,
        anchors,
        leaf,
        path: &settings.path,
        limits: &settings.limits,
        verifier,
    };
    match &settings.revocation {
        Some(check) => search.find_unrevoked(check, pool),
        None => match find_path(
            alloc,
            anchors,
            pool,
            leaf,
            &settings.path,
            &settings.limits,
            verifier,
        ) {
            Ok(found) => Ok(found),
            Err(e) => Err(VerifyError::Path(e)),
        },
    }
}
