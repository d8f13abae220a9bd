//! Signatures along a path, apart from all else that is asked of it.

ghost use Rattle.std.specs.List.{All};
ghost use Rattle.std.specs.Prelude.{◌≡◌, ◌↔◌, ◌++◌, ◌∷◌, ◌+◌, ◌≤◌, ◌<◌, [], IfOk, IfSome, IsTrue, MatchResult, OnOk, length};
ghost use Rattle.x509_base.specs.SubjectPublicKeyInfo.{subject_public_key_info};
ghost use Rattle.x509_base.specs.declared.subject_public_key_info.SubjectPublicKeyInfo as keys;
ghost use Rattle.x509_der.specs.Form.{Spells};
ghost use Rattle.x509_path.specs.Certificates as certificates;
ghost use Rattle.x509_path.specs.Certificates.{Accepting};
ghost use Rattle.x509_path.specs.Lent.{Lends};
ghost use Rattle.x509_path_steps.specs.Keys as keyed;
ghost use Rattle.x509_verify.specs.Found.{octets};
ghost use Rattle.x509_verify.specs.Progress.{AreDecodable, IsAnswer, TellsSigned};
ghost use Rattle.x509_verify.specs.declared.progress.Stop.TheVariants as stops;

use crate::progress::{Asked, Stop, take_one};
use std::alloc::{AllocError, Global};
use x509_cert::laws::one_signed_part;
use x509_check::CertificateRef;
use x509_path::SliceVerifier;
use x509_path::certificate::signed_of;
use x509_validation::working_key;

/// What the verifier answered before of the certificate's signature, for the key; `None` where it wasn't asked.
fn answer_before(asked: &[Asked<'_>], certificate: &[u8], key: &[u8]) -> Option<bool>
    ensures { (accepts : Accepting) → All (IsAnswer accepts) asked.now → IfSome result (λ b. (c : certificates.Certificate) (k : keys.SubjectPublicKeyInfo)
        → Lends certificate.now c → Spells subject_public_key_info k key.now → IsTrue b ↔ certificates.IsSigned accepts k certificate.now c) }
{
    for one in asked {
        if one.certificate == certificate && one.key.as_slice() == key {
            return Some(one.is_accepted);
        }
    }
    None
}

/// Whether the verifier accepts the certificate's signature for the key.
fn is_accepted<V: SliceVerifier>(verifier: &V, certificate: &CertificateRef<'_>, key: &[u8]) -> bool
    ensures { (c : certificates.Certificate) (k : keys.SubjectPublicKeyInfo) → Lends certificate.now.bytes.now c → Spells subject_public_key_info k key.now
        → IsTrue result ↔ certificates.IsSigned (V.accepts verifier.now) k certificate.now.bytes.now c }
{
    one_signed_part();
    let signed = signed_of(certificate);
    verifier.verify(signed.algorithm, key, signed.message, signed.signature)
}

/// Adds what was asked.
fn remember<'a>(asked: &mut Vec<Asked<'a>>, one: Asked<'a>) -> Result<(), AllocError>
    ensures { OnOk result (asked.new.items ≡ asked.old.items ++ one.entry ∷ []) }
{
    asked.push(one)?;
    Ok(())
}

/// Whether the certificate's signature is accepted for the key. The verifier is asked where it wasn't before, which counts.
fn ask<'a, V: SliceVerifier>(
    verifier: &V,
    asked: &mut Vec<Asked<'a>>,
    left: &mut u32,
    certificate: &CertificateRef<'a>,
    key: Vec<u8>,
) -> Result<bool, Stop>
    ensures counted { MatchResult result (λ _. left.old ≤ left.new + 1) (λ e. e ≡ stops.Limit → left.old ≡ 0) }
    ensures answers { All (IsAnswer (V.accepts verifier.now)) asked.old.items → IfOk result (λ b. (c : certificates.Certificate) (k : keys.SubjectPublicKeyInfo)
        → Lends certificate.now.bytes.now c → Spells subject_public_key_info k key.items
        → IsTrue b ↔ certificates.IsSigned (V.accepts verifier.now) k certificate.now.bytes.now c) }
    ensures remembered { All (IsAnswer (V.accepts verifier.now)) asked.old.items → OnOk result (All (IsAnswer (V.accepts verifier.now)) asked.new.items) }
{
    let bytes = certificate.as_bytes();
    if let Some(known) = answer_before(asked.as_slice(), bytes, key.as_slice()) {
        return Ok(known);
    }
    take_one(left)?;
    let is_accepted = is_accepted(verifier, certificate, key.as_slice());
    let one = Asked {
        certificate: bytes,
        key,
        is_accepted,
    };
    remember(asked, one)?;
    Ok(is_accepted)
}

/// The key of the certificate as it is used under the key above it.
fn key_below(
    alloc: Global,
    above: &[u8],
    certificate: &CertificateRef<'_>,
) -> Result<Vec<u8>, AllocError>
    ensures { IfOk result (λ key. (c : certificates.Certificate) (k : keys.SubjectPublicKeyInfo) → Lends certificate.now.bytes.now c
        → Spells subject_public_key_info k above.now
        → Spells subject_public_key_info (keyed.working_key k c.tbs_certificate.subject_public_key_info) key.items) }
{
    match working_key(alloc, above, certificate.subject_public_key_info()) {
        Ok(key) => Ok(key),
        Err(_) => Err(AllocError),
    }
}

/// The lowest place of a certificate whose signature isn't accepted for the key above it; `None` where all are. The first stands
/// under the key that is trusted.
pub(crate) fn unsigned_place<'a, V: SliceVerifier>(
    alloc: Global,
    verifier: &V,
    asked: &mut Vec<Asked<'a>>,
    left: &mut u32,
    trusted: &[u8],
    path: &[&'a [u8]],
) -> Result<Option<usize>, Stop>
    requires { AreDecodable (octets path.now) }
    ensures counted { MatchResult result (λ _. left.old ≤ left.new + length path.now) (λ e. e ≡ stops.Limit → left.old < length path.now) }
    ensures tells { (k : keys.SubjectPublicKeyInfo) → Spells subject_public_key_info k trusted.now → All (IsAnswer (V.accepts verifier.now)) asked.old.items
        → IfOk result (λ place. TellsSigned (V.accepts verifier.now) k (octets path.now) place) }
    ensures remembered { All (IsAnswer (V.accepts verifier.now)) asked.old.items → OnOk result (All (IsAnswer (V.accepts verifier.now)) asked.new.items) }
{
    let mut above = Vec::from_slice(alloc, trusted)?;
    for (place, bytes) in path.iter().enumerate() {
        let Ok(certificate) = CertificateRef::from_der(bytes) else {
            unreachable!()
        };
        let below = key_below(alloc, above.as_slice(), &certificate)?;
        if !ask(verifier, asked, left, &certificate, above)? {
            return Ok(Some(place));
        }
        above = below;
    }
    Ok(None)
}
