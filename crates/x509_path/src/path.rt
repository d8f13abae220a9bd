//! Checking a path.

ghost use Rattle.std.specs.Prelude.{◌≡◌, ◌⊎◌, map, Contains, Err, IfOk, List, ℕ};
ghost use Rattle.x509_path.specs.Lent.{HasMany, LendsAnchor};
ghost use Rattle.x509_path.specs.Path.{Answers};
ghost use Rattle.x509_path.specs.declared.anchor.Anchor as anchors;
ghost use Rattle.x509_path.specs.declared.fault.PathFault.TheVariants.{Memory};

use crate::anchor::Anchor;
use crate::anchor_ref::AnchorRef;
use crate::extensions::path_len;
use crate::fault::PathFault;
use crate::judge::{Judge, Place, is_self_issued};
use crate::lengths::narrow;
use crate::trust::{Slices, Trust, Values};
use crate::verifier::{SliceVerifier, Verifier};
use std::alloc::{AllocError, Global};
use x509_base::DateTime;

/// The octets of each input, lent.
fn slices(alloc: Global, inputs: &[Vec<u8>]) -> Result<Vec<&[u8]>, AllocError>
    ensures { IfOk result (λ lent. map (λ input. input.now) lent.items ≡ map (λ input. input.items) inputs.now) }
{
    let mut lent = Vec::with_capacity(alloc, inputs.len())?;
    for input in inputs {
        lent.push(input.as_slice())?;
    }
    Ok(lent)
}

/// Checks the certificates of a path under the anchor.
fn walk<T: Trust>(
    alloc: Global,
    trust: &T,
    path: &[&[u8]],
    moment: DateTime,
) -> Result<(), PathFault>
    ensures answers { (anchor : anchors.Anchor) → T.is_anchor trust.now anchor
        → Answers (T.accepts trust.now) moment anchor (map (λ input. input.now) path.now) result }
    ensures memory { result ≡ Err Memory → T.takes_memory ⊎ ((input : List ℕ) × Contains (map (λ input. input.now) path.now) input × HasMany input) }
{
    if path.is_empty() {
        return Err(PathFault::Empty);
    }
    let judge = Judge {
        alloc,
        trust,
        moment,
    };
    let mut above: Option<AnchorRef<'_>> = None;
    let mut max_path_length: Option<u32> = None;
    for (index, bytes) in path.iter().enumerate() {
        let is_last = index + 1 == path.len();
        let place = Place {
            above,
            max_path_length,
            is_last,
        };
        match judge.judge(&place, bytes, index) {
            Ok(judged) => {
                let is_own = is_self_issued(&judged.certificate);
                max_path_length = narrow(max_path_length, is_own, path_len(judged.constraints));
                above = Some(AnchorRef::from_certificate(&judged.certificate));
            }
            Err(e) => return Err(e),
        }
    }
    Ok(())
}

/// Checks the certificates of a path, the topmost first, at that time (RFC 5280 6.1): the first under the anchor's name
/// and key, each other one under the subject and the key of the one before it. Each signature is verified over the
/// bytes of the input; nothing is encoded again. It goes over the path once, and certificates aren't decoded: values are
/// made of what the verifier is handed and of the first issuer's name, and memory is taken else only for a certificate of
/// more than 16 extensions and for a slice of each input.
///
/// # Errors
///
/// [`PathFault::Empty`] exactly where there is no certificate; else [`PathFault::At`] with the lowest place at which
/// something is wrong, and the first thing that is wrong there, in the order of [`PathReason`](crate::PathReason).
/// [`PathFault::Memory`] may come instead, when out of memory.
pub fn check_path<V: Verifier>(
    alloc: Global,
    anchor: &Anchor,
    path: &[Vec<u8>],
    moment: DateTime,
    verifier: &V,
) -> Result<(), PathFault>
    ensures { Answers (V.accepts verifier.now) moment anchor.now (map (λ input. input.items) path.now) result }
{
    if path.is_empty() {
        return Err(PathFault::Empty);
    }
    match slices(alloc, path) {
        Ok(lent) => check_path_slices(alloc, anchor, lent.as_slice(), moment, verifier),
        Err(_) => Err(PathFault::Memory),
    }
}

/// [`check_path`] of certificates whose bytes are lent.
///
/// # Errors
///
/// Those of [`check_path`].
pub fn check_path_slices<V: Verifier>(
    alloc: Global,
    anchor: &Anchor,
    path: &[&[u8]],
    moment: DateTime,
    verifier: &V,
) -> Result<(), PathFault>
    ensures { Answers (V.accepts verifier.now) moment anchor.now (map (λ input. input.now) path.now) result }
{
    let trust = Values {
        anchor: Some(anchor),
        verifier,
    };
    walk(alloc, &trust, path, moment)
}

/// [`check_path_slices`] under an anchor that is lent, with a verifier that is handed encodings. Memory is taken only for
/// a certificate of more than 16 extensions, whose OIDs are sorted.
///
/// # Errors
///
/// Those of [`check_path`]; [`PathFault::Memory`] only where some input is a certificate of more than 16 extensions.
pub fn check_path_lent<V: SliceVerifier>(
    alloc: Global,
    anchor: &AnchorRef<'_>,
    path: &[&[u8]],
    moment: DateTime,
    verifier: &V,
) -> Result<(), PathFault>
    ensures answers { (value : anchors.Anchor) → LendsAnchor anchor.now value
        → Answers (V.accepts verifier.now) moment value (map (λ input. input.now) path.now) result }
    ensures memory { result ≡ Err Memory → (input : List ℕ) × Contains (map (λ input. input.now) path.now) input × HasMany input }
{
    let trust = Slices { anchor, verifier };
    walk(alloc, &trust, path, moment)
}
