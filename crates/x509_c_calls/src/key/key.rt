//! Public keys.

ghost use Rattle.std.specs.Prelude.{◌≡◌, ◌≤◌, ◌++◌, [], drop, length, List, ℕ};
ghost use Rattle.x509_base.specs.AlgorithmIdentifier.{algorithm_identifier};
ghost use Rattle.x509_base.specs.SubjectPublicKeyInfo.{subject_public_key_info};
ghost use Rattle.x509_c_calls.specs.Calls.{Reads};
ghost use Rattle.x509_c_calls.specs.Keys.{IsKey, size_told};
ghost use Rattle.x509_c_calls.specs.Kinds.{named_curve};
ghost use Rattle.x509_c_calls.specs.Optional.{IsPerhapsAt};
ghost use Rattle.x509_der.specs.Form.{spelling};
ghost use Rattle.x509_text.specs.Algorithms.{known_bits};

use crate::key::algorithm::AlgorithmView;
use crate::key::kinds::{KeyKind, names_curve};
use crate::{NOWHERE, Span, Status, View, bits_at, content_at, enter, step};
use std::alloc::Global;
use x509_base::{AlgorithmIdentifier, SubjectPublicKeyInfo};
use x509_der::{Decode, ErrorKind, Grammar};
use x509_text::key_size;

/// A public key with its algorithm (RFC 5280 4.1.2.7), by its place.
#[derive(Clone, Copy)]
#[repr(C)]
pub struct KeyView {
    /// The number of its [`KeyKind`].
    pub kind: u32,

    /// Where the content octets of the OID of its algorithm stand.
    pub oid: Span,

    /// Where the parameters of its algorithm stand, a whole element; both numbers are 0 where they are left out.
    pub parameters: Span,

    /// Where the octets of its bits stand.
    pub bits: Span,

    /// How many bits of the last of these octets are unused, 0 to 7.
    pub unused_bits: u32,

    /// Of a key of an elliptic curve where the content octets of the OID of the curve stand; both numbers are 0 where the
    /// curve isn't named, and of other keys.
    pub curve: Span,

    /// How many bits it has, as [`key_size`] says; 0 where that isn't known.
    pub size: u32,
}

/// Where the octets stand that name the curve of the keys of an algorithm, which stands at the place.
fn curve_at(input: &[u8], place: usize, algorithm: &AlgorithmIdentifier) -> Span
    requires { place ≤ length input.now }
    ensures { (behind : List ℕ) → drop place input.now ≡ spelling algorithm_identifier algorithm.now ++ behind
        → IsPerhapsAt (λ octets. octets) (named_curve algorithm.now) behind input.now result }
{
    if !names_curve(algorithm) {
        return NOWHERE;
    }
    let mut at = place;
    enter(input, &mut at);
    step(input, &mut at, true);
    content_at(input, at)
}

/// A size as a number of 32 bits; 0 where it isn't known.
fn size_told(bits: Option<u128>) -> u32
    ensures { result ≡ size_told bits }
{
    match bits {
        Some(bits) => { if bits < 1 << 32 { bits as u32 } else { 0 } }
        None => 0,
    }
}

/// What is said of a key of this size, whose bytes begin at the place.
fn view_of(input: &[u8], place: usize, key: &SubjectPublicKeyInfo, size: u32) -> KeyView
    requires { place ≤ length input.now }
    ensures { (behind : List ℕ) → drop place input.now ≡ spelling subject_public_key_info key.now ++ behind → size ≡ size_told (known_bits key.now)
        → IsKey input.now key.now behind result }
{
    let mut at = place;
    enter(input, &mut at);
    let algorithm = AlgorithmView::view(input, at, &key.algorithm);
    let curve = curve_at(input, at, &key.algorithm);
    step(input, &mut at, true);
    KeyView {
        kind: KeyKind::of(&key.algorithm).number(),
        oid: algorithm.oid,
        parameters: algorithm.parameters,
        bits: bits_at(input, at),
        unused_bits: u32::from(key.subject_public_key.unused_bits()),
        curve,
        size,
    }
}

/// Reads a public key with its algorithm, and fills in of which kind and size it is and where its parts stand.
///
/// # Errors
///
/// As [`Decode::from_der`]; `Memory` when out of memory. The view is unchanged then.
#[tactic(auto, unfolding(crate::specs::Calls::Reads))]
pub fn key_view(alloc: Global, input: &[u8], view: &mut KeyView) -> Status
    ensures { Reads ⟦<SubjectPublicKeyInfo as Grammar>⟧.form ⟦<SubjectPublicKeyInfo as Grammar>⟧.refuses input.now
        (λ key. IsKey input.now key [] view.new) (view.new ≡ view.old) result }
{
    let key = match SubjectPublicKeyInfo::from_der(alloc, input) {
        Ok(key) => key,
        Err(e) => return e.into(),
    };
    match key_size(alloc, &key) {
        Ok(bits) => {
            *view = view_of(input, 0, &key, size_told(bits));
            Status::Done
        }
        Err(_) => Status::Refused(ErrorKind::Memory),
    }
}
