//! What is asked of the numbers of keys: factors of a modulus that are close together, and points that aren't on their curve.

ghost use Rattle.std.specs.Prelude.{◌≡◌, ◌≤◌, ◌↔◌, IsSomeAnd, IsTrue, length};
ghost use Rattle.x509_lint_web.specs.Number as grammar;

use crate::algorithms::{P256, P384, P521, is_oid_tag};
use x509_base::SubjectPublicKeyInfo;
use x509_der::{Any, SequenceOf};
use x509_numbers::{NistCurve, has_close_factors, is_on_curve};
use x509_prim::Uint;

/// What the numbers of a key show.
#[derive(Clone, Copy)]
pub(crate) struct KeyFacts {
    /// The numbers are those of an RSAPublicKey, and Fermat's factorization factors the modulus.
    pub(crate) has_close_factors: bool,

    /// The octets of the key are an uncompressed point, which isn't on the curve that the parameters name.
    pub(crate) has_point_off_curve: bool,
}

fn has_close_modulus(numbers: &Option<SequenceOf<Uint>>) -> bool
    ensures { IsTrue result ↔ IsSomeAnd numbers.now grammar.HasCloseModulus }
{
    let Some(numbers) = numbers else {
        return false;
    };
    match numbers.as_slice() {
        [modulus, _exponent] => has_close_factors(modulus.as_bytes()),
        _ => false,
    }
}

/// How many octets each coordinate of a point has.
fn coordinate_len(curve: NistCurve) -> usize
    ensures { result ≡ grammar.coordinate_len curve }
{
    match curve {
        NistCurve::P256 => 32,
        NistCurve::P384 => 48,
        NistCurve::P521 => 66,
    }
}

/// Whether x and y, of so many octets each, aren't on the curve.
fn are_off(curve: NistCurve, len: usize, octets: &[u8]) -> bool
    requires { len ≤ length octets.now }
    ensures { IsTrue result ↔ grammar.AreOff curve len octets.now }
{
    let (x, y) = octets.split_at(len);
    !is_on_curve(curve, x, y)
}

/// Whether the octets are an uncompressed point that isn't on the curve.
fn is_point_off(curve: NistCurve, octets: &[u8]) -> bool
    ensures { IsTrue result ↔ grammar.IsPointOff curve octets.now }
{
    let [form, octets @ ..] = octets else {
        return false;
    };
    let len = coordinate_len(curve);
    *form == 4 && (octets.len() == 2 * len && are_off(curve, len, octets))
}

fn curve_of_oid(oid: &[u8]) -> Option<NistCurve>
    ensures { result ≡ grammar.curve_of_oid oid.now }
{
    if oid == P256.as_slice() {
        Some(NistCurve::P256)
    } else if oid == P384.as_slice() {
        Some(NistCurve::P384)
    } else if oid == P521.as_slice() {
        Some(NistCurve::P521)
    } else {
        None
    }
}

/// The curve that the parameters name, of P-256, P-384 and P-521.
fn curve_of(parameters: &Option<Any>) -> Option<NistCurve>
    ensures { result ≡ grammar.curve_of parameters.now }
{
    match parameters {
        Some(parameters) if is_oid_tag(parameters.tag()) => curve_of_oid(parameters.value()),
        _ => None,
    }
}

fn has_point_off(key: &SubjectPublicKeyInfo) -> bool
    ensures { IsTrue result ↔ grammar.HasPointOff key.now }
{
    match curve_of(&key.algorithm.parameters) {
        Some(curve) => is_point_off(curve, key.subject_public_key.raw_bytes()),
        None => false,
    }
}

/// What the numbers of the key show, which are these where its bits are a SEQUENCE OF INTEGER.
pub(crate) fn key_facts(key: &SubjectPublicKeyInfo, numbers: &Option<SequenceOf<Uint>>) -> KeyFacts
    ensures close { IsTrue result.has_close_factors ↔ IsSomeAnd numbers.now grammar.HasCloseModulus }
    ensures off { IsTrue result.has_point_off_curve ↔ grammar.HasPointOff key.now }
{
    KeyFacts {
        has_close_factors: has_close_modulus(numbers),
        has_point_off_curve: has_point_off(key),
    }
}
