//! Algorithms and public keys (RFC 5280 4.1.1.2, 4.1.2.7).

ghost use Rattle.std.specs.Prelude.{◌≡◌, ◌++◌, OnOk, IfOk, Some, string_bytes};
ghost use Rattle.x509_text.specs.Algorithms as algorithms;

use crate::line::{Place, write_line};
use crate::show::value_of;
use crate::values::{oid_text, write_any, write_bits, write_oid};
use std::alloc::{AllocError, Global};
use x509_base::{AlgorithmIdentifier, SubjectPublicKeyInfo};
use x509_der::{Any, ErrorKind, ObjectIdentifier, SequenceOf};
use x509_prim::Uint;

/// Writes the parameters of an algorithm, where there are any.
fn write_parameters(
    alloc: Global,
    at: Place,
    parameters: &Option<Any>,
    out: &mut String,
) -> Result<(), AllocError>
    ensures { OnOk result (string_bytes out.new ≡ string_bytes out.old ++ algorithms.parameters_line at parameters.now) }
{
    match parameters {
        Some(parameters) => write_any(alloc, at, "parameters", parameters, out),
        None => Ok(()),
    }
}

/// Writes an algorithm and its parameters.
#[tactic(auto, unfolding(crate::specs::Algorithms::algorithm_lines))]
pub(crate) fn write_algorithm(
    alloc: Global,
    at: Place,
    label: &str,
    algorithm: &AlgorithmIdentifier,
    out: &mut String,
) -> Result<(), AllocError>
    ensures { OnOk result (string_bytes out.new ≡ string_bytes out.old ++ algorithms.algorithm_lines at label.now algorithm.now) }
{
    write_oid(alloc, at, label, &algorithm.oid, out)?;
    write_parameters(alloc, at.below(), &algorithm.parameters, out)
}

/// How many bits an octet has from its highest bit that is set.
pub fn bits_of_octet(octet: u8) -> u8
    ensures { result ≡ algorithms.bits_of_octet octet }
{
    match octet {
        0 => 0,
        1 => 1,
        2..=3 => 2,
        4..=7 => 3,
        8..=15 => 4,
        16..=31 => 5,
        32..=63 => 6,
        64..=127 => 7,
        _ => 8,
    }
}

/// How many bits a number has, by its octets without leading zeros; the number 0 has none.
fn bit_count(octets: &[u8]) -> u128
    ensures { result ≡ algorithms.bit_count octets.now }
{
    match octets {
        [first, rest @ ..] => u128::from(bits_of_octet(*first)) + 8 * rest.len() as u128,
        [] => 0,
    }
}

/// How many bits the first of two numbers has.
fn first_bits(numbers: &[Uint]) -> Option<u128>
    ensures { result ≡ algorithms.first_bits numbers.now }
{
    match numbers {
        [modulus, _exponent] => Some(bit_count(modulus.as_bytes())),
        _ => None,
    }
}

/// How many bits the modulus of an RSA key has (RFC 8017 A.1.1).
#[tactic(auto, unfolding(crate::specs::Algorithms::modulus_bits))]
fn modulus_bits(alloc: Global, octets: &[u8]) -> Result<Option<u128>, AllocError>
    ensures { IfOk result (λ bits. bits ≡ algorithms.modulus_bits octets.now) }
{
    match value_of::<SequenceOf<Uint>>(alloc, octets)? {
        Some(numbers) => Ok(first_bits(numbers.as_slice())),
        None => Ok(None),
    }
}

/// How many bits the first of three numbers has.
fn first_of_three(numbers: &[Uint]) -> Option<u128>
    ensures { result ≡ algorithms.bits_of_prime (Some numbers.now) }
{
    match numbers {
        [prime, _divisor, _base] => Some(bit_count(prime.as_bytes())),
        _ => None,
    }
}

/// How many bits the prime of a DSA key has, by the parameters of its algorithm (RFC 3279 2.3.2).
#[tactic(auto, unfolding(crate::specs::Algorithms::prime_bits))]
fn prime_bits(alloc: Global, parameters: &Option<Any>) -> Result<Option<u128>, AllocError>
    ensures { IfOk result (λ bits. bits ≡ algorithms.prime_bits parameters.now) }
{
    let Some(parameters) = parameters else {
        return Ok(None);
    };
    match parameters.decode_as::<SequenceOf<Uint>>(alloc) {
        Ok(numbers) => Ok(first_of_three(numbers.as_slice())),
        Err(e) => match e.kind() {
            ErrorKind::Memory => Err(AllocError),
            _ => Ok(None),
        },
    }
}

/// How many bits the field of a curve has, by its name.
fn curve_bits(name: &str) -> Option<u128>
    ensures { result ≡ algorithms.curve_bits name.now }
{
    match name {
        "secp192r1" => Some(192),
        "secp224r1" => Some(224),
        "secp256r1" => Some(256),
        "secp256k1" => Some(256),
        "brainpoolP256r1" => Some(256),
        "secp384r1" => Some(384),
        "brainpoolP384r1" => Some(384),
        "brainpoolP512r1" => Some(512),
        "secp521r1" => Some(521),
        _ => None,
    }
}

/// How many bits the curve has that parameters name.
#[tactic(auto, unfolding(crate::specs::Algorithms::parameters_bits))]
fn parameters_bits(alloc: Global, parameters: &Option<Any>) -> Result<Option<u128>, AllocError>
    ensures { IfOk result (λ bits. bits ≡ algorithms.parameters_bits parameters.now) }
{
    let Some(parameters) = parameters else {
        return Ok(None);
    };
    match parameters.decode_as::<ObjectIdentifier>(alloc) {
        Ok(oid) => {
            let name = oid_text(alloc, &oid)?;
            Ok(curve_bits(name.as_str()))
        }
        Err(e) => match e.kind() {
            ErrorKind::Memory => Err(AllocError),
            _ => Ok(None),
        },
    }
}

/// How many bits a key has, where that is known of its algorithm, which has this name: those of the modulus, of the prime or of the field.
#[tactic(auto, unfolding(crate::specs::Algorithms::key_bits))]
fn key_bits(
    alloc: Global,
    name: &str,
    key: &SubjectPublicKeyInfo,
) -> Result<Option<u128>, AllocError>
    ensures { IfOk result (λ bits. bits ≡ algorithms.key_bits name.now key.now) }
{
    match name {
        "rsaEncryption" => modulus_bits(alloc, key.subject_public_key.raw_bytes()),
        "id-RSASSA-PSS" => modulus_bits(alloc, key.subject_public_key.raw_bytes()),
        "id-dsa" => prime_bits(alloc, &key.algorithm.parameters),
        "id-ecPublicKey" => parameters_bits(alloc, &key.algorithm.parameters),
        "id-X25519" => Ok(Some(256)),
        "id-Ed25519" => Ok(Some(256)),
        "id-X448" => Ok(Some(448)),
        "id-Ed448" => Ok(Some(456)),
        _ => Ok(None),
    }
}

/// How many bits a key has, where that is known: those of the modulus of an RSA key (RFC 8017 A.1.1), of the prime of a DSA key whose algorithm has parameters
/// (RFC 3279 2.3.2), of the field of an elliptic curve that has a name here (RFC 5480 2.1.1), and of a key of RFC 8410 as many as its octets have.
///
/// # Errors
///
/// `AllocError` when out of memory, and nothing else.
pub fn key_size(alloc: Global, key: &SubjectPublicKeyInfo) -> Result<Option<u128>, AllocError>
    ensures { IfOk result (λ bits. bits ≡ algorithms.known_bits key.now) }
{
    let name = oid_text(alloc, &key.algorithm.oid)?;
    key_bits(alloc, name.as_str(), key)
}

/// Writes how many bits a key has, where that is known.
#[tactic(auto, unfolding(crate::specs::Algorithms::size_line))]
fn write_size(
    alloc: Global,
    at: Place,
    bits: Option<u128>,
    out: &mut String,
) -> Result<(), AllocError>
    ensures { OnOk result (string_bytes out.new ≡ string_bytes out.old ++ algorithms.size_line at bits) }
{
    match bits {
        Some(bits) => {
            let text = format!(in alloc; "{bits} bits")?;
            write_line(alloc, at, "key size", text.as_str(), out)
        }
        None => Ok(()),
    }
}

/// Writes the size and the bits of a key.
#[tactic(auto, unfolding(crate::specs::Algorithms::bits_of_key))]
fn write_key_bits(
    alloc: Global,
    at: Place,
    key: &SubjectPublicKeyInfo,
    out: &mut String,
) -> Result<(), AllocError>
    ensures { OnOk result (string_bytes out.new ≡ string_bytes out.old ++ algorithms.bits_of_key at key.now) }
{
    let bits = key_size(alloc, key)?;
    write_size(alloc, at, bits, out)?;
    write_bits(alloc, at, "key", &key.subject_public_key, out)
}

/// Writes a public key: its algorithm, its size and its bits.
#[tactic(auto, unfolding(crate::specs::Algorithms::key_lines))]
pub(crate) fn write_key(
    alloc: Global,
    at: Place,
    key: &SubjectPublicKeyInfo,
    out: &mut String,
) -> Result<(), AllocError>
    ensures { OnOk result (string_bytes out.new ≡ string_bytes out.old ++ algorithms.key_lines at key.now) }
{
    write_algorithm(alloc, at, "key algorithm", &key.algorithm, out)?;
    write_key_bits(alloc, at, key, out)
}
