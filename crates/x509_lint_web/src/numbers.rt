//! What is asked of the modulus and the exponent of RSA keys.

ghost use Rattle.std.specs.Option.{option_copied};
ghost use Rattle.std.specs.Prelude.{◌≡◌, ◌==◌, ◌%◌, nat_lt};
ghost use Rattle.x509_lint.specs.Words.{passes};
ghost use Rattle.x509_lint_web.specs.Factor.{has_small_factor};
ghost use Rattle.x509_lint_web.specs.Key as grammar;

use crate::factors::has_small_factor;
use x509_der::SequenceOf;
use x509_lint::passes;
use x509_prim::Uint;

/// Whether there is an octet, and its highest bit isn't set.
fn is_low(octet: Option<&u8>) -> bool
    ensures { result ≡ passes (λ octet. nat_lt octet 128) (option_copied octet.entry) }
{
    passes!(octet, octet => *octet < 128)
}

/// Whether there is an octet, and it is even.
fn is_even_octet(octet: Option<&u8>) -> bool
    ensures { result ≡ passes (λ octet. octet % 2 == 0) (option_copied octet.entry) }
{
    passes!(octet, octet => *octet % 2 == 0)
}

fn is_uneven(octets: &[u8]) -> bool
    ensures { result ≡ grammar.is_uneven octets.now }
{
    is_low(octets.first())
}

fn is_short(octets: &[u8]) -> bool
    ensures { result ≡ grammar.is_short octets.now }
{
    octets.len() < 256 || (octets.len() == 256 && is_uneven(octets))
}

fn is_even(octets: &[u8]) -> bool
    ensures { result ≡ grammar.is_even octets.now }
{
    is_even_octet(octets.last())
}

fn is_no_exponent(octets: &[u8]) -> bool
    ensures { result ≡ grammar.is_no_exponent octets.now }
{
    is_even(octets) || octets == [1].as_slice()
}

fn is_outside(octets: &[u8]) -> bool
    ensures { result ≡ grammar.is_outside octets.now }
{
    octets.len() < 3 || (octets == [1, 0, 0].as_slice() || octets.len() > 32)
}

/// Whether the modulus has fewer than 2048 bits.
pub(crate) fn has_short_modulus(numbers: &Option<SequenceOf<Uint>>) -> bool
    ensures { result ≡ passes (grammar.first_passes grammar.is_short) numbers.now }
{
    let Some(numbers) = numbers else {
        return false;
    };
    match numbers.as_slice() {
        [modulus, _exponent] => is_short(modulus.as_bytes()),
        _ => false,
    }
}

/// Whether the number of bits of the modulus isn't divisible by 8.
pub(crate) fn has_uneven_modulus(numbers: &Option<SequenceOf<Uint>>) -> bool
    ensures { result ≡ passes (grammar.first_passes grammar.is_uneven) numbers.now }
{
    let Some(numbers) = numbers else {
        return false;
    };
    match numbers.as_slice() {
        [modulus, _exponent] => is_uneven(modulus.as_bytes()),
        _ => false,
    }
}

/// Whether the modulus is even.
pub(crate) fn has_even_modulus(numbers: &Option<SequenceOf<Uint>>) -> bool
    ensures { result ≡ passes (grammar.first_passes grammar.is_even) numbers.now }
{
    let Some(numbers) = numbers else {
        return false;
    };
    match numbers.as_slice() {
        [modulus, _exponent] => is_even(modulus.as_bytes()),
        _ => false,
    }
}

/// Whether a prime from 3 to 751 divides the modulus.
pub(crate) fn has_divided_modulus(numbers: &Option<SequenceOf<Uint>>) -> bool
    ensures { result ≡ passes (grammar.first_passes has_small_factor) numbers.now }
{
    let Some(numbers) = numbers else {
        return false;
    };
    match numbers.as_slice() {
        [modulus, _exponent] => has_small_factor(modulus.as_bytes()),
        _ => false,
    }
}

/// Whether the exponent is even, or below 3.
pub(crate) fn has_no_exponent(numbers: &Option<SequenceOf<Uint>>) -> bool
    ensures { result ≡ passes (grammar.second_passes grammar.is_no_exponent) numbers.now }
{
    let Some(numbers) = numbers else {
        return false;
    };
    match numbers.as_slice() {
        [_modulus, exponent] => is_no_exponent(exponent.as_bytes()),
        _ => false,
    }
}

/// Whether the exponent isn't between 2^16 + 1 and 2^256 - 1.
pub(crate) fn has_outside_exponent(numbers: &Option<SequenceOf<Uint>>) -> bool
    ensures { result ≡ passes (grammar.second_passes grammar.is_outside) numbers.now }
{
    let Some(numbers) = numbers else {
        return false;
    };
    match numbers.as_slice() {
        [_modulus, exponent] => is_outside(exponent.as_bytes()),
        _ => false,
    }
}
