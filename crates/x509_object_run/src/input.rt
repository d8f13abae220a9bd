//! The bytes of an object in an input.

ghost use Rattle.std.specs.Prelude.{◌≡◌, IfOk, map, not};
ghost use Rattle.std.specs.Option.{option_map};
ghost use Rattle.x509_object_run.specs.Object.{digits_of, is_between, object_bytes, one_of, text_bytes};
ghost use Rattle.x509_tool_run.specs.Pem.{pem_objects};

use hex::FromHexError;
use std::alloc::{AllocError, Global};
use x509_tool_run::pem_objects;

/// Whether a character isn't one that may stand between the digits of hex text: white space, or a colon.
fn is_digit(byte: &u8) -> bool
    ensures { result ≡ not (is_between byte.now) }
{
    !(byte.is_ascii_whitespace() || *byte == b':')
}

/// These characters.
fn digits_of(alloc: Global, input: &[u8]) -> Result<Vec<u8>, AllocError>
    ensures { IfOk result (λ digits. digits.items ≡ digits_of input.now) }
{
    let mut digits = Vec::from_slice(alloc, input)?;
    digits.retain(is_digit);
    Ok(digits)
}

/// The object of the PEM (RFC 7468) of an input, where it has one and no other, whatever its label is.
fn pem_object(alloc: Global, input: &[u8]) -> Result<Option<Vec<u8>>, AllocError>
    ensures { IfOk result (λ found. option_map (λ object. object.items) found ≡ one_of (pem_objects input.now)) }
{
    let Some(mut objects) = pem_objects(alloc, input)? else {
        return Ok(None);
    };
    match objects.as_slice() {
        [_] => Ok(objects.pop()),
        _ => Ok(None),
    }
}

/// The bytes of hex text, with white space and colons wherever they stand; else the input itself.
pub(crate) fn text_bytes(alloc: Global, input: Vec<u8>) -> Result<Vec<u8>, AllocError>
    ensures { IfOk result (λ bytes. bytes.items ≡ text_bytes input.items) }
{
    let digits = digits_of(alloc, input.as_slice())?;
    match hex::decode(alloc, digits.as_slice()) {
        Ok(bytes) => Ok(bytes),
        Err(FromHexError::OutOfMemory) => Err(AllocError),
        Err(_) => Ok(input),
    }
}

/// The bytes that an input is of: those of its PEM, where it has one object; those of its hex digits where it is hex text, with white
/// space and colons wherever they stand; else the input itself. DER of a certificate or a CRL is never PEM or hex text, since it holds control
/// characters.
///
/// # Errors
///
/// `AllocError` when out of memory, and nothing else.
pub fn object_bytes(alloc: Global, input: Vec<u8>) -> Result<Vec<u8>, AllocError>
    ensures { IfOk result (λ bytes. bytes.items ≡ object_bytes input.items) }
{
    match pem_object(alloc, input.as_slice())? {
        Some(object) => Ok(object),
        None => text_bytes(alloc, input),
    }
}
