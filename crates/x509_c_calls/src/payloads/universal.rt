//! The text of a UniversalString.

ghost use Rattle.std.specs.Prelude.{◌≡◌, None, Some, IfOk, IfErr, MatchOption, string_bytes};
ghost use Rattle.x509_der.specs.declared.error.ErrorKind.TheVariants.{Memory};
ghost use Rattle.x509_c_calls.specs.Universal as grammar;

use std::alloc::Global;
use x509_der::Error;

/// The text of a UniversalString with these content octets (X.690 8.23.7); `None` where no characters have them.
///
/// # Errors
///
/// `Memory` when out of memory.
pub(crate) fn universal_text(alloc: Global, octets: &[u8]) -> Result<Option<String>, Error>
    ensures ok { IfOk result (λ found. MatchOption found (grammar.universal_text octets.now ≡ None)
        (λ text. grammar.universal_text octets.now ≡ Some (string_bytes text))) }
    ensures err { IfErr result (λ e. e.kind ≡ Memory) }
{
    let mut text = String::new(alloc);
    let mut rest = octets;
    while let [first, second, third, fourth, after @ ..] = rest {
        let code = 16_777_216 * *first as u32
            + 65_536 * *second as u32
            + 256 * *third as u32
            + *fourth as u32;
        let Some(c) = char::from_u32(code) else {
            return Ok(None);
        };
        text.push(c)?;
        rest = after;
    }
    if !rest.is_empty() {
        return Ok(None);
    }
    Ok(Some(text))
}
