//! Whether encoded names match.

ghost use Rattle.std.specs.Prelude.{◌≡◌, ◌⊎◌, ◌↔◌, IfOk, IfErr, IsTrue, List, Ok, true};
ghost use Rattle.x509_der.specs.Form.{Spells};
ghost use Rattle.x509_der.specs.declared.error.ErrorKind.TheVariants as errors;
ghost use Rattle.x509_match.specs.Matching.{NamesMatch};
ghost use Rattle.x509_name.specs.Names.{name};
ghost use Rattle.x509_name.specs.declared.attr.type_and_value.AttributeTypeAndValue.{AttributeTypeAndValue};

use crate::names::names_match;
use std::alloc::Global;
use x509_der::{Decode, Error, ErrorKind};
use x509_name::laws::bytes_determine_the_name;
use x509_name::name::Name;

/// Whether the names match whose encodings these are, as [`names_match`] answers. Equal encodings are compared without
/// memory.
///
/// # Errors
///
/// Where both are encodings of names, `Memory` alone, when out of memory. Else an error of `Name::from_der`, unless the
/// octets are the same.
pub fn encoded_names_match(alloc: Global, a: &[u8], b: &[u8]) -> Result<bool, Error>
    ensures same { (x y : List (List AttributeTypeAndValue)) → Spells name x a.now → Spells name y b.now
        → IfOk result (λ same. IsTrue same ↔ NamesMatch x y) }
    ensures err { (x y : List (List AttributeTypeAndValue)) → Spells name x a.now → Spells name y b.now
        → IfErr result (λ e. e.kind ≡ errors.Memory) }
    ensures named { IfOk result (λ same. (a.now ≡ b.now) ⊎ ((x : List (List AttributeTypeAndValue)) × (y : List (List AttributeTypeAndValue))
        × Spells name x a.now × Spells name y b.now)) }
    ensures equal { a.now ≡ b.now → result ≡ Ok true }
{
    if a == b {
        bytes_determine_the_name();
        return Ok(true);
    }
    let left = Name::from_der(alloc, a)?;
    let right = Name::from_der(alloc, b)?;
    match names_match(alloc, &left, &right) {
        Ok(same) => Ok(same),
        Err(_) => Err(ErrorKind::Memory.into()),
    }
}
