//! Whether names match whose encodings have been checked.

ghost use Rattle.std.specs.Prelude.{◌≡◌, ◌↔◌, IfOk, IsOk, IsTrue, List, Ok, true};
ghost use Rattle.x509_der.specs.Form.{Spells};
ghost use Rattle.x509_match.specs.Matching.{NamesMatch};
ghost use Rattle.x509_match.specs.Plain.{IsPlainName};
ghost use Rattle.x509_name.specs.Names.{name};
ghost use Rattle.x509_name.specs.declared.attr.type_and_value.AttributeTypeAndValue.{AttributeTypeAndValue};

use crate::lent::{front_content, lists_match};
use std::alloc::{AllocError, Global};
use x509_name::laws::bytes_determine_the_name;

/// Whether the names match whose encodings these are, as [`names_match`](crate::names_match) answers. The encodings have been checked: of other
/// octets the answer says nothing.
///
/// # Errors
///
/// When out of memory, only where the encodings differ, and a value is a BMPString, a UniversalString or a UTF8String beyond ASCII, or an RDN
/// has more than [`MAX_IN_PLACE`](crate::MAX_IN_PLACE) attributes.
pub fn checked_names_match(alloc: Global, a: &[u8], b: &[u8]) -> Result<bool, AllocError>
    ensures same { (x y : List (List AttributeTypeAndValue)) → Spells name x a.now → Spells name y b.now
        → IfOk result (λ same. IsTrue same ↔ NamesMatch x y) }
    ensures plain { (x y : List (List AttributeTypeAndValue)) → Spells name x a.now → Spells name y b.now
        → IsPlainName x → IsPlainName y → IsOk result }
    ensures equal { a.now ≡ b.now → result ≡ Ok true }
{
    if a == b {
        bytes_determine_the_name();
        return Ok(true);
    }
    let (left, _) = front_content(a);
    let (right, _) = front_content(b);
    lists_match(alloc, left, right)
}
