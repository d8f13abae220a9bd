//! General names that match.

ghost use Rattle.std.specs.Option.{option_copied};
ghost use Rattle.std.specs.Prelude.{◌≡◌, ◌↔◌, IfOk, IsTrue};
ghost use Rattle.x509_der.specs.Form.{Spells};
ghost use Rattle.x509_match.specs.Matching.{NamesMatch};
ghost use Rattle.x509_name.specs.Names as grammar;
ghost use Rattle.x509_revocation.specs.Names.{GeneralNamesMatch, HasMatch, HaveMatch, Name, directory_name};

use std::alloc::{AllocError, Global};
use x509_der::Decode;
use x509_ext::pkix::name::GeneralName;
use x509_match::{checked_names_match, names_match};
use x509_name::name::Name;

/// The directory name; `None` of another name.
pub(crate) fn directory_name(name: &GeneralName) -> Option<&Name>
    ensures { option_copied result ≡ directory_name name.now }
{
    let GeneralName::DirectoryName(name) = name else {
        return None;
    };
    Some(name)
}

/// The name whose encoding this is, which was checked.
pub(crate) fn decoded(alloc: Global, bytes: &[u8]) -> Result<Name, AllocError>
    ensures { IfOk result (λ found. (name : Name) → Spells grammar.name name bytes.now → found ≡ name) }
{
    match Name::from_der(alloc, bytes) {
        Ok(name) => Ok(name),
        Err(_) => Err(AllocError),
    }
}

/// Whether the names match of which these are the encodings, which were checked.
pub(crate) fn encoded_match(alloc: Global, a: &[u8], b: &[u8]) -> Result<bool, AllocError>
    ensures { IfOk result (λ same. (x y : Name) → Spells grammar.name x a.now → Spells grammar.name y b.now → IsTrue same ↔ NamesMatch x y) }
{
    match checked_names_match(alloc, a, b) {
        Ok(same) => Ok(same),
        Err(_) => Err(AllocError),
    }
}

/// Whether the names match.
fn general_names_match(alloc: Global, a: &GeneralName, b: &GeneralName) -> Result<bool, AllocError>
    ensures { IfOk result (λ same. IsTrue same ↔ GeneralNamesMatch a.now b.now) }
{
    let Some(x) = directory_name(a) else {
        return Ok(a == b);
    };
    let Some(y) = directory_name(b) else {
        return Ok(a == b);
    };
    names_match(alloc, x, y)
}

/// Whether one of the others matches the name.
pub(crate) fn has_match(
    alloc: Global,
    name: &GeneralName,
    others: &[GeneralName],
) -> Result<bool, AllocError>
    ensures { IfOk result (λ found. IsTrue found ↔ HasMatch name.now others.now) }
{
    let mut rest = others;
    while let [other, behind @ ..] = rest {
        if general_names_match(alloc, name, other)? {
            return Ok(true);
        }
        rest = behind;
    }
    Ok(false)
}

/// Whether one of the names matches one of the others.
pub(crate) fn have_match(
    alloc: Global,
    names: &[GeneralName],
    others: &[GeneralName],
) -> Result<bool, AllocError>
    ensures { IfOk result (λ found. IsTrue found ↔ HaveMatch names.now others.now) }
{
    let mut rest = names;
    while let [name, behind @ ..] = rest {
        if has_match(alloc, name, others)? {
            return Ok(true);
        }
        rest = behind;
    }
    Ok(false)
}
