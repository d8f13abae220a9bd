//! What names hold.

ghost use Rattle.std.specs.Prelude.{◌≡◌, ◌≤◌, ◌<◌, ◌+◌};
ghost use Rattle.x509_c_calls.specs.Attributes.{IsAttribute};
ghost use Rattle.x509_c_calls.specs.Cursor.{Steps};
ghost use Rattle.x509_c_calls.specs.FirstAttribute.{FindsAttribute};
ghost use Rattle.x509_c_calls.specs.NamesMatch.{TellsWhetherNamesEqual, TellsWhetherNamesMatch};
ghost use Rattle.x509_c_calls.specs.Status.{Tells};
ghost use Rattle.x509_c_calls.specs.declared.status.status.Status.TheVariants.{Refused};
ghost use Rattle.x509_der.specs.declared.error.ErrorKind.TheVariants.{Malformed, Memory};
ghost use Rattle.x509_name.specs.Names.{relative_distinguished_name};

use std::alloc::Global;
use x509_c_calls::{
    AttributeView, Span, element_next, member_next, member_under_next, name_attribute, names_equal,
    names_match,
};
use x509_der::{Decode, Grammar, Tag};
use x509_name::attr::AttributeTypeAndValue;
use x509_name::name::{Name, RelativeDistinguishedName};

/// Fills in where the next relative distinguished name of a name stands.
#[unsafe(no_mangle)]
pub extern "C" fn x509_name_next(
    alloc: Global,
    input: &[u8],
    at: &mut usize,
    found: &mut Span,
) -> i32
    ensures { Tells (λ status. Steps relative_distinguished_name (λ e. ⊥) Unit 48 input.now at.old at.new
        (λ rdn behind span. found.new ≡ span) (found.new ≡ found.old) status) result }
{
    element_next::<RelativeDistinguishedName>(alloc, Tag::Sequence, input, at, found).code()
}

/// Fills in the next attribute of a relative distinguished name.
#[unsafe(no_mangle)]
pub extern "C" fn x509_relative_name_next(
    alloc: Global,
    input: &[u8],
    at: &mut usize,
    found: &mut AttributeView,
) -> i32
    ensures { Tells (λ status. Steps ⟦<AttributeTypeAndValue as Grammar>⟧.form ⟦<AttributeTypeAndValue as Grammar>⟧.refuses
        ⟦<AttributeTypeAndValue as Decode>⟧.wants_memory 49 input.now at.old at.new
        (λ attribute behind span. IsAttribute input.now attribute behind found.new) (found.new ≡ found.old) status) result }
{
    member_next::<AttributeView>(alloc, Tag::Set, input, at, found).code()
}

/// Fills in the next attribute of a relative distinguished name under an implicit tag.
#[unsafe(no_mangle)]
pub extern "C" fn x509_relative_name_under_next(
    alloc: Global,
    number: u32,
    input: &[u8],
    at: &mut usize,
    found: &mut AttributeView,
) -> i32
    ensures { Tells (λ status. (number ≤ 30 → Steps ⟦<AttributeTypeAndValue as Grammar>⟧.form ⟦<AttributeTypeAndValue as Grammar>⟧.refuses
        ⟦<AttributeTypeAndValue as Decode>⟧.wants_memory (160 + number) input.now at.old at.new
        (λ attribute behind span. IsAttribute input.now attribute behind found.new) (found.new ≡ found.old) status)
        × (30 < number → (status ≡ Refused Malformed) × (at.new ≡ at.old) × (found.new ≡ found.old))) result }
{
    member_under_next::<AttributeView>(alloc, number, input, at, found).code()
}

/// Decodes a name, and fills in its first attribute whose type has the OID with these content octets.
#[unsafe(no_mangle)]
pub extern "C" fn x509_name_find(
    alloc: Global,
    input: &[u8],
    oid: &[u8],
    found: &mut AttributeView,
) -> i32
    ensures { Tells (λ status. FindsAttribute ⟦<Name as Grammar>⟧.form ⟦<Name as Grammar>⟧.refuses input.now oid.now found.old found.new status) result }
{
    name_attribute(alloc, input, oid, found).code()
}

/// Fills in whether two encoded names match (RFC 5280 7.1): 1 where they do, else 0.
#[unsafe(no_mangle)]
pub extern "C" fn x509_names_match(alloc: Global, a: &[u8], b: &[u8], matches: &mut u32) -> i32
    ensures { Tells (λ status. TellsWhetherNamesMatch ⟦<Name as Grammar>⟧.form ⟦<Name as Grammar>⟧.refuses a.now b.now matches.old matches.new status
        × (a.now ≡ b.now → status ≡ Refused Memory → ⊥)) result }
{
    names_match(alloc, a, b, matches).code()
}

/// Fills in whether two encoded names are equal byte for byte: 1 where they are, else 0.
#[unsafe(no_mangle)]
pub extern "C" fn x509_names_equal(a: &[u8], b: &[u8], equal: &mut u32) -> i32
    ensures { Tells (λ status. TellsWhetherNamesEqual ⟦<Name as Grammar>⟧.form ⟦<Name as Grammar>⟧.refuses a.now b.now equal.old equal.new status
        × (status ≡ Refused Memory → ⊥)) result }
{
    names_equal(a, b, equal).code()
}
