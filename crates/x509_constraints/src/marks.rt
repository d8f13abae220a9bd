//! Attributes that can't be compared, by their types and where they stand in names.

ghost use Rattle.std.specs.Prelude.{◌≡◌, ◌++◌, ◌||◌, List, ℕ, IfOk, OnOk};
ghost use Rattle.std.specs.List.{flat_map, list_any};
ghost use Rattle.x509_constraints.specs.Marks as marks;
ghost use Rattle.x509_constraints.specs.Marks.{base_marks, marks_of, marks_of_base, mark_at, name_marks};
ghost use Rattle.x509_constraints.specs.Prefixes.{has_prefix};
ghost use Rattle.x509_constraints.specs.Stacks as stacks;

use crate::email::push_stopped;
use crate::key::Key;
use crate::prefixes::Prefixes;
use crate::stacks::{in_some, push_alternative};
use std::alloc::{AllocError, Global};
use x509_ext::pkix::constraints::name::GeneralSubtree;
use x509_ext::pkix::name::GeneralName;
use x509_match::is_compared;
use x509_name::attr::AttributeTypeAndValue;
use x509_name::name::{Name, RelativeDistinguishedName};

/// How many RDNs stand in front, as symbols.
fn push_place(key: &mut Key, place: usize) -> Result<(), AllocError>
    ensures { OnOk result (key.new ≡ key.old ++ marks.place_symbols place) }
{
    key.push((place / 65536 / 65536 / 65536) as u16)?;
    key.push((place / 65536 / 65536 % 65536) as u16)?;
    key.push((place / 65536 % 65536) as u16)?;
    key.push((place % 65536) as u16)
}

/// The key of a type at a place, and of whether its value can be compared.
fn mark(alloc: Global, place: usize, compared: bool, oid: &[u8]) -> Result<Key, AllocError>
    ensures { IfOk result (λ key. key ≡ marks.mark place compared oid.now) }
{
    let mut key = Key::new(alloc);
    push_place(&mut key, place)?;
    key.push(if compared { 1 } else { 0 })?;
    push_stopped(&mut key, oid)?;
    Ok(key)
}

/// Adds the keys of what a name must not have there where the attribute is a subtree's.
fn push_marks_against(
    alloc: Global,
    keys: &mut Vec<Key>,
    place: usize,
    attribute: &AttributeTypeAndValue,
) -> Result<(), AllocError>
    ensures { OnOk result (keys.new.items ≡ keys.old.items ++ marks.marks_against place attribute.now) }
{
    let oid = attribute.oid.as_bytes();
    keys.push(mark(alloc, place, false, oid)?)?;
    if !is_compared(alloc, attribute)? {
        keys.push(mark(alloc, place, true, oid)?)?;
    }
    Ok(())
}

/// Adds those of an RDN.
fn push_rdn_marks(
    alloc: Global,
    keys: &mut Vec<Key>,
    place: usize,
    rdn: &[AttributeTypeAndValue],
) -> Result<(), AllocError>
    ensures { OnOk result (keys.new.items ≡ keys.old.items ++ flat_map (λ b. marks.marks_against place b) rdn.now) }
{
    for attribute in rdn {
        push_marks_against(alloc, keys, place, attribute)?;
    }
    Ok(())
}

/// Adds those of a base.
fn push_base_marks(
    alloc: Global,
    keys: &mut Vec<Key>,
    base: &[RelativeDistinguishedName],
) -> Result<(), AllocError>
    ensures { OnOk result (keys.new.items ≡ keys.old.items ++ base_marks 0 base.now) }
{
    for i in 0..base.len() {
        push_rdn_marks(alloc, keys, i, base[i].as_slice())?;
    }
    Ok(())
}

/// The keys of what a name must not have where the subtrees are excluded.
fn marks_of(alloc: Global, subtrees: &[GeneralSubtree]) -> Result<Vec<Key>, AllocError>
    ensures { IfOk result (λ keys. keys.items ≡ marks_of subtrees.now) }
{
    let mut keys: Vec<Key> = Vec::new(alloc);
    for subtree in subtrees {
        push_marks(alloc, &mut keys, &subtree.base)?;
    }
    Ok(keys)
}

/// Adds those of a base of any form.
fn push_marks(alloc: Global, keys: &mut Vec<Key>, base: &GeneralName) -> Result<(), AllocError>
    ensures { OnOk result (keys.new.items ≡ keys.old.items ++ marks_of_base base.now) }
{
    match base {
        GeneralName::DirectoryName(name) => {
            push_base_marks(alloc, keys, name.as_ref().as_slice())
        }
        _ => Ok(()),
    }
}

/// Applies the marks of excluded subtrees.
pub(crate) fn add_marks(
    alloc: Global,
    sets: &mut Vec<Prefixes>,
    subtrees: &[GeneralSubtree],
) -> Result<(), AllocError>
    ensures { OnOk result ((key : List ℕ) → stacks.in_some sets.new.items key ≡ (stacks.in_some sets.old.items key || has_prefix (marks_of subtrees.now) key)) }
{
    let keys = marks_of(alloc, subtrees)?;
    if keys.is_empty() {
        return Ok(());
    }
    let set = Prefixes::new(alloc, keys)?;
    push_alternative(alloc, sets, set)
}

/// Whether the attribute stands where the sets have a mark against it.
fn is_marked(
    alloc: Global,
    sets: &[Prefixes],
    place: usize,
    attribute: &AttributeTypeAndValue,
) -> Result<bool, AllocError>
    ensures { IfOk result (λ b. b ≡ stacks.in_some sets.now (mark_at place attribute.now)) }
{
    let compared = is_compared(alloc, attribute)?;
    let key = mark(alloc, place, compared, attribute.oid.as_bytes())?;
    Ok(in_some(sets, &key))
}

/// Whether one of an RDN does.
fn has_marked(
    alloc: Global,
    sets: &[Prefixes],
    place: usize,
    rdn: &[AttributeTypeAndValue],
) -> Result<bool, AllocError>
    ensures { IfOk result (λ b. b ≡ list_any (λ a. stacks.in_some sets.now (mark_at place a)) rdn.now) }
{
    for attribute in rdn {
        if is_marked(alloc, sets, place, attribute)? {
            return Ok(true);
        }
    }
    Ok(false)
}

/// Whether one of a directory name does.
pub(crate) fn has_marks_in_name(
    alloc: Global,
    sets: &[Prefixes],
    name: &Name,
) -> Result<bool, AllocError>
    ensures { IfOk result (λ b. b ≡ list_any (stacks.in_some sets.now) (name_marks 0 name.now)) }
{
    if sets.is_empty() {
        return Ok(false);
    }
    let rdns: &[RelativeDistinguishedName] = name.as_ref().as_slice();
    for i in 0..rdns.len() {
        if has_marked(alloc, sets, i, rdns[i].as_slice())? {
            return Ok(true);
        }
    }
    Ok(false)
}

/// Whether the name is a directory name of which one does.
pub(crate) fn has_marks(
    alloc: Global,
    sets: &[Prefixes],
    name: &GeneralName,
) -> Result<bool, AllocError>
    ensures { IfOk result (λ b. b ≡ list_any (stacks.in_some sets.now) (marks.marks_in name.now)) }
{
    match name {
        GeneralName::DirectoryName(name) => has_marks_in_name(alloc, sets, name),
        _ => Ok(false),
    }
}
