//! The keys with which those of the names begin that subtrees have.

ghost use Rattle.std.specs.Prelude.{◌≡◌, ◌++◌, ◌∷◌, [], ◌&&◌, ◌||◌, List, ℕ, IfOk, OnOk};
ghost use Rattle.x509_constraints.specs.Email.{email_prefix};
ghost use Rattle.x509_constraints.specs.Keys.{host_prefix};
ghost use Rattle.x509_constraints.specs.Prefixes.{has_prefix};
ghost use Rattle.x509_constraints.specs.Stacks.{in_all, in_some};
ghost use Rattle.x509_constraints.specs.SubtreeKeys.{base_prefixes, distinguished_key, excluded_by, excluded_prefixes, has_none, open_form, permitted_prefixes, prefixes_of};

use crate::address::push_ip_prefixes;
use crate::distinguished::push_name;
use crate::email::push_email_prefix;
use crate::form::{DIRECTORY_NAME, DNS_NAME, FORMS, IP_ADDRESS, RFC822_NAME, URI, has_form};
use crate::host_keys::{push_dns_prefixes, push_excluded_dns_prefixes, push_host_prefix};
use crate::key::Key;
use crate::prefixes::Prefixes;
use crate::stacks::{push_alternative, push_required};
use std::alloc::{AllocError, Global};
use x509_ext::pkix::constraints::name::GeneralSubtree;
use x509_ext::pkix::name::GeneralName;
use x509_name::name::Name;

/// Adds the prefix of a directory name.
fn push_name_prefix(
    alloc: Global,
    form: u16,
    prefixes: &mut Vec<Key>,
    base: &Name,
) -> Result<(), AllocError>
    ensures { OnOk result (prefixes.new.items ≡ prefixes.old.items ++ (form ∷ distinguished_key base.now) ∷ []) }
{
    let mut key = Key::of_form(alloc, form)?;
    push_name(alloc, &mut key, base)?;
    prefixes.push(key)?;
    Ok(())
}

/// Adds the prefix of addresses of e-mail.
fn push_rfc822_prefix(
    alloc: Global,
    form: u16,
    prefixes: &mut Vec<Key>,
    base: &[u8],
) -> Result<(), AllocError>
    ensures { OnOk result (prefixes.new.items ≡ prefixes.old.items ++ (form ∷ email_prefix base.now) ∷ []) }
{
    let mut key = Key::of_form(alloc, form)?;
    push_email_prefix(&mut key, base)?;
    prefixes.push(key)?;
    Ok(())
}

/// Adds the prefix of URIs.
fn push_uri_prefix(
    alloc: Global,
    form: u16,
    prefixes: &mut Vec<Key>,
    base: &[u8],
) -> Result<(), AllocError>
    ensures { OnOk result (prefixes.new.items ≡ prefixes.old.items ++ (form ∷ host_prefix base.now) ∷ []) }
{
    let mut key = Key::of_form(alloc, form)?;
    push_host_prefix(&mut key, base)?;
    prefixes.push(key)?;
    Ok(())
}

/// Adds the prefixes of a subtree.
fn push_prefixes(
    alloc: Global,
    prefixes: &mut Vec<Key>,
    base: &GeneralName,
) -> Result<(), AllocError>
    ensures { OnOk result (prefixes.new.items ≡ prefixes.old.items ++ base_prefixes base.now) }
{
    match base {
        GeneralName::DirectoryName(name) => push_name_prefix(alloc, DIRECTORY_NAME, prefixes, name),
        GeneralName::DnsName(text) => {
            push_dns_prefixes(alloc, DNS_NAME, prefixes, text.as_str().as_bytes())
        }
        GeneralName::Rfc822Name(text) => {
            push_rfc822_prefix(alloc, RFC822_NAME, prefixes, text.as_str().as_bytes())
        }
        GeneralName::UniformResourceIdentifier(text) => {
            push_uri_prefix(alloc, URI, prefixes, text.as_str().as_bytes())
        }
        GeneralName::IpAddress(octets) => {
            push_ip_prefixes(alloc, IP_ADDRESS, prefixes, octets.as_bytes())
        }
        _ => Ok(()),
    }
}

/// Adds those of names that the subtree excludes.
fn push_excluded(
    alloc: Global,
    prefixes: &mut Vec<Key>,
    base: &GeneralName,
) -> Result<(), AllocError>
    ensures { OnOk result (prefixes.new.items ≡ prefixes.old.items ++ excluded_by base.now) }
{
    match base {
        GeneralName::DnsName(text) => {
            push_excluded_dns_prefixes(alloc, DNS_NAME, prefixes, text.as_str().as_bytes())
        }
        _ => push_prefixes(alloc, prefixes, base),
    }
}

/// The prefixes of the subtrees.
fn prefixes_of(alloc: Global, subtrees: &[GeneralSubtree]) -> Result<Vec<Key>, AllocError>
    ensures { IfOk result (λ prefixes. prefixes.items ≡ prefixes_of subtrees.now) }
{
    let mut prefixes: Vec<Key> = Vec::new(alloc);
    for subtree in subtrees {
        push_prefixes(alloc, &mut prefixes, &subtree.base)?;
    }
    Ok(prefixes)
}

/// Those of names that the subtrees exclude.
fn excluded_prefixes(alloc: Global, subtrees: &[GeneralSubtree]) -> Result<Vec<Key>, AllocError>
    ensures { IfOk result (λ prefixes. prefixes.items ≡ excluded_prefixes subtrees.now) }
{
    let mut prefixes: Vec<Key> = Vec::new(alloc);
    for subtree in subtrees {
        push_excluded(alloc, &mut prefixes, &subtree.base)?;
    }
    Ok(prefixes)
}

/// Adds a prefix of all names of the form, unless a subtree has it.
fn push_open_form(
    alloc: Global,
    form: u16,
    prefixes: &mut Vec<Key>,
    subtrees: &[GeneralSubtree],
) -> Result<(), AllocError>
    ensures { OnOk result (prefixes.new.items ≡ prefixes.old.items ++ open_form subtrees.now form) }
{
    if has_form(form, subtrees) {
        return Ok(());
    }
    prefixes.push(Key::of_form(alloc, form)?)?;
    Ok(())
}

/// The prefixes of the names that the subtrees permit, where there are some.
fn permitted_prefixes(alloc: Global, subtrees: &[GeneralSubtree]) -> Result<Vec<Key>, AllocError>
    ensures { IfOk result (λ prefixes. prefixes.items ≡ permitted_prefixes subtrees.now) }
{
    let mut prefixes = prefixes_of(alloc, subtrees)?;
    for form in 0..FORMS as u16 {
        push_open_form(alloc, form, &mut prefixes, subtrees)?;
    }
    Ok(prefixes)
}

/// Applies permitted subtrees.
pub(crate) fn add_permitted(
    alloc: Global,
    sets: &mut Vec<Prefixes>,
    subtrees: &[GeneralSubtree],
) -> Result<(), AllocError>
    ensures { OnOk result ((key : List ℕ) → in_all sets.new.items key
        ≡ (in_all sets.old.items key && (has_none subtrees.now || has_prefix (permitted_prefixes subtrees.now) key))) }
{
    if subtrees.is_empty() {
        return Ok(());
    }
    let prefixes = permitted_prefixes(alloc, subtrees)?;
    let set = Prefixes::new(alloc, prefixes)?;
    push_required(alloc, sets, set)
}

/// Applies excluded subtrees.
pub(crate) fn add_excluded(
    alloc: Global,
    sets: &mut Vec<Prefixes>,
    subtrees: &[GeneralSubtree],
) -> Result<(), AllocError>
    ensures { OnOk result ((key : List ℕ) → in_some sets.new.items key ≡ (in_some sets.old.items key || has_prefix (excluded_prefixes subtrees.now) key)) }
{
    if subtrees.is_empty() {
        return Ok(());
    }
    let prefixes = excluded_prefixes(alloc, subtrees)?;
    let set = Prefixes::new(alloc, prefixes)?;
    push_alternative(alloc, sets, set)
}
