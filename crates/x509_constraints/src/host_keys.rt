//! Hosts as keys: turned round, so that a host begins with those above it.

ghost use Rattle.std.specs.Prelude.{◌≡◌, ◌+◌, ◌++◌, ◌∷◌, false, OnOk, MatchOption, None, Some, map};
ghost use Rattle.x509_constraints.specs.Keys as keys;
ghost use Rattle.x509_constraints.specs.Keys.{dns_key, dns_prefixes, excluded_dns_prefixes, host_key, host_prefix, stopped, turned};
ghost use Rattle.x509_host.specs.Host.{dot, star};

use crate::key::Key;
use std::alloc::{AllocError, Global};
use x509_host::{is_host, is_host_or_wildcard, is_label_octet};

/// Behind the octets of a host.
pub(crate) const STOP: u16 = 0;

/// The symbol of an octet, which is no stop.
pub(crate) fn symbol(octet: u8) -> u16
    ensures { result ≡ octet + 1 }
{
    u16::from(octet) + 1
}

/// Adds the octets of the host from the last to the first, in lower case.
pub(crate) fn push_turned(key: &mut Key, host: &[u8]) -> Result<(), AllocError>
    ensures { OnOk result (key.new ≡ key.old ++ turned host.now) }
{
    let mut left = host.len();
    while left > 0 {
        left -= 1;
        key.push(symbol(host[left].to_ascii_lowercase()))?;
    }
    Ok(())
}

/// Whether the subtree has no host of its own: it is empty, or has a dot in front.
fn is_open(subtree: &[u8]) -> bool
    ensures { result ≡ keys.is_open subtree.now }
{
    match subtree {
        [] => true,
        [first, ..] => *first == b'.',
    }
}

/// Adds the prefix of the hosts that are within the subtree.
pub(crate) fn push_host_prefix(key: &mut Key, subtree: &[u8]) -> Result<(), AllocError>
    ensures { OnOk result (key.new ≡ key.old ++ host_prefix subtree.now) }
{
    push_turned(key, subtree)?;
    if is_open(subtree) {
        return Ok(());
    }
    key.push(STOP)
}

/// Adds the prefix of the hosts that have whole labels in front of the subtree.
fn push_prefix_below(key: &mut Key, subtree: &[u8]) -> Result<(), AllocError>
    ensures { OnOk result (key.new ≡ key.old ++ turned (dot ∷ subtree.now)) }
{
    push_turned(key, subtree)?;
    key.push(symbol(b'.'))
}

/// Adds the octets of a host and a stop.
fn push_stopped_host(key: &mut Key, host: &[u8]) -> Result<(), AllocError>
    ensures { OnOk result (key.new ≡ key.old ++ stopped host.now) }
{
    push_turned(key, host)?;
    key.push(STOP)
}

/// Adds the key of a host.
pub(crate) fn push_host(key: &mut Key, host: &[u8]) -> Result<(), AllocError>
    ensures { OnOk result (key.new ≡ key.old ++ host_key host.now) }
{
    if is_host(host) {
        push_stopped_host(key, host)
    } else {
        Ok(())
    }
}

/// Adds the key of a DNS name.
pub(crate) fn push_dns_name(key: &mut Key, name: &[u8]) -> Result<(), AllocError>
    ensures { OnOk result (key.new ≡ key.old ++ dns_key name.now) }
{
    if is_host_or_wildcard(name) {
        push_stopped_host(key, name)
    } else {
        Ok(())
    }
}

/// What stands behind the first label and its dot, if it is one.
fn behind_label(subtree: &[u8]) -> Option<&[u8]>
    ensures { MatchOption result (keys.behind_label false subtree.now ≡ None) (λ rest. keys.behind_label false subtree.now ≡ Some rest.now) }
{
    let mut begun = false;
    let mut left = subtree;
    while let [first, behind @ ..] = left {
        if *first == b'.' {
            if begun {
                return Some(behind);
            }
            return None;
        }
        if !is_label_octet(*first) {
            return None;
        }
        begun = true;
        left = behind;
    }
    None
}

/// Adds the key of the wildcard in front of the host.
fn push_wildcard(key: &mut Key, rest: &[u8]) -> Result<(), AllocError>
    ensures { OnOk result (key.new ≡ key.old ++ stopped (star ∷ dot ∷ rest.now)) }
{
    push_turned(key, rest)?;
    key.push(symbol(b'.'))?;
    key.push(symbol(b'*'))?;
    key.push(STOP)
}

/// Adds the prefixes of the DNS names that are within the subtree.
pub(crate) fn push_dns_prefixes(
    alloc: Global,
    form: u16,
    prefixes: &mut Vec<Key>,
    subtree: &[u8],
) -> Result<(), AllocError>
    ensures { OnOk result (prefixes.new.items ≡ prefixes.old.items ++ map (λ prefix. form ∷ prefix) (dns_prefixes subtree.now)) }
{
    let mut within = Key::of_form(alloc, form)?;
    push_host_prefix(&mut within, subtree)?;
    prefixes.push(within)?;
    let mut below = Key::of_form(alloc, form)?;
    push_prefix_below(&mut below, subtree)?;
    prefixes.push(below)?;
    Ok(())
}

/// Adds the key of the wildcard that stands for the host of the subtree, if one does.
fn push_wildcard_prefix(
    alloc: Global,
    form: u16,
    prefixes: &mut Vec<Key>,
    subtree: &[u8],
) -> Result<(), AllocError>
    ensures { OnOk result (prefixes.new.items ≡ prefixes.old.items
        ++ map (λ prefix. form ∷ prefix) (keys.wildcard_keys (keys.behind_label false subtree.now))) }
{
    let Some(rest) = behind_label(subtree) else {
        return Ok(());
    };
    let mut key = Key::of_form(alloc, form)?;
    push_wildcard(&mut key, rest)?;
    prefixes.push(key)?;
    Ok(())
}

/// Adds the prefixes of the DNS names that stand for one within the subtree.
pub(crate) fn push_excluded_dns_prefixes(
    alloc: Global,
    form: u16,
    prefixes: &mut Vec<Key>,
    subtree: &[u8],
) -> Result<(), AllocError>
    ensures { OnOk result (prefixes.new.items ≡ prefixes.old.items ++ map (λ prefix. form ∷ prefix) (excluded_dns_prefixes subtree.now)) }
{
    push_dns_prefixes(alloc, form, prefixes, subtree)?;
    push_wildcard_prefix(alloc, form, prefixes, subtree)
}
