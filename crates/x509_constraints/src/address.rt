//! IP addresses (RFC 5280 4.2.1.10).

ghost use Rattle.std.specs.Prelude.{◌≡◌, ◌≤◌, ◌+◌, ◌++◌, ◌∷◌, OnOk, length, map, take};
ghost use Rattle.x509_constraints.specs.Address as addresses;
ghost use Rattle.x509_constraints.specs.AddressKeys as address_keys;
ghost use Rattle.x509_constraints.specs.AddressKeys.{address_key, address_prefix, address_prefixes, narrowed, octet_symbols, spread};

use crate::key::Key;
use std::alloc::{AllocError, Global};

/// Whether the octet begins with ones, or none, and has a zero behind them.
fn is_partial(octet: u8) -> bool
    ensures { result ≡ addresses.is_partial octet }
{
    matches!(octet, 0x00 | 0x80 | 0xC0 | 0xE0 | 0xF0 | 0xF8 | 0xFC | 0xFE)
}

/// Whether the mask's ones come first.
fn is_mask(mask: &[u8]) -> bool
    ensures { result ≡ addresses.is_mask mask.now }
{
    let mut are_zeros = true;
    let mut is_mask = true;
    let mut left = mask.len();
    while left > 0 {
        left -= 1;
        let octet = mask[left];
        is_mask = if octet == 0xFF {
            is_mask
        } else {
            is_partial(octet) && are_zeros
        };
        are_zeros = octet == 0 && are_zeros;
    }
    is_mask
}

/// Whether the octets are an address and a mask, for IPv4 or for IPv6. No other is a subtree of IP addresses.
pub fn is_address_subtree(subtree: &[u8]) -> bool
    ensures { result ≡ addresses.is_address_subtree subtree.now }
{
    match subtree.len() {
        8 => is_mask(&subtree[4..]),
        32 => is_mask(&subtree[16..]),
        _ => false,
    }
}

/// Whether the octets are an IP address: four for IPv4, 16 for IPv6.
pub fn is_address(name: &[u8]) -> bool
    ensures { result ≡ address_keys.is_address name.now }
{
    name.len() == 4 || name.len() == 16
}

/// How many ones an octet of a mask begins with.
fn ones(octet: u8) -> usize
    ensures value { result ≡ address_keys.ones octet }
    ensures few { result ≤ 8 }
{
    match octet {
        0xFF => 8,
        0xFE => 7,
        0xFC => 6,
        0xF8 => 5,
        0xF0 => 4,
        0xE0 => 3,
        0xC0 => 2,
        0x80 => 1,
        _ => 0,
    }
}

/// Adds the octets as symbols.
fn push_octets(key: &mut Key, octets: &[u8]) -> Result<(), AllocError>
    ensures { OnOk result (key.new ≡ key.old ++ octets.now) }
{
    for octet in octets {
        key.push(u16::from(*octet))?;
    }
    Ok(())
}

/// Adds the first bit of the octet, its first two, and so on, as many as are asked for.
fn push_beginnings(key: &mut Key, octet: u8, count: usize) -> Result<(), AllocError>
    requires { count ≤ 8 }
    ensures { OnOk result (key.new ≡ key.old ++ take count (octet_symbols octet)) }
{
    let symbols = [
        octet / 128,
        octet / 64,
        octet / 32,
        octet / 16,
        octet / 8,
        octet / 4,
        octet / 2,
        octet,
    ];
    push_octets(key, &symbols[..count])
}

/// Adds what the mask leaves of the address.
fn push_narrowed(key: &mut Key, address: &[u8], mask: &[u8]) -> Result<(), AllocError>
    requires { length address.now ≡ length mask.now }
    ensures { OnOk result (key.new ≡ key.old ++ narrowed address.now mask.now) }
{
    for i in 0..address.len() {
        push_beginnings(key, address[i], ones(mask[i]))?;
    }
    Ok(())
}

/// Adds the whole address.
fn push_spread(key: &mut Key, name: &[u8]) -> Result<(), AllocError>
    ensures { OnOk result (key.new ≡ key.old ++ spread name.now) }
{
    for octet in name {
        push_beginnings(key, *octet, 8)?;
    }
    Ok(())
}

/// Adds the prefix of the addresses of that length that are within the subtree.
fn push_address_prefix(key: &mut Key, half: u16, subtree: &[u8]) -> Result<(), AllocError>
    requires { length subtree.now ≡ half + half }
    ensures { OnOk result (key.new ≡ key.old ++ address_prefix half subtree.now) }
{
    key.push(half)?;
    let (address, mask) = subtree.split_at(usize::from(half));
    push_narrowed(key, address, mask)
}

/// Adds the key of an address of that length.
fn push_address(key: &mut Key, len: u16, name: &[u8]) -> Result<(), AllocError>
    ensures { OnOk result (key.new ≡ key.old ++ len ∷ spread name.now) }
{
    key.push(len)?;
    push_spread(key, name)
}

/// Adds the key of an IP address.
pub(crate) fn push_ip(key: &mut Key, name: &[u8]) -> Result<(), AllocError>
    ensures { OnOk result (key.new ≡ key.old ++ address_key name.now) }
{
    match name.len() {
        4 => push_address(key, 4, name),
        16 => push_address(key, 16, name),
        _ => Ok(()),
    }
}

/// Adds the prefix of the IP addresses that are within the subtree, if it is one.
pub(crate) fn push_ip_prefixes(
    alloc: Global,
    form: u16,
    prefixes: &mut Vec<Key>,
    subtree: &[u8],
) -> Result<(), AllocError>
    ensures { OnOk result (prefixes.new.items ≡ prefixes.old.items ++ map (λ prefix. form ∷ prefix) (address_prefixes subtree.now)) }
{
    if !is_address_subtree(subtree) {
        return Ok(());
    }
    let mut prefix = Key::of_form(alloc, form)?;
    if subtree.len() == 8 {
        push_address_prefix(&mut prefix, 4, subtree)?;
    } else {
        push_address_prefix(&mut prefix, 16, subtree)?;
    }
    prefixes.push(prefix)?;
    Ok(())
}
