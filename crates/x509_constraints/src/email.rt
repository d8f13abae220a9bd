//! Addresses of e-mail (RFC 5280 4.2.1.10).

ghost use Rattle.std.specs.Prelude.{◌≡◌, ◌++◌, ◌∷◌, [], false, OnOk, MatchOption, None, Some};
ghost use Rattle.std.specs.List.{list_all};
ghost use Rattle.x509_constraints.specs.Email as emails;
ghost use Rattle.x509_constraints.specs.Email.{email_key, email_key_at, email_prefix, mailbox_key, mailbox_of, said};
ghost use Rattle.x509_constraints.specs.Keys.{stop, symbols};

use crate::host_keys::{STOP, push_host_prefix, push_turned, symbol};
use crate::key::Key;
use std::alloc::AllocError;
use x509_host::is_host;

/// What stands before the last '@' and what behind it, if there is one.
pub fn split_mailbox(address: &[u8]) -> Option<(&[u8], &[u8])>
    ensures { MatchOption result (mailbox_of address.now ≡ None) (λ parts. mailbox_of address.now ≡ Some (parts.0.now, parts.1.now)) }
{
    let mut left = address.len();
    while left > 0 {
        left -= 1;
        if address[left] == b'@' {
            return Some((&address[..left], &address[left + 1..]));
        }
    }
    None
}

/// Whether the octet is a character of ASCII that is printed, or a space.
fn is_local_octet(octet: u8) -> bool
    ensures { result ≡ emails.is_local_octet octet }
{
    0x20 <= octet && octet <= 0x7E
}

/// Whether the octet is such, and neither a quote nor a backslash.
fn is_bare_octet(octet: u8) -> bool
    ensures { result ≡ emails.is_bare_octet octet }
{
    is_local_octet(octet) && octet != b'"' && octet != b'\\'
}

/// Whether all octets are such.
fn are_bare_octets(octets: &[u8]) -> bool
    ensures { result ≡ list_all emails.is_bare_octet octets.now }
{
    octets.iter().all(|octet| is_bare_octet(*octet))
}

/// Whether octets behind a quote end with the other one.
fn is_quoted(octets: &[u8]) -> bool
    ensures { result ≡ emails.is_quoted false octets.now }
{
    let mut escaped = false;
    let mut left = octets;
    while let [first, behind @ ..] = left {
        if !escaped && *first == b'"' {
            return behind.is_empty();
        }
        if !is_local_octet(*first) {
            return false;
        }
        escaped = !escaped && *first == b'\\';
        left = behind;
    }
    false
}

/// Whether a mailbox can have the local part.
fn is_local(local: &[u8]) -> bool
    ensures { result ≡ emails.is_local local.now }
{
    match local {
        [] => false,
        [b'"', behind @ ..] => is_quoted(behind),
        _ => are_bare_octets(local),
    }
}

/// Whether the octets are an address of e-mail that is compared: a local part, an '@', and a host. The local part has
/// printed characters of ASCII and spaces alone. It is a quoted string, or isn't empty and has no quote or backslash (RFC
/// 5321 4.1.2).
pub fn is_mailbox(name: &[u8]) -> bool
    ensures { result ≡ emails.is_mailbox name.now }
{
    match split_mailbox(name) {
        Some((local, host)) => is_local(local) && is_host(host),
        None => false,
    }
}

/// Adds the symbols of the octets, and a stop.
pub(crate) fn push_stopped(key: &mut Key, octets: &[u8]) -> Result<(), AllocError>
    ensures { OnOk result (key.new ≡ key.old ++ (symbols octets.now ++ stop ∷ [])) }
{
    for octet in octets {
        key.push(symbol(*octet))?;
    }
    key.push(STOP)
}

/// Adds the symbols of what stands behind a quote, without backslashes and the other quote.
fn push_said_behind(key: &mut Key, octets: &[u8]) -> Result<(), AllocError>
    ensures { OnOk result (key.new ≡ key.old ++ symbols (emails.said_behind false octets.now)) }
{
    let mut escaped = false;
    let mut left = octets;
    while let [first, behind @ ..] = left {
        if !escaped && *first == b'"' {
            return Ok(());
        }
        escaped = !escaped && *first == b'\\';
        if !escaped {
            key.push(symbol(*first))?;
        }
        left = behind;
    }
    Ok(())
}

/// Adds the symbols of the local part without quotes, and a stop.
fn push_said(key: &mut Key, local: &[u8]) -> Result<(), AllocError>
    ensures { OnOk result (key.new ≡ key.old ++ (symbols (said local.now) ++ stop ∷ [])) }
{
    if let [b'"', behind @ ..] = local {
        push_said_behind(key, behind)?;
        return key.push(STOP);
    }
    push_stopped(key, local)
}

/// Adds the key of a mailbox.
fn push_mailbox(key: &mut Key, local: &[u8], host: &[u8]) -> Result<(), AllocError>
    ensures { OnOk result (key.new ≡ key.old ++ mailbox_key local.now host.now) }
{
    push_turned(key, host)?;
    key.push(STOP)?;
    push_said(key, local)
}

/// Adds the key of what stands before and behind the last '@'.
fn push_parts(key: &mut Key, name: &[u8]) -> Result<(), AllocError>
    ensures { OnOk result (key.new ≡ key.old ++ email_key_at (mailbox_of name.now)) }
{
    match split_mailbox(name) {
        Some((local, host)) => push_mailbox(key, local, host),
        None => Ok(()),
    }
}

/// Adds the key of an address of e-mail.
pub(crate) fn push_email(key: &mut Key, name: &[u8]) -> Result<(), AllocError>
    ensures { OnOk result (key.new ≡ key.old ++ email_key name.now) }
{
    if is_mailbox(name) {
        push_parts(key, name)
    } else {
        Ok(())
    }
}

/// Adds the prefix of the addresses that are within the subtree.
pub(crate) fn push_email_prefix(key: &mut Key, subtree: &[u8]) -> Result<(), AllocError>
    ensures { OnOk result (key.new ≡ key.old ++ email_prefix subtree.now) }
{
    match split_mailbox(subtree) {
        Some((local, host)) => push_mailbox(key, local, host),
        None => push_host_prefix(key, subtree),
    }
}
