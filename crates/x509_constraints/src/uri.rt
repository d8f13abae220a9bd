//! URIs (RFC 5280 4.2.1.10), by their hosts.

ghost use Rattle.std.specs.Prelude.{◌≡◌, ◌≤◌, ◌==◌, not, MatchOption, None, Some, length};
ghost use Rattle.std.specs.List.{list_all, list_any, position_or_len};
ghost use Rattle.x509_constraints.specs.Email.{mailbox_of};
ghost use Rattle.x509_constraints.specs.Uri as uris;
ghost use Rattle.x509_constraints.specs.Uri.{host_of};
ghost use Rattle.x509_host.specs.Host.{dot};

use crate::email::split_mailbox;
use x509_host::is_host;

/// Whether the octet may stand in a scheme (RFC 3986 3.1).
fn is_scheme_octet(octet: u8) -> bool
    ensures { result ≡ uris.is_scheme_octet octet }
{
    octet.is_ascii_alphanumeric() || octet == b'+' || octet == b'-' || octet == b'.'
}

/// Whether the authority ends before the octet (RFC 3986 3.2).
fn ends_authority(octet: u8) -> bool
    ensures { result ≡ uris.ends_authority octet }
{
    octet == b'/' || octet == b'?' || octet == b'#'
}

/// How many octets stand before the first that a scheme can't have.
fn scheme_len(uri: &[u8]) -> usize
    ensures at { result ≡ position_or_len (λ c. not (uris.is_scheme_octet c)) uri.now }
    ensures within { result ≤ length uri.now }
{
    for i in 0..uri.len() {
        if !is_scheme_octet(uri[i]) {
            return i;
        }
    }
    uri.len()
}

/// How many octets stand before the path, the query and the fragment.
fn authority_len(rest: &[u8]) -> usize
    ensures at { result ≡ position_or_len uris.ends_authority rest.now }
    ensures within { result ≤ length rest.now }
{
    for i in 0..rest.len() {
        if ends_authority(rest[i]) {
            return i;
        }
    }
    rest.len()
}

/// How many octets stand before the port.
fn host_len(authority: &[u8]) -> usize
    ensures at { result ≡ position_or_len (λ c. c == 0x3A) authority.now }
    ensures within { result ≤ length authority.now }
{
    for i in 0..authority.len() {
        if authority[i] == b':' {
            return i;
        }
    }
    authority.len()
}

/// What stands behind a scheme and "://".
fn behind_scheme(uri: &[u8]) -> Option<&[u8]>
    ensures { MatchOption result (uris.behind_scheme uri.now ≡ None) (λ rest. uris.behind_scheme uri.now ≡ Some rest.now) }
{
    let (_, rest) = uri.split_at(scheme_len(uri));
    match uri {
        [first, ..] if first.is_ascii_alphabetic() => behind_slashes(rest),
        _ => None,
    }
}

/// What stands behind "://".
fn behind_slashes(rest: &[u8]) -> Option<&[u8]>
    ensures { MatchOption result (uris.behind_slashes rest.now ≡ None) (λ behind. uris.behind_slashes rest.now ≡ Some behind.now) }
{
    match rest {
        [b':', b'/', b'/', behind @ ..] => Some(behind),
        _ => None,
    }
}

/// The host of an authority, without user information and port.
fn host_in(authority: &[u8]) -> &[u8]
    ensures { result.now ≡ uris.host_in authority.now }
{
    let behind = match split_mailbox(authority) {
        Some((_, behind)) => behind,
        None => authority,
    };
    let (host, _) = behind.split_at(host_len(behind));
    host
}

/// Whether a dotted quad may have the octet.
fn is_digit_or_dot(octet: u8) -> bool
    ensures { result ≡ uris.is_digit_or_dot octet }
{
    octet.is_ascii_digit() || octet == b'.'
}

/// Whether the host has nothing but digits and dots.
fn is_digits_and_dots(host: &[u8]) -> bool
    ensures { result ≡ list_all uris.is_digit_or_dot host.now }
{
    host.iter().all(|octet| is_digit_or_dot(*octet))
}

/// Whether the host has a dot.
fn has_dot(host: &[u8]) -> bool
    ensures { result ≡ list_any (λ c. c == dot) host.now }
{
    host.iter().any(|octet| *octet == b'.')
}

/// Whether it is a host, and no address.
pub(crate) fn is_named(host: &[u8]) -> bool
    ensures { result ≡ uris.is_named host.now }
{
    is_host(host) && !is_digits_and_dots(host)
}

/// Whether it is such a host, and has more than one label.
fn is_qualified(host: &[u8]) -> bool
    ensures { result ≡ uris.is_qualified host.now }
{
    is_named(host) && has_dot(host)
}

/// The host of the URI; `None` where it has no scheme or no authority, where its host is an address, in brackets or in
/// digits and dots, and where it is empty, no host ([`is_host`]) or has a single label: constraints ask for a fully
/// qualified domain name (RFC 5280 4.2.1.10).
pub fn host_of_uri(uri: &[u8]) -> Option<&[u8]>
    ensures { MatchOption result (host_of uri.now ≡ None) (λ host. host_of uri.now ≡ Some host.now) }
{
    let rest = behind_scheme(uri)?;
    let (authority, _) = rest.split_at(authority_len(rest));
    let host = host_in(authority);
    if is_qualified(host) { Some(host) } else { None }
}
