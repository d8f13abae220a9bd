//! Wildcards: '*' in the place of the left-most label.

ghost use Rattle.std.specs.Prelude.{◌≡◌, ◌↔◌, true, IsTrue, MatchOption, List, ℕ};
ghost use Rattle.x509_host.specs.Host as hosts;

use crate::labels::{are_ldh_labels, behind_label, count_labels};
use crate::names::{is_dns_name, is_host, is_same};

/// What a wildcard, "*.", stands in front of, and else the whole.
pub fn behind_wildcard(name: &[u8]) -> &[u8]
    ensures { result.now ≡ hosts.behind_wildcard name.now }
{
    match name {
        [b'*', b'.', behind @ ..] => behind,
        _ => name,
    }
}

/// Whether the octets are a DNS name as name constraints compare it: a host, or a host behind a wildcard, as `*.example.com`
/// (RFC 6125 6.4.3).
pub fn is_host_or_wildcard(octets: &[u8]) -> bool
    ensures { result ≡ hosts.is_host_or_wildcard octets.now }
{
    is_host(behind_wildcard(octets))
}

/// Whether the octets are a DNS name in the preferred name syntax (RFC 5280 4.2.1.6), perhaps behind a wildcard: LDH labels with
/// dots between them, in all at most 253 octets.
pub fn is_preferred_name(text: &[u8]) -> bool
    ensures { result ≡ hosts.is_preferred_name text.now }
{
    are_ldh_labels(behind_wildcard(text)) && text.len() <= 253
}

/// The labels behind a wildcard in a name of a peer, if the name is one.
fn labels_behind(name: &[u8]) -> Option<&[u8]>
    ensures { MatchOption result ((labels : List ℕ) → ¬ (hosts.IsWildcardBefore name.now labels)) (λ labels. hosts.IsWildcardBefore name.now labels.now) }
{
    match name {
        [b'*', b'.', labels @ ..] if is_dns_name(labels) && count_labels(labels) >= 2 => Some(
            labels,
        ),
        _ => None,
    }
}

/// Whether the name is a wildcard that stands for the host (RFC 9525 6.3): two labels or more stand behind it, and the same, without
/// regard to ASCII case, behind the first label of the host.
pub fn is_wildcard_of(name: &[u8], host: &[u8]) -> bool
    requires { hosts.is_dns_name host.now ≡ true }
    ensures { IsTrue result ↔ hosts.IsWildcardOf name.now host.now }
{
    let Some(labels) = labels_behind(name) else {
        return false;
    };
    let Some(others) = behind_label(host) else {
        return false;
    };
    is_same(labels, others)
}
