//! Hosts and DNS names.

ghost use Rattle.std.specs.Prelude.{◌≡◌, ◌↔◌, IsTrue};
ghost use Rattle.x509_host.specs.Host as hosts;

use crate::labels::{are_dns_labels, is_label_octet, is_number, last_label};

/// Whether the octets are a host as name constraints compare it: labels of ASCII letters, digits, '-' and '_', with dots between
/// them, none of which is empty (RFC 1034 3.5, RFC 1123 2.1). Nothing else is compared as one.
pub fn is_host(octets: &[u8]) -> bool
    ensures { result ≡ hosts.is_host octets.now }
{
    let mut begun = false;
    let mut left = octets;
    while let [first, behind @ ..] = left {
        if *first == b'.' {
            if !begun {
                return false;
            }
            begun = false;
        } else {
            if !is_label_octet(*first) {
                return false;
            }
            begun = true;
        }
        left = behind;
    }
    begun
}

/// Whether the octets are a DNS name as a peer has it (RFC 9525 2), without a dot at its end: labels with dots between them, in
/// all at most 253 octets. A label is 1 to 63 letters and digits of ASCII, hyphens and underscores, and neither begins nor ends
/// with a hyphen (RFC 1034 3.5, RFC 1123 2.1). The last one isn't digits alone.
pub fn is_dns_name(name: &[u8]) -> bool
    ensures { result ≡ hosts.is_dns_name name.now }
{
    are_dns_labels(name) && name.len() <= 253 && !is_number(last_label(name))
}

/// What stands in front of a dot at the end, that of the root (RFC 1034 3.1), and else the whole.
pub fn without_root(text: &[u8]) -> &[u8]
    ensures { result.now ≡ hosts.without_root text.now }
{
    match text {
        [name @ .., b'.'] => name,
        _ => text,
    }
}

/// Whether the octets are the same without regard to ASCII case (RFC 4343).
pub fn is_same(one: &[u8], other: &[u8]) -> bool
    ensures { IsTrue result ↔ hosts.IsSame one.now other.now }
{
    one.eq_ignore_ascii_case(other)
}
