//! DNS names of hosts.

ghost use Rattle.std.specs.Cmp.{on_equiv, on_per, partial_equiv_from_equiv};
ghost use Rattle.std.specs.Cmp.Lexicographic.{nat_list_eq_equiv};
ghost use Rattle.std.specs.Prelude.{◌≡◌, true, bytes_eq};
ghost use Rattle.x509_host.specs.Host.{is_dns_name, lower};

use crate::error::InvalidName;
use x509_host::{is_dns_name, is_same, without_root};

/// A DNS name (RFC 9525 2): labels with dots between them, in all at most 253 octets. A label is 1 to 63 letters and digits
/// of ASCII, hyphens and underscores, and neither begins nor ends with a hyphen (RFC 1034 3.5, RFC 1123 2.1). The last one
/// isn't digits alone, so that no IPv4 address is a name. An internationalized label is written as an A-label (`xn--..`).
///
/// Names are equal where they are so without regard to ASCII case (RFC 4343).
#[derive(Clone, Copy, Debug)]
pub struct DnsName<'a> {
    pub(crate) octets: &'a [u8],
    ghost is_name: { is_dns_name octets.now ≡ true },
}

impl<'a> DnsName<'a> {
    ghost use Rattle.std.specs.Prelude.{◌≡◌, ℕ, List, true, IfOk, IfErr, MatchResult};
    ghost use Rattle.x509_host.specs.Host.{is_dns_name};
    ghost use Rattle.x509_peer.specs.Texts.{IsDnsText};
    ghost use Rattle.x509_peer.specs.declared.error.InvalidName.TheVariants as errors;

    /// The name that the octets are; one dot at their end, that of the root, is taken off (RFC 1034 3.1).
    ///
    /// # Errors
    ///
    /// `Server` exactly where they are no DNS name.
    pub fn from_ascii(octets: &'a [u8]) -> Result<DnsName<'a>, InvalidName>
        ensures found { MatchResult result (λ name. IsDnsText octets.now name.octets.now) (λ _. (name : List ℕ) → ¬ (IsDnsText octets.now name)) }
        ensures err { IfErr result (λ e. e ≡ errors.Server) }
    {
        let name = without_root(octets);
        if is_dns_name(name) {
            Ok(DnsName { octets: name })
        } else {
            Err(InvalidName::Server)
        }
    }

    /// The name that the text is, as [`DnsName::from_ascii`].
    ///
    /// # Errors
    ///
    /// Those of [`DnsName::from_ascii`].
    pub fn parse(text: &'a str) -> Result<DnsName<'a>, InvalidName>
        ensures found { MatchResult result (λ name. IsDnsText text.now name.octets.now) (λ _. (name : List ℕ) → ¬ (IsDnsText text.now name)) }
        ensures err { IfErr result (λ e. e ≡ errors.Server) }
    {
        DnsName::from_ascii(text.as_bytes())
    }

    /// The name, without a dot at its end.
    pub fn as_bytes(&self) -> &'a [u8]
        ensures same { result.now ≡ self.now.octets.now }
        ensures name { is_dns_name result.now ≡ true }
    {
        self.octets
    }
}

impl PartialEq for DnsName<'_> {
    ghost eq = { λ a b. bytes_eq (lower a.octets.now) (lower b.octets.now) };

    ghost laws = { on_per (λ name. lower name.octets.now) (partial_equiv_from_equiv nat_list_eq_equiv) };

    fn eq(&self, other: &Self) -> bool {
        is_same(self.octets, other.octets)
    }
}

impl Eq for DnsName<'_> {
    ghost laws = { on_equiv (λ name. lower name.octets.now) nat_list_eq_equiv };
}
