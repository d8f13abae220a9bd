//! Names of servers.

ghost use Rattle.std.specs.Prelude.{◌≡◌};

use crate::address::parse_address;
use crate::dns::DnsName;
use crate::error::InvalidName;
use x509_ext::pkix::name::IpAddress;

/// How a server is named that is to be reached (RFC 9525 2): by a DNS name (a DNS-ID) or by an IP address (an IP-ID).
#[derive(Clone, Copy, Debug, PartialEq, Eq)]
pub enum ServerName<'a> {
    /// A DNS name.
    Dns(DnsName<'a>),

    /// An IP address.
    Address(IpAddress),
}

impl<'a> ServerName<'a> {
    ghost use Rattle.std.specs.Prelude.{◌≡◌, IfErr, MatchResult};
    ghost use Rattle.x509_peer.specs.Peer.{Named, named_server};
    ghost use Rattle.x509_peer.specs.Texts.{IsServerText};
    ghost use Rattle.x509_peer.specs.declared.error.InvalidName.TheVariants as errors;

    /// The name that the octets are: an IPv4 address as four decimal numbers below 256 without leading zeros; an IPv6 address
    /// (RFC 4291 2.2), which may stand in brackets (RFC 3986 3.2.2); or a [`DnsName`].
    ///
    /// # Errors
    ///
    /// `Server` exactly where they are none of these.
    pub fn from_ascii(octets: &'a [u8]) -> Result<ServerName<'a>, InvalidName>
        ensures found { MatchResult result (λ name. IsServerText octets.now (named_server name)) (λ _. (name : Named) → ¬ (IsServerText octets.now name)) }
        ensures err { IfErr result (λ e. e ≡ errors.Server) }
    {
        if let Some(address) = parse_address(octets) {
            return Ok(ServerName::Address(address));
        }
        match DnsName::from_ascii(octets) {
            Ok(name) => Ok(ServerName::Dns(name)),
            Err(e) => Err(e),
        }
    }

    /// The name that the text is, as [`ServerName::from_ascii`].
    ///
    /// # Errors
    ///
    /// Those of [`ServerName::from_ascii`].
    pub fn parse(text: &'a str) -> Result<ServerName<'a>, InvalidName>
        ensures found { MatchResult result (λ name. IsServerText text.now (named_server name)) (λ _. (name : Named) → ¬ (IsServerText text.now name)) }
        ensures err { IfErr result (λ e. e ≡ errors.Server) }
    {
        ServerName::from_ascii(text.as_bytes())
    }
}
