//! IP addresses from texts.

ghost use Rattle.std.specs.Net.Addr.{ipv6_octets};
ghost use Rattle.std.specs.Prelude.{◌≡◌, ◌∷◌, ◌++◌, [], List, ℕ, MatchOption};
ghost use Rattle.x509_ext.specs.GeneralName.{address_octets};
ghost use Rattle.x509_peer.specs.Address as addresses;

use std::net::{IpAddr, Ipv6Addr};
use x509_ext::pkix::name::IpAddress;

/// The address that the text is, without brackets.
fn parse_ip(text: &[u8]) -> Option<IpAddress>
    ensures { MatchOption result ((octets : List ℕ) → ¬ (addresses.IsIpText text.now octets)) (λ ip. addresses.IsIpText text.now (address_octets ip)) }
{
    match IpAddr::parse_ascii(text) {
        Ok(IpAddr::V4(ip)) => Some(IpAddress::V4(ip.octets())),
        Ok(IpAddr::V6(ip)) => Some(IpAddress::V6(ip.octets())),
        Err(_) => None,
    }
}

/// What stands in brackets, if the whole text does.
fn inside_brackets(text: &[u8]) -> Option<&[u8]>
    ensures { MatchOption result ((inner : List ℕ) → ¬ (text.now ≡ 0x5B ∷ (inner ++ 0x5D ∷ []))) (λ inner. text.now ≡ 0x5B ∷ (inner.now ++ 0x5D ∷ [])) }
{
    let [b'[', behind @ ..] = text else {
        return None;
    };
    let [inner @ .., b']'] = behind else {
        return None;
    };
    Some(inner)
}

/// The IPv6 address that the text is in brackets.
fn parse_bracketed(text: &[u8]) -> Option<IpAddress>
    ensures { MatchOption result ((octets : List ℕ) → ¬ (addresses.IsBracketed text.now octets)) (λ ip. addresses.IsBracketed text.now (address_octets ip)) }
{
    let inner = inside_brackets(text)?;
    match Ipv6Addr::parse_ascii(inner) {
        Ok(ip) => Some(IpAddress::V6(ip.octets())),
        Err(_) => None,
    }
}

/// The IP address that the text is: IPv4 as four decimal numbers without leading zeros, or IPv6 (RFC 4291 2.2), which may
/// stand in brackets.
pub(crate) fn parse_address(text: &[u8]) -> Option<IpAddress>
    ensures { MatchOption result ((octets : List ℕ) → ¬ (addresses.IsAddressText text.now octets)) (λ ip. addresses.IsAddressText text.now (address_octets ip)) }
{
    match parse_ip(text) {
        Some(address) => Some(address),
        None => parse_bracketed(text),
    }
}
