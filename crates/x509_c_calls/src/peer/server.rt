//! Names of servers.

ghost use Rattle.std.specs.Prelude.{◌≡◌, ◌++◌, length, replicate};
ghost use Rattle.x509_c_calls.specs.Peers.{IsServerView, SaysPeer};
ghost use Rattle.x509_peer.specs.Peer.{named_server};
ghost use Rattle.x509_peer.specs.Texts.{IsServerText};

use crate::Status;
use x509_der::ErrorKind;
use x509_ext::pkix::name::IpAddress;
use x509_peer::ServerName;

/// What the text of a server's name says.
#[derive(Clone, Copy)]
#[repr(C)]
pub struct ServerNameView {
    /// How many bytes of the text a DNS name has: all, or all but a dot at the end; 0 for an address.
    pub name_len: usize,

    /// How many octets an IP address has, 4 or 16; 0 for a DNS name.
    pub address_len: u32,

    /// These octets in network byte order, and zeros behind them.
    pub address: [u8; 16],
}

/// The address of version 4, with zeros behind it.
fn widen(octets: [u8; 4]) -> [u8; 16]
    ensures { result ≡ octets ++ replicate 12 0 }
{
    let [a, b, c, d] = octets;
    [a, b, c, d, 0, 0, 0, 0, 0, 0, 0, 0, 0, 0, 0, 0]
}

/// The address of version 6, which has no zeros behind it.
fn whole(octets: [u8; 16]) -> [u8; 16]
    ensures full { length octets ≡ 16 }
    ensures same { result ≡ octets }
{
    octets
}

/// What the name is.
fn view_of(name: &ServerName<'_>) -> ServerNameView
    ensures { IsServerView (named_server name.now) result }
{
    match name {
        ServerName::Dns(name) => ServerNameView {
            name_len: name.as_bytes().len(),
            address_len: 0,
            address: [0; 16],
        },
        ServerName::Address(IpAddress::V4(octets)) => ServerNameView {
            name_len: 0,
            address_len: 4,
            address: widen(*octets),
        },
        ServerName::Address(IpAddress::V6(octets)) => ServerNameView {
            name_len: 0,
            address_len: 16,
            address: whole(*octets),
        },
    }
}

/// Reads the text of a server's name (RFC 9525 2): a DNS name, of which one dot at the end is taken off; an IPv4 address as four decimal
/// numbers without leading zeros; or an IPv6 address (RFC 4291 2.2), which may stand in brackets. It takes no memory.
///
/// # Errors
///
/// `Value` exactly where the text is none of these. `found` is unchanged then.
#[tactic(auto, unfolding(crate::specs::Peers::SaysPeer))]
pub fn server_name(text: &[u8], found: &mut ServerNameView) -> Status
    ensures { SaysPeer (IsServerText text.now) IsServerView found.old found.new result }
{
    match ServerName::from_ascii(text) {
        Ok(name) => {
            *found = view_of(&name);
            Status::Done
        }
        Err(_) => Status::Refused(ErrorKind::Value),
    }
}
