//! How a peer is named.

ghost use Rattle.std.specs.Prelude.{◌↔◌, IsTrue};
ghost use Rattle.x509_path.specs.Certificates.{Certificate};
ghost use Rattle.x509_path.specs.Lent.{Lends};
ghost use Rattle.x509_trust.specs.Peers.{NamesPeer};

use x509_check::CertificateRef;
use x509_peer::{EmailAddress, ServerName, matches_email, matches_name};

/// How a peer is named.
#[derive(Clone, Copy, Debug, PartialEq, Eq)]
pub enum PeerName<'n> {
    /// A server, by a DNS name or an IP address (RFC 9525 2).
    Server(ServerName<'n>),

    /// A mailbox (RFC 5280 4.2.1.6).
    Email(EmailAddress<'n>),
}

/// Whether the certificate names the peer; where none is asked for, any does.
pub(crate) fn names_peer(certificate: &CertificateRef<'_>, name: &Option<PeerName<'_>>) -> bool
    ensures { (c : Certificate) → Lends certificate.now.bytes.now c → IsTrue result ↔ NamesPeer name.now certificate.now.bytes.now }
{
    match name {
        None => true,
        Some(PeerName::Server(name)) => matches_name(certificate, name),
        Some(PeerName::Email(address)) => matches_email(certificate, address),
    }
}
