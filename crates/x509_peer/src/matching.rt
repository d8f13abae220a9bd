//! Whether a certificate names a peer (RFC 9525 6).

ghost use Rattle.std.specs.Prelude.{◌≡◌, ◌↔◌, true, Any, IsOk, IsTrue, MatchOption, Ok};
ghost use Rattle.x509_cert.specs.declared.certificate.certificate.CertificateInner as whole;
ghost use Rattle.x509_check.specs.ExtensionRefs.{extensions_left};
ghost use Rattle.x509_check.specs.Lending.{listed};
ghost use Rattle.x509_constraints.specs.Email.{mailbox_of};
ghost use Rattle.x509_der.specs.Form.{Spells};
ghost use Rattle.x509_der.specs.List.{list_reading};
ghost use Rattle.x509_ext.specs.AlternativeNames.{subject_alt_name};
ghost use Rattle.x509_ext.specs.GeneralName.{general_name};
ghost use Rattle.x509_ext.specs.LookUp.{members};
ghost use Rattle.x509_ext.specs.declared.pkix.alternative_names.SubjectAltName.{SubjectAltName};
ghost use Rattle.x509_ext.specs.declared.pkix.name.general_name.GeneralName.{GeneralName};
ghost use Rattle.x509_host.specs.Host.{is_dns_name};
ghost use Rattle.x509_peer.specs.Naming.{IsMailboxOf, IsNameOf, Names, NamesHost, SpellsNameOf};
ghost use Rattle.x509_peer.specs.Peer.{named, named_email, named_server};

use crate::email::EmailAddress;
use crate::peer::Peer;
use crate::server::ServerName;
use x509_base::Profile;
use x509_cert::certificate::CertificateInner;
use x509_check::{CertificateRef, Check, ExtensionRefs};
use x509_constraints::split_mailbox;
use x509_der::{AssociatedOid, Grammar, split_element};
use x509_ext::pkix::SubjectAltName;
use x509_ext::pkix::name::IpAddress;
use x509_host::{is_dns_name, is_same, is_wildcard_of};

/// The identifier octet of an rfc822Name (RFC 5280 4.2.1.6).
const RFC822_NAME: u8 = 0x81;

/// The identifier octet of a dNSName.
const DNS_NAME: u8 = 0x82;

/// The identifier octet of an iPAddress.
const IP_ADDRESS: u8 = 0x87;

/// Whether the name, as a certificate has it, is that of the host.
fn names_host(name: &[u8], host: &[u8]) -> bool
    requires { is_dns_name host.now ≡ true }
    ensures { IsTrue result ↔ NamesHost name.now host.now }
{
    (is_dns_name(name) && is_same(name, host)) || is_wildcard_of(name, host)
}

/// Whether an rfc822Name is that of the mailbox.
fn is_mailbox_of(name: &[u8], address: &EmailAddress<'_>) -> bool
    ensures { IsTrue result ↔ IsMailboxOf (mailbox_of name.now) address.now.local.now address.now.host.octets.now }
{
    let Some((local, host)) = split_mailbox(name) else {
        return false;
    };
    local == address.local && is_dns_name(host) && is_same(host, address.host.octets)
}

/// Whether the general name with this identifier octet and these content octets is that of the peer.
fn is_name_of(tag: u8, content: &[u8], peer: &Peer<'_>) -> bool
    ensures { (name : GeneralName) → general_name.reading tag content.now ≡ Ok name → IsTrue result ↔ IsNameOf (named peer.now) name }
{
    match peer {
        Peer::Host(host) => tag == DNS_NAME && names_host(content, host.octets),
        Peer::Address(octets) => tag == IP_ADDRESS && content == *octets,
        Peer::Mailbox(address) => tag == RFC822_NAME && is_mailbox_of(content, address),
    }
}

/// Whether one of the general names that these elements are is that of the peer.
fn has_name_of(names: &[u8], peer: &Peer<'_>) -> bool
    requires { IsOk (list_reading general_name.reading names.now) }
    ensures { IsTrue result ↔ Any (IsNameOf (named peer.now)) (listed (list_reading general_name.reading names.now)) }
{
    let mut rest = names;
    while !rest.is_empty() {
        let Ok(piece) = split_element(rest) else {
            return false;
        };
        if is_name_of(piece.tag, piece.content, peer) {
            return true;
        }
        rest = piece.rest;
    }
    false
}

/// The elements of the general names of the SubjectAltName that the octets are the encoding of.
fn names_in(octets: &[u8]) -> Option<&[u8]>
    ensures { MatchOption result ((alternative : SubjectAltName) → ¬ (Spells subject_alt_name alternative octets.now))
        (λ names. ((alternative : SubjectAltName) × Spells subject_alt_name alternative octets.now)
        × ((alternative : SubjectAltName) → Spells subject_alt_name alternative octets.now → list_reading general_name.reading names.now ≡ Ok alternative.0)) }
{
    match SubjectAltName::check(octets) {
        Ok(()) => match split_element(octets) {
            Ok(piece) => Some(piece.content),
            Err(_) => None,
        },
        Err(_) => None,
    }
}

/// Whether the octets are a SubjectAltName with a name of the peer.
fn spells_name_of(octets: &[u8], peer: &Peer<'_>) -> bool
    ensures { IsTrue result ↔ SpellsNameOf (named peer.now) octets.now }
{
    match names_in(octets) {
        Some(names) => has_name_of(names, peer),
        None => false,
    }
}

/// Whether the extensions name the peer.
fn name_peer(extensions: ExtensionRefs<'_>, peer: &Peer<'_>) -> bool
    ensures { IsTrue result ↔ Names (extensions_left extensions.entry) (named peer.now) }
{
    match extensions.find_extension(SubjectAltName::OID) {
        Ok(Some(extension)) => spells_name_of(extension.extn_value, peer),
        Ok(None) => false,
        Err(_) => false,
    }
}

/// Whether the extensions name the server.
fn name_server(extensions: ExtensionRefs<'_>, name: &ServerName<'_>) -> bool
    ensures { IsTrue result ↔ Names (extensions_left extensions.entry) (named_server name.now) }
{
    match name {
        ServerName::Dns(name) => name_peer(extensions, &Peer::Host(*name)),
        ServerName::Address(IpAddress::V4(octets)) => name_peer(extensions, &Peer::Address(octets)),
        ServerName::Address(IpAddress::V6(octets)) => name_peer(extensions, &Peer::Address(octets)),
    }
}

/// Whether the certificate is that of the server (RFC 9525 6): its SubjectAltName has a name of it.
///
/// - A dNSName names a host where both are the same without regard to ASCII case. One that begins with `*.` and has two labels
///   or more behind it names each host that has these behind one label (RFC 9525 6.3).
/// - An iPAddress names a host where both have the same octets.
///
/// Nothing else names one, nor does the common name of the subject. A certificate without a SubjectAltName, with two, or with
/// one that can't be decoded names none. It takes no memory.
pub fn matches_name<P: Profile>(certificate: &CertificateRef<'_, P>, name: &ServerName<'_>) -> bool
    ensures { (certificate' : whole.CertificateInner P) → Spells ⟦<CertificateInner<P> as Grammar>⟧.form certificate' certificate.now.bytes.now
        → IsTrue result ↔ Names (members certificate'.tbs_certificate.extensions) (named_server name.now) }
{
    name_server(certificate.extensions(), name)
}

/// Whether the certificate is that of the mailbox (RFC 5280 4.2.1.6, 7.5): its SubjectAltName has an rfc822Name with the same
/// local part, octet for octet, and the same host without regard to ASCII case.
///
/// Nothing else names one, nor does an address in the subject. A certificate without a SubjectAltName, with two, or with one
/// that can't be decoded names none. It takes no memory.
pub fn matches_email<P: Profile>(
    certificate: &CertificateRef<'_, P>,
    address: &EmailAddress<'_>,
) -> bool
    ensures { (certificate' : whole.CertificateInner P) → Spells ⟦<CertificateInner<P> as Grammar>⟧.form certificate' certificate.now.bytes.now
        → IsTrue result ↔ Names (members certificate'.tbs_certificate.extensions) (named_email address.now) }
{
    name_peer(certificate.extensions(), &Peer::Mailbox(*address))
}
