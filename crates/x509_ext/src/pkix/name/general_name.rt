//! General names.

ghost use Rattle.std.specs.Prelude.{◌≡◌, ◌≤◌, length, IsOkAnd};
ghost use Rattle.x509_ext.specs.GeneralName.{address_octets, ip_of};
ghost use Rattle.x509_ext.specs.declared.pkix.name.general_name.GeneralName.TheVariants as names;

use crate::pkix::name::edi_party_name::EdiPartyName;
use crate::pkix::name::other_name::OtherName;
use std::alloc::Global;
use x509_der::{
    Content, Decode, Encode, Error, ErrorKind, Grammar, ObjectIdentifier, Room, SequenceOf,
    Spelled, Tag, TryClone, explicit_identifier, implicit_identifier, read_whole,
};
use x509_name::name::Name;
use x509_prim::{Ia5String, OctetString};

/// An IP address (RFC 791, RFC 4291), its octets in network byte order.
#[derive(Clone, Copy, Debug, PartialEq, Eq)]
pub enum IpAddress {
    /// IPv4.
    V4([u8; 4]),

    /// IPv6.
    V6([u8; 16]),
}

/// A general name (RFC 5280 4.2.1.6). There is no `x400Address`, whose identifier \[3\] is `Malformed`.
///
/// ```text
/// GeneralName ::= CHOICE {
///     otherName                  [0] IMPLICIT OtherName,
///     rfc822Name                 [1] IMPLICIT IA5String,
///     dNSName                    [2] IMPLICIT IA5String,
///     directoryName              [4] EXPLICIT Name,
///     ediPartyName               [5] IMPLICIT EDIPartyName,
///     uniformResourceIdentifier  [6] IMPLICIT IA5String,
///     iPAddress                  [7] IMPLICIT OCTET STRING,
///     registeredID               [8] IMPLICIT OBJECT IDENTIFIER }
/// ```
#[derive(Debug, PartialEq, Eq)]
pub enum GeneralName {
    /// A name whose type is given by an OID.
    OtherName(OtherName),

    /// An e-mail address.
    Rfc822Name(Ia5String),

    /// A DNS name.
    DnsName(Ia5String),

    /// A distinguished name.
    DirectoryName(Name),

    /// An EDI party name.
    EdiPartyName(EdiPartyName),

    /// A URI.
    UniformResourceIdentifier(Ia5String),

    /// An IP address; in name constraints an address and a mask. The number of octets isn't checked.
    IpAddress(OctetString),

    /// A registered OID.
    RegisteredId(ObjectIdentifier),
}

impl Drop for GeneralName {
    fn drop(self) {
        match self {
            GeneralName::OtherName(_) => {}
            GeneralName::Rfc822Name(_) => {}
            GeneralName::DnsName(_) => {}
            GeneralName::DirectoryName(_) => {}
            GeneralName::EdiPartyName(_) => {}
            GeneralName::UniformResourceIdentifier(_) => {}
            GeneralName::IpAddress(_) => {}
            GeneralName::RegisteredId(_) => {}
        }
    }
}

/// A list of general names, in their order (RFC 5280 4.2.1.6). An empty sequence is decoded and encoded too.
///
/// ```text
/// GeneralNames ::= SEQUENCE OF GeneralName
/// ```
pub type GeneralNames = SequenceOf<GeneralName>;

impl GeneralName {
    /// The general name that is the address. It takes no memory.
    ///
    /// # Errors
    ///
    /// None: it is never refused.
    pub fn from_ip(alloc: Global, address: IpAddress) -> Result<GeneralName, Error>
        ensures { IsOkAnd result (λ name. name ≡ names.IpAddress (address_octets address)) }
    {
        let octets = match address {
            IpAddress::V4(octets) => address_string(alloc, &octets)?,
            IpAddress::V6(octets) => address_string(alloc, &octets)?,
        };
        Ok(GeneralName::IpAddress(octets))
    }

    /// The IP address: IPv4 exactly where the name is an `iPAddress` of 4 octets, IPv6 exactly where it is one of 16
    /// (RFC 5280 4.2.1.6). `None` else, as for an address and a mask of name constraints (RFC 5280 4.2.1.10).
    pub fn to_ip(&self) -> Option<IpAddress>
        ensures { result ≡ ip_of self.now }
    {
        let GeneralName::IpAddress(octets) = self else {
            return None;
        };
        if let Some(octets) = octets.as_bytes().as_array::<4>() {
            return Some(IpAddress::V4(*octets));
        }
        let octets = octets.as_bytes().as_array::<16>()?;
        Some(IpAddress::V6(*octets))
    }
}

/// The octets of an address.
fn address_string(alloc: Global, octets: &[u8]) -> Result<OctetString, Error>
    requires { length octets.now ≤ 24 }
    ensures { IsOkAnd result (λ string. string ≡ octets.now) }
{
    OctetString::new(alloc, octets)
}

impl TryClone for IpAddress {
    ghost use Rattle.std.specs.Prelude.{◌≡◌, Ok};

    fn try_clone(&self, _alloc: Global) -> Result<IpAddress, Error>
        ensures { result ≡ Ok self.now }
    {
        Ok(*self)
    }
}

impl TryClone for GeneralName {
    fn try_clone(&self, alloc: Global) -> Result<GeneralName, Error> {
        Ok(match self {
            GeneralName::OtherName(other) => GeneralName::OtherName(other.try_clone(alloc)?),
            GeneralName::Rfc822Name(text) => GeneralName::Rfc822Name(text.try_clone(alloc)?),
            GeneralName::DnsName(text) => GeneralName::DnsName(text.try_clone(alloc)?),
            GeneralName::DirectoryName(name) => GeneralName::DirectoryName(name.try_clone(alloc)?),
            GeneralName::EdiPartyName(party) => GeneralName::EdiPartyName(party.try_clone(alloc)?),
            GeneralName::UniformResourceIdentifier(text) => {
                GeneralName::UniformResourceIdentifier(text.try_clone(alloc)?)
            }
            GeneralName::IpAddress(octets) => GeneralName::IpAddress(octets.try_clone(alloc)?),
            GeneralName::RegisteredId(identifier) => GeneralName::RegisteredId(*identifier),
        })
    }
}

#[tactic(auto, unfolding(x509_der::specs::Cases::choice_tag))]
impl Grammar for GeneralName {
    ghost use Rattle.x509_ext.specs.GeneralName as grammar;

    ghost form = { grammar.general_name };

    fn identifier(&self) -> Tag {
        match self {
            GeneralName::OtherName(_) => implicit_identifier::<OtherName>(0),
            GeneralName::Rfc822Name(_) => implicit_identifier::<Ia5String>(1),
            GeneralName::DnsName(_) => implicit_identifier::<Ia5String>(2),
            GeneralName::DirectoryName(_) => explicit_identifier(4),
            GeneralName::EdiPartyName(_) => implicit_identifier::<EdiPartyName>(5),
            GeneralName::UniformResourceIdentifier(_) => implicit_identifier::<Ia5String>(6),
            GeneralName::IpAddress(_) => implicit_identifier::<OctetString>(7),
            GeneralName::RegisteredId(_) => implicit_identifier::<ObjectIdentifier>(8),
        }
    }

    fn is_start(octet: u8) -> bool {
        matches!(octet, 0xA0 | 0x81 | 0x82 | 0xA4 | 0xA5 | 0x86 | 0x87 | 0x88)
    }

    fn usual() -> Tag {
        implicit_identifier::<Ia5String>(2)
    }

    ghost lawful = { grammar.general_name_lawful };
}

#[tactic(auto, unfolding(x509_der::specs::Cases::choice_reading))]
impl Decode for GeneralName {
    fn read(alloc: Global, tag: u8, content: &[u8]) -> Result<GeneralName, Error> {
        Ok(match tag {
            0xA0 => GeneralName::OtherName(OtherName::read_content(alloc, content)?),
            0x81 => GeneralName::Rfc822Name(Ia5String::read_content(alloc, content)?),
            0x82 => GeneralName::DnsName(Ia5String::read_content(alloc, content)?),
            0xA4 => GeneralName::DirectoryName(read_whole(alloc, content)?),
            0xA5 => GeneralName::EdiPartyName(EdiPartyName::read_content(alloc, content)?),
            0x86 => {
                GeneralName::UniformResourceIdentifier(Ia5String::read_content(alloc, content)?)
            }
            0x87 => GeneralName::IpAddress(OctetString::read_content(alloc, content)?),
            0x88 => GeneralName::RegisteredId(ObjectIdentifier::read_content(alloc, content)?),
            _ => return Err(ErrorKind::Malformed.into()),
        })
    }
}

#[tactic(auto, unfolding(x509_der::specs::Cases::choice_content))]
impl Encode for GeneralName {
    ghost use Rattle.std.specs.Prelude.{refl};

    fn put_content<R: Room>(&self, room: &mut R) -> Result<(), Error> {
        match self {
            GeneralName::OtherName(other) => other.put_content(room),
            GeneralName::Rfc822Name(text) => text.put_content(room),
            GeneralName::DnsName(text) => text.put_content(room),
            GeneralName::DirectoryName(name) => name.put_element(room),
            GeneralName::EdiPartyName(party) => party.put_content(room),
            GeneralName::UniformResourceIdentifier(text) => text.put_content(room),
            GeneralName::IpAddress(octets) => octets.put_content(room),
            GeneralName::RegisteredId(identifier) => identifier.put_content(room),
        }
    }

    ghost same_tag = { λ value. refl };
}

#[tactic(auto, unfolding(x509_der::specs::Cases::choice_good))]
impl Spelled for GeneralName {
    fn has_spelling(&self) {
        match self {
            GeneralName::OtherName(other) => other.has_spelling(),
            GeneralName::Rfc822Name(text) => text.has_spelling(),
            GeneralName::DnsName(text) => text.has_spelling(),
            GeneralName::DirectoryName(name) => name.has_spelling(),
            GeneralName::EdiPartyName(party) => party.has_spelling(),
            GeneralName::UniformResourceIdentifier(text) => text.has_spelling(),
            GeneralName::IpAddress(octets) => octets.has_spelling(),
            GeneralName::RegisteredId(identifier) => identifier.has_spelling(),
        }
    }
}
