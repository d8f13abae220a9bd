//! What is seen where a certificate breaks a rule.

ghost use Rattle.std.specs.Prelude.{◌≡◌, IfOk, Some, string_bytes};
ghost use Rattle.x509_lint_web.specs.Seen as grammar;
ghost use Rattle.x509_lint_web.specs.Seen.{kind_word};
ghost use Rattle.x509_name.specs.NameText.{name_text};

use crate::names::NameFault;
use std::alloc::{AllocError, Global};
use std::fmt;
use x509_base::Raw;
use x509_cert::certificate::CertificateInner;
use x509_der::{Any, ObjectIdentifier};
use x509_ext::pkix::name::GeneralName;
use x509_lint::extensions::extensions_of;
use x509_lint::seen::{shortened, value_of};
use x509_name::name::Name;

/// What of a certificate a rule speaks of.
#[derive(Clone, Copy)]
pub(crate) enum Part {
    /// The version, of which nothing more is told.
    Version,

    /// The algorithm of the signature.
    Signature,

    /// The algorithm of the key.
    KeyAlgorithm,

    /// The parameters of the key's algorithm.
    KeyParameters,

    /// The key itself.
    Key,

    /// The validity.
    Validity,

    /// The subject.
    Subject,

    /// Each name of the SAN that has the fault.
    Name(NameFault),

    /// The extension of this OID.
    Extension(ObjectIdentifier),

    /// The list of extensions, of which nothing more is told.
    Extensions,
}

/// What that is which is seen. It is printed as a line of JSON has it, as `octets` or `dNSName`.
#[derive(Clone, Copy)]
pub(crate) enum SeenKind {
    /// Nothing is told.
    Nothing,

    /// Octets in hex.
    Octets,

    /// An OID, with dots.
    Oid,

    /// The dates of a validity.
    Dates,

    /// A distinguished name (RFC 4514).
    Name,

    /// The OID of an otherName.
    OtherName,

    /// An rfc822Name.
    Rfc822Name,

    /// A dNSName.
    DnsName,

    /// A directoryName (RFC 4514).
    DirectoryName,

    /// An ediPartyName, of which nothing more is told.
    EdiPartyName,

    /// A URI.
    Uri,

    /// An iPAddress in hex.
    IpAddress,

    /// A registeredID, with dots.
    RegisteredId,
}

impl fmt::Display for SeenKind {
    ghost output = { λ kind. Some (kind_word kind) };

    fn fmt<W: fmt::Write>(&self, f: &mut fmt::Formatter<W>) -> fmt::Result {
        f.write_str(match self {
            SeenKind::Nothing => "nothing",
            SeenKind::Octets => "octets",
            SeenKind::Oid => "OID",
            SeenKind::Dates => "dates",
            SeenKind::Name => "name",
            SeenKind::OtherName => "otherName",
            SeenKind::Rfc822Name => "rfc822Name",
            SeenKind::DnsName => "dNSName",
            SeenKind::DirectoryName => "directoryName",
            SeenKind::EdiPartyName => "ediPartyName",
            SeenKind::Uri => "uniformResourceIdentifier",
            SeenKind::IpAddress => "iPAddress",
            SeenKind::RegisteredId => "registeredID",
        })
    }
}

/// The fault of the names of the SAN of which the part is.
pub(crate) fn fault_of(part: Part) -> Option<NameFault>
    ensures { result ≡ grammar.fault_of part }
{
    match part {
        Part::Name(fault) => Some(fault),
        _ => None,
    }
}

/// Of which kind a name is.
pub(crate) fn kind_of_name(name: &GeneralName) -> SeenKind
    ensures { result ≡ grammar.kind_of_name name.now }
{
    match name {
        GeneralName::OtherName(_) => SeenKind::OtherName,
        GeneralName::Rfc822Name(_) => SeenKind::Rfc822Name,
        GeneralName::DnsName(_) => SeenKind::DnsName,
        GeneralName::DirectoryName(_) => SeenKind::DirectoryName,
        GeneralName::EdiPartyName(_) => SeenKind::EdiPartyName,
        GeneralName::UniformResourceIdentifier(_) => SeenKind::Uri,
        GeneralName::IpAddress(_) => SeenKind::IpAddress,
        GeneralName::RegisteredId(_) => SeenKind::RegisteredId,
    }
}

/// What that is which is seen of a part.
pub(crate) fn kind_of_part(part: Part) -> SeenKind
    ensures { result ≡ grammar.kind_of_part part }
{
    match part {
        Part::Version | Part::Name(_) | Part::Extensions => SeenKind::Nothing,
        Part::Signature | Part::KeyAlgorithm => SeenKind::Oid,
        Part::KeyParameters | Part::Key | Part::Extension(_) => SeenKind::Octets,
        Part::Validity => SeenKind::Dates,
        Part::Subject => SeenKind::Name,
    }
}

fn text_of(alloc: Global, text: &str) -> Result<String, AllocError>
    ensures { IfOk result (λ copy. string_bytes copy ≡ text.now) }
{
    let mut copy = String::new(alloc);
    copy.push_str(text)?;
    Ok(copy)
}

fn oid_seen(alloc: Global, oid: ObjectIdentifier) -> Result<String, AllocError>
    ensures { IfOk result (λ text. string_bytes text ≡ grammar.oid_seen oid) }
{
    format!(in alloc; "{oid}")
}

fn directory_seen(alloc: Global, name: &Name) -> Result<String, AllocError>
    ensures { IfOk result (λ text. string_bytes text ≡ name_text name.now) }
{
    format!(in alloc; "{name}")
}

/// A dNSName, an rfc822Name or a URI as it is, an iPAddress in hex, a directoryName by its text, a registeredID, and the type of an otherName.
pub(crate) fn name_seen(alloc: Global, name: &GeneralName) -> Result<String, AllocError>
    ensures { IfOk result (λ text. string_bytes text ≡ grammar.name_seen name.now) }
{
    match name {
        GeneralName::OtherName(other) => oid_seen(alloc, other.type_id),
        GeneralName::Rfc822Name(text) => text_of(alloc, text.as_str()),
        GeneralName::DnsName(text) => text_of(alloc, text.as_str()),
        GeneralName::DirectoryName(name) => directory_seen(alloc, name),
        GeneralName::EdiPartyName(_) => Ok(String::new(alloc)),
        GeneralName::UniformResourceIdentifier(text) => text_of(alloc, text.as_str()),
        GeneralName::IpAddress(octets) => shortened(alloc, octets.as_bytes()),
        GeneralName::RegisteredId(oid) => oid_seen(alloc, *oid),
    }
}

fn parameters_seen(alloc: Global, parameters: &Option<Any>) -> Result<String, AllocError>
    ensures { IfOk result (λ text. string_bytes text ≡ grammar.parameters_seen parameters.now) }
{
    match parameters {
        Some(parameters) => shortened(alloc, parameters.value()),
        None => Ok(String::new(alloc)),
    }
}

fn validity_seen(alloc: Global, certificate: &CertificateInner<Raw>) -> Result<String, AllocError>
    ensures { IfOk result (λ text. string_bytes text ≡ grammar.validity_seen certificate.now) }
{
    let validity = certificate.tbs_certificate().validity();
    let begin = validity.not_before;
    let end = validity.not_after;
    format!(in alloc; "{begin}/{end}")
}

/// What is seen of the part of the certificate, where that isn't names of the SAN.
pub(crate) fn part_seen(
    alloc: Global,
    certificate: &CertificateInner<Raw>,
    part: Part,
) -> Result<String, AllocError>
    ensures { IfOk result (λ text. string_bytes text ≡ grammar.part_seen certificate.now part) }
{
    let key = certificate.tbs_certificate().subject_public_key_info();
    match part {
        Part::Version | Part::Name(_) | Part::Extensions => Ok(String::new(alloc)),
        Part::Signature => oid_seen(alloc, certificate.signature_algorithm().oid),
        Part::KeyAlgorithm => oid_seen(alloc, key.algorithm.oid),
        Part::KeyParameters => parameters_seen(alloc, &key.algorithm.parameters),
        Part::Key => shortened(alloc, key.subject_public_key.raw_bytes()),
        Part::Validity => validity_seen(alloc, certificate),
        Part::Subject => directory_seen(alloc, certificate.tbs_certificate().subject()),
        Part::Extension(oid) => value_of(alloc, oid, extensions_of(certificate)),
    }
}
