//! General names (RFC 5280 4.2.1.6), and where they stand.

ghost use Rattle.std.specs.Prelude.{◌≡◌, ◌++◌, OnOk, IfOk, string_bytes};
ghost use Rattle.x509_text.specs.GeneralNames as general;

use crate::line::{Place, write_line};
use crate::show::{Show, show_each};
use crate::values::{address_text, write_any, write_name, write_oid};
use std::alloc::{AllocError, Global};
use x509_ext::pkix::name::{
    DistributionPointName, EdiPartyName, GeneralName, GeneralNames, OtherName,
};
use x509_ext::pkix::{
    AccessDescription, AuthorityInfoAccessSyntax, CertificateIssuer, IssuerAltName, SubjectAltName,
    SubjectInfoAccessSyntax,
};
use x509_name::name::DirectoryString;

/// Writes a text of a name.
pub(crate) fn write_directory_string(
    alloc: Global,
    at: Place,
    label: &str,
    string: &DirectoryString,
    out: &mut String,
) -> Result<(), AllocError>
    ensures { OnOk result (string_bytes out.new ≡ string_bytes out.old ++ general.string_line at label.now string.now) }
{
    match string {
        DirectoryString::PrintableString(text) => write_line(alloc, at, label, text.as_str(), out),
        DirectoryString::TeletexString(text) => write_line(alloc, at, label, text.as_str(), out),
        DirectoryString::Utf8String(text) => write_line(alloc, at, label, text.as_str(), out),
        DirectoryString::BmpString(text) => match text.to_text(alloc) {
            Ok(text) => write_line(alloc, at, label, text.as_str(), out),
            Err(_) => Err(AllocError),
        },
    }
}

/// Writes a text of a name that may be left out.
fn write_optional_string(
    alloc: Global,
    at: Place,
    label: &str,
    string: &Option<DirectoryString>,
    out: &mut String,
) -> Result<(), AllocError>
    ensures { OnOk result (string_bytes out.new ≡ string_bytes out.old ++ general.optional_string at label.now string.now) }
{
    match string {
        Some(string) => write_directory_string(alloc, at, label, string, out),
        None => Ok(()),
    }
}

/// Writes an EDI party name.
#[tactic(auto, unfolding(crate::specs::GeneralNames::party_lines))]
fn write_party(
    alloc: Global,
    at: Place,
    party: &EdiPartyName,
    out: &mut String,
) -> Result<(), AllocError>
    ensures { OnOk result (string_bytes out.new ≡ string_bytes out.old ++ general.party_lines at party.now) }
{
    write_directory_string(alloc, at, "EDI party name", &party.party_name, out)?;
    write_optional_string(
        alloc,
        at.below(),
        "name assigner",
        &party.name_assigner,
        out,
    )
}

/// Writes a name whose type is given by an OID.
#[tactic(auto, unfolding(crate::specs::GeneralNames::other_lines))]
fn write_other(
    alloc: Global,
    at: Place,
    other: &OtherName,
    out: &mut String,
) -> Result<(), AllocError>
    ensures { OnOk result (string_bytes out.new ≡ string_bytes out.old ++ general.other_lines at other.now) }
{
    write_oid(alloc, at, "other name", &other.type_id, out)?;
    write_any(alloc, at.below(), "value", &other.value, out)
}

/// Writes an IP address, or one with its mask.
#[tactic(auto, unfolding(crate::specs::GeneralNames::address_line))]
fn write_address(
    alloc: Global,
    at: Place,
    octets: &[u8],
    out: &mut String,
) -> Result<(), AllocError>
    ensures { OnOk result (string_bytes out.new ≡ string_bytes out.old ++ general.address_line at octets.now) }
{
    let text = address_text(alloc, octets)?;
    write_line(alloc, at, "IP address", text.as_str(), out)
}

#[tactic(auto, unfolding(crate::specs::GeneralNames::general_name_lines))]
impl Show for GeneralName {
    ghost use Rattle.x509_text.specs.GeneralNames.{general_name_lines};

    ghost lines = { general_name_lines };

    fn show(&self, alloc: Global, at: Place, out: &mut String) -> Result<(), AllocError> {
        match self {
            GeneralName::OtherName(other) => write_other(alloc, at, other, out),
            GeneralName::Rfc822Name(text) => write_line(alloc, at, "email", text.as_str(), out),
            GeneralName::DnsName(text) => write_line(alloc, at, "DNS name", text.as_str(), out),
            GeneralName::DirectoryName(name) => write_name(alloc, at, "directory name", name, out),
            GeneralName::EdiPartyName(party) => write_party(alloc, at, party, out),
            GeneralName::UniformResourceIdentifier(text) => {
                write_line(alloc, at, "URI", text.as_str(), out)
            }
            GeneralName::IpAddress(octets) => write_address(alloc, at, octets.as_bytes(), out),
            GeneralName::RegisteredId(oid) => write_oid(alloc, at, "registered ID", oid, out),
        }
    }
}

/// Writes general names under a label.
#[tactic(auto, unfolding(crate::specs::GeneralNames::labelled_names))]
fn write_names(
    alloc: Global,
    at: Place,
    label: &str,
    names: &GeneralNames,
    out: &mut String,
) -> Result<(), AllocError>
    ensures { OnOk result (string_bytes out.new ≡ string_bytes out.old ++ general.labelled_names at label.now names.now) }
{
    write_line(alloc, at, label, "", out)?;
    show_each(alloc, at.below(), names.as_slice(), out)
}

/// Writes general names that may be left out, under a label.
pub(crate) fn write_optional_names(
    alloc: Global,
    at: Place,
    label: &str,
    names: &Option<GeneralNames>,
    out: &mut String,
) -> Result<(), AllocError>
    ensures { OnOk result (string_bytes out.new ≡ string_bytes out.old ++ general.optional_names at label.now names.now) }
{
    match names {
        Some(names) => write_names(alloc, at, label, names, out),
        None => Ok(()),
    }
}

#[tactic(auto, unfolding(crate::specs::GeneralNames::point_name_lines))]
impl Show for DistributionPointName {
    ghost use Rattle.x509_text.specs.GeneralNames.{point_name_lines};

    ghost lines = { point_name_lines };

    fn show(&self, alloc: Global, at: Place, out: &mut String) -> Result<(), AllocError> {
        match self {
            DistributionPointName::FullName(names) => show_each(alloc, at, names.as_slice(), out),
            DistributionPointName::NameRelativeToCRLIssuer(rdn) => {
                let text = rdn.to_string(alloc)?;
                write_line(
                    alloc,
                    at,
                    "name relative to the CRL issuer",
                    text.as_str(),
                    out,
                )
            }
        }
    }
}

#[tactic(auto, unfolding(crate::specs::GeneralNames::access_lines))]
impl Show for AccessDescription {
    ghost use Rattle.x509_text.specs.GeneralNames.{access_lines};

    ghost lines = { access_lines };

    fn show(&self, alloc: Global, at: Place, out: &mut String) -> Result<(), AllocError> {
        write_oid(alloc, at, "access method", &self.access_method, out)?;
        self.access_location.show(alloc, at.below(), out)
    }
}

impl Show for SubjectAltName {
    ghost use Rattle.x509_text.specs.GeneralNames.{names_lines};

    ghost lines = { λ at names. names_lines at names.0 };

    fn show(&self, alloc: Global, at: Place, out: &mut String) -> Result<(), AllocError> {
        show_each(alloc, at, self.0.as_slice(), out)
    }
}

impl Show for IssuerAltName {
    ghost use Rattle.x509_text.specs.GeneralNames.{names_lines};

    ghost lines = { λ at names. names_lines at names.0 };

    fn show(&self, alloc: Global, at: Place, out: &mut String) -> Result<(), AllocError> {
        show_each(alloc, at, self.0.as_slice(), out)
    }
}

impl Show for CertificateIssuer {
    ghost use Rattle.x509_text.specs.GeneralNames.{names_lines};

    ghost lines = { λ at names. names_lines at names.0 };

    fn show(&self, alloc: Global, at: Place, out: &mut String) -> Result<(), AllocError> {
        show_each(alloc, at, self.0.as_slice(), out)
    }
}

impl Show for AuthorityInfoAccessSyntax {
    ghost use Rattle.x509_text.specs.GeneralNames.{accesses_lines};

    ghost lines = { λ at access. accesses_lines at access.0 };

    fn show(&self, alloc: Global, at: Place, out: &mut String) -> Result<(), AllocError> {
        show_each(alloc, at, self.0.as_slice(), out)
    }
}

impl Show for SubjectInfoAccessSyntax {
    ghost use Rattle.x509_text.specs.GeneralNames.{accesses_lines};

    ghost lines = { λ at access. accesses_lines at access.0 };

    fn show(&self, alloc: Global, at: Place, out: &mut String) -> Result<(), AllocError> {
        show_each(alloc, at, self.0.as_slice(), out)
    }
}
