//! Extensions: each by the type of its value, which its OID tells.

ghost use Rattle.std.specs.Prelude.{◌≡◌, ◌++◌, OnOk, IfOk, string_bytes};
ghost use Rattle.std.specs.Option.{option_copied};
ghost use Rattle.x509_text.specs.Extensions as payload;

use crate::line::{Place, write_line};
use crate::show::{Show, show_each, show_payload, write_octets};
use crate::values::oid_text;
use std::alloc::{AllocError, Global};
use x509_base::GeneralizedTime;
use x509_der::{AssociatedOid, ObjectIdentifier, oid};
use x509_ext::pkix::{
    AuthorityInfoAccessSyntax, AuthorityKeyIdentifier, BaseCrlNumber, BasicConstraints,
    CertificateIssuer, CertificatePolicies, CrlDistributionPoints, CrlNumber, CrlReason,
    ExtendedKeyUsage, FreshestCrl, InhibitAnyPolicy, IssuerAltName, IssuingDistributionPoint,
    KeyUsage, NameConstraints, PolicyConstraints, PolicyMappings, PrivateKeyUsagePeriod,
    SubjectAltName, SubjectDirectoryAttributes, SubjectInfoAccessSyntax, SubjectKeyIdentifier,
};
use x509_ext::{Extension, Extensions};
use x509_sct::{CtPrecertificatePoison, SignedCertificateTimestampList};

// id-ce-invalidityDate, 2.5.29.24 (RFC 5280 5.3.2)
const INVALIDITY_DATE: ObjectIdentifier = oid!(0x55, 0x1D, 24);

/// The text of an extension's OID, and whether it is critical.
fn extension_text(alloc: Global, extension: &Extension) -> Result<String, AllocError>
    ensures { IfOk result (λ text. string_bytes text ≡ payload.extension_text extension.now) }
{
    let mut text = oid_text(alloc, &extension.extn_id)?;
    if extension.critical {
        text.push_str(", critical")?;
    }
    Ok(text)
}

/// Writes the value of an extension of certificate transparency; the octets where it is none of these.
#[tactic(auto, unfolding(crate::specs::Extensions::transparency_lines))]
fn write_transparency(
    alloc: Global,
    at: Place,
    oid: &ObjectIdentifier,
    octets: &[u8],
    out: &mut String,
) -> Result<(), AllocError>
    ensures { OnOk result (string_bytes out.new ≡ string_bytes out.old ++ payload.transparency_lines at oid.now octets.now) }
{
    if *oid == SignedCertificateTimestampList::OID {
        return show_payload::<SignedCertificateTimestampList>(alloc, at, octets, out);
    }
    if *oid == CtPrecertificatePoison::OID {
        return show_payload::<CtPrecertificatePoison>(alloc, at, octets, out);
    }
    write_octets(alloc, at, "unknown", octets, out)
}

/// Writes the value of an extension of CRLs or of their entries, or of one of the others.
#[tactic(auto, unfolding(crate::specs::Extensions::revocation_lines))]
fn write_revocation(
    alloc: Global,
    at: Place,
    oid: &ObjectIdentifier,
    octets: &[u8],
    out: &mut String,
) -> Result<(), AllocError>
    ensures { OnOk result (string_bytes out.new ≡ string_bytes out.old ++ payload.revocation_lines at oid.now octets.now) }
{
    if *oid == CrlReason::OID {
        return show_payload::<CrlReason>(alloc, at, octets, out);
    }
    if *oid == INVALIDITY_DATE {
        return show_payload::<GeneralizedTime>(alloc, at, octets, out);
    }
    if *oid == CertificateIssuer::OID {
        return show_payload::<CertificateIssuer>(alloc, at, octets, out);
    }
    if *oid == CrlNumber::OID {
        return show_payload::<CrlNumber>(alloc, at, octets, out);
    }
    if *oid == BaseCrlNumber::OID {
        return show_payload::<BaseCrlNumber>(alloc, at, octets, out);
    }
    if *oid == IssuingDistributionPoint::OID {
        return show_payload::<IssuingDistributionPoint>(alloc, at, octets, out);
    }
    write_transparency(alloc, at, oid, octets, out)
}

/// Writes the value of an extension of policies or of limits, or of one of the others.
#[tactic(auto, unfolding(crate::specs::Extensions::policy_value_lines))]
fn write_policy_value(
    alloc: Global,
    at: Place,
    oid: &ObjectIdentifier,
    octets: &[u8],
    out: &mut String,
) -> Result<(), AllocError>
    ensures { OnOk result (string_bytes out.new ≡ string_bytes out.old ++ payload.policy_value_lines at oid.now octets.now) }
{
    if *oid == CertificatePolicies::OID {
        return show_payload::<CertificatePolicies>(alloc, at, octets, out);
    }
    if *oid == PolicyMappings::OID {
        return show_payload::<PolicyMappings>(alloc, at, octets, out);
    }
    if *oid == PolicyConstraints::OID {
        return show_payload::<PolicyConstraints>(alloc, at, octets, out);
    }
    if *oid == InhibitAnyPolicy::OID {
        return show_payload::<InhibitAnyPolicy>(alloc, at, octets, out);
    }
    if *oid == NameConstraints::OID {
        return show_payload::<NameConstraints>(alloc, at, octets, out);
    }
    write_revocation(alloc, at, oid, octets, out)
}

/// Writes the value of an extension that says where more is found, or of one of the others.
#[tactic(auto, unfolding(crate::specs::Extensions::place_lines))]
fn write_place_value(
    alloc: Global,
    at: Place,
    oid: &ObjectIdentifier,
    octets: &[u8],
    out: &mut String,
) -> Result<(), AllocError>
    ensures { OnOk result (string_bytes out.new ≡ string_bytes out.old ++ payload.place_lines at oid.now octets.now) }
{
    if *oid == AuthorityInfoAccessSyntax::OID {
        return show_payload::<AuthorityInfoAccessSyntax>(alloc, at, octets, out);
    }
    if *oid == SubjectInfoAccessSyntax::OID {
        return show_payload::<SubjectInfoAccessSyntax>(alloc, at, octets, out);
    }
    if *oid == CrlDistributionPoints::OID {
        return show_payload::<CrlDistributionPoints>(alloc, at, octets, out);
    }
    if *oid == FreshestCrl::OID {
        return show_payload::<FreshestCrl>(alloc, at, octets, out);
    }
    if *oid == IssuerAltName::OID {
        return show_payload::<IssuerAltName>(alloc, at, octets, out);
    }
    if *oid == SubjectDirectoryAttributes::OID {
        return show_payload::<SubjectDirectoryAttributes>(alloc, at, octets, out);
    }
    write_policy_value(alloc, at, oid, octets, out)
}

/// Writes the value of an extension with that OID.
#[tactic(auto, unfolding(crate::specs::Extensions::value_lines))]
fn write_value(
    alloc: Global,
    at: Place,
    oid: &ObjectIdentifier,
    octets: &[u8],
    out: &mut String,
) -> Result<(), AllocError>
    ensures { OnOk result (string_bytes out.new ≡ string_bytes out.old ++ payload.value_lines at oid.now octets.now) }
{
    if *oid == KeyUsage::OID {
        return show_payload::<KeyUsage>(alloc, at, octets, out);
    }
    if *oid == ExtendedKeyUsage::OID {
        return show_payload::<ExtendedKeyUsage>(alloc, at, octets, out);
    }
    if *oid == BasicConstraints::OID {
        return show_payload::<BasicConstraints>(alloc, at, octets, out);
    }
    if *oid == SubjectAltName::OID {
        return show_payload::<SubjectAltName>(alloc, at, octets, out);
    }
    if *oid == SubjectKeyIdentifier::OID {
        return show_payload::<SubjectKeyIdentifier>(alloc, at, octets, out);
    }
    if *oid == AuthorityKeyIdentifier::OID {
        return show_payload::<AuthorityKeyIdentifier>(alloc, at, octets, out);
    }
    if *oid == PrivateKeyUsagePeriod::OID {
        return show_payload::<PrivateKeyUsagePeriod>(alloc, at, octets, out);
    }
    write_place_value(alloc, at, oid, octets, out)
}

#[tactic(auto, unfolding(crate::specs::Extensions::extension_lines))]
impl Show for Extension {
    ghost use Rattle.x509_text.specs.Extensions.{extension_lines};

    ghost lines = { extension_lines };

    fn show(&self, alloc: Global, at: Place, out: &mut String) -> Result<(), AllocError> {
        let text = extension_text(alloc, self)?;
        write_line(alloc, at, "extension", text.as_str(), out)?;
        write_value(
            alloc,
            at.below(),
            &self.extn_id,
            self.extn_value.as_bytes(),
            out,
        )
    }
}

impl Show for Extensions {
    ghost use Rattle.x509_text.specs.Extensions.{extensions_lines};

    ghost lines = { extensions_lines };

    fn show(&self, alloc: Global, at: Place, out: &mut String) -> Result<(), AllocError> {
        show_each(alloc, at, self.as_slice(), out)
    }
}

/// Writes extensions that may be left out.
pub(crate) fn write_extensions(
    alloc: Global,
    at: Place,
    extensions: Option<&Extensions>,
    out: &mut String,
) -> Result<(), AllocError>
    ensures { OnOk result (string_bytes out.new ≡ string_bytes out.old ++ payload.optional_extensions at (option_copied extensions.entry)) }
{
    match extensions {
        Some(extensions) => extensions.show(alloc, at, out),
        None => Ok(()),
    }
}
