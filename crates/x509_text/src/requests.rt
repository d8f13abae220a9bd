//! PKCS #10 requests, CSRs (RFC 2986 4).

ghost use Rattle.std.specs.List.{flat_map};
ghost use Rattle.std.specs.Prelude.{◌≡◌, ◌++◌, OnOk, string_bytes};
ghost use Rattle.x509_text.specs.Requests as requests;

use crate::algorithms::{write_algorithm, write_key};
use crate::general_names::write_directory_string;
use crate::line::{Place, write_line};
use crate::show::{Show, show_each, show_each_any};
use crate::values::{write_bits, write_name, write_oid};
use std::alloc::{AllocError, Global};
use x509_cert::request::attributes::ChallengePassword;
use x509_cert::request::{CertReq, CertReqInfo, ExtensionReq, Version};
use x509_der::{Any, AssociatedOid, ObjectIdentifier};
use x509_ext::Extensions;
use x509_name::attr::Attribute;

/// The text of a version.
fn version_text(version: Version) -> &'static str
    ensures { result.now ≡ requests.version_text version }
{
    match version {
        Version::V1 => "v1",
    }
}

impl Show for ChallengePassword {
    ghost use Rattle.x509_text.specs.Requests.{password_line};

    ghost lines = { password_line };

    fn show(&self, alloc: Global, at: Place, out: &mut String) -> Result<(), AllocError> {
        write_directory_string(alloc, at, "challenge password", &self.0, out)
    }
}

/// Writes the values of an attribute with that type.
#[tactic(auto, unfolding(crate::specs::Requests::values_lines))]
fn write_values(
    alloc: Global,
    at: Place,
    oid: &ObjectIdentifier,
    values: &[Any],
    out: &mut String,
) -> Result<(), AllocError>
    ensures { OnOk result (string_bytes out.new ≡ string_bytes out.old ++ requests.values_lines at oid.now values.now) }
{
    if *oid == ExtensionReq::OID {
        return show_each_any::<Extensions>(alloc, at, values, out);
    }
    if *oid == ChallengePassword::OID {
        return show_each_any::<ChallengePassword>(alloc, at, values, out);
    }
    show_each(alloc, at, values, out)
}

/// Writes an attribute.
#[tactic(auto, unfolding(crate::specs::Requests::attribute_lines))]
fn write_attribute(
    alloc: Global,
    at: Place,
    attribute: &Attribute,
    out: &mut String,
) -> Result<(), AllocError>
    ensures { OnOk result (string_bytes out.new ≡ string_bytes out.old ++ requests.attribute_lines at attribute.now) }
{
    write_oid(alloc, at, "attribute", &attribute.oid, out)?;
    write_values(
        alloc,
        at.below(),
        &attribute.oid,
        attribute.values.as_slice(),
        out,
    )
}

/// Writes attributes.
fn write_attributes(
    alloc: Global,
    at: Place,
    attributes: &[Attribute],
    out: &mut String,
) -> Result<(), AllocError>
    ensures { OnOk result (string_bytes out.new ≡ string_bytes out.old ++ flat_map (requests.attribute_lines at) attributes.now) }
{
    for attribute in attributes {
        write_attribute(alloc, at, attribute, out)?;
    }
    Ok(())
}

#[tactic(auto, unfolding(crate::specs::Requests::part_lines))]
impl Show for CertReqInfo {
    ghost use Rattle.x509_text.specs.Requests.{part_lines};

    ghost lines = { part_lines };

    fn show(&self, alloc: Global, at: Place, out: &mut String) -> Result<(), AllocError> {
        write_line(alloc, at, "version", version_text(self.version), out)?;
        write_name(alloc, at, "subject", &self.subject, out)?;
        write_key(alloc, at, &self.public_key, out)?;
        write_attributes(alloc, at, self.attributes.as_slice(), out)
    }
}

#[tactic(auto, unfolding(crate::specs::Requests::request_lines))]
impl Show for CertReq {
    ghost use Rattle.x509_text.specs.Requests.{request_lines};

    ghost lines = { request_lines };

    fn show(&self, alloc: Global, at: Place, out: &mut String) -> Result<(), AllocError> {
        self.info.show(alloc, at, out)?;
        write_algorithm(alloc, at, "signature algorithm", &self.algorithm, out)?;
        write_bits(alloc, at, "signature", &self.signature, out)
    }
}
