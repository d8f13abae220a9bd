//! What a key may be used for, and key identifiers (RFC 5280 4.2.1).

ghost use Rattle.std.specs.Prelude.{◌≡◌, ◌++◌, OnOk, string_bytes};
ghost use Rattle.x509_text.specs.Usages as usages;

use crate::general_names::write_optional_names;
use crate::line::{Place, write_line, write_where};
use crate::show::{Show, show_each, write_octets};
use crate::values::{write_any, write_moment, write_oid, write_optional_number, write_serial};
use std::alloc::{AllocError, Global};
use x509_base::{GeneralizedTime, SerialNumber};
use x509_der::{Any, ObjectIdentifier};
use x509_ext::pkix::{
    AuthorityKeyIdentifier, BasicConstraints, ExtendedKeyUsage, KeyUsage, PrivateKeyUsagePeriod,
    SubjectDirectoryAttributes, SubjectKeyIdentifier,
};
use x509_name::attr::Attribute;
use x509_prim::OctetString;

/// `yes` or `no`.
pub(crate) fn yes_or_no(is_so: bool) -> &'static str
    ensures { result.now ≡ usages.yes_or_no is_so }
{
    if is_so { "yes" } else { "no" }
}

/// Writes a usage where its bit is set.
fn write_usage(
    alloc: Global,
    at: Place,
    name: &str,
    is_set: bool,
    out: &mut String,
) -> Result<(), AllocError>
    ensures { OnOk result (string_bytes out.new ≡ string_bytes out.old ++ usages.usage_line at name.now is_set) }
{
    write_where(alloc, at, "usage", name, is_set, out)
}

/// Writes the usages of the bits 0 to 4.
#[tactic(auto, unfolding(crate::specs::Usages::first_usages))]
fn write_first_usages(
    alloc: Global,
    at: Place,
    usage: KeyUsage,
    out: &mut String,
) -> Result<(), AllocError>
    ensures { OnOk result (string_bytes out.new ≡ string_bytes out.old ++ usages.first_usages at usage) }
{
    write_usage(
        alloc,
        at,
        "digitalSignature",
        usage.digital_signature(),
        out,
    )?;
    write_usage(alloc, at, "nonRepudiation", usage.non_repudiation(), out)?;
    write_usage(alloc, at, "keyEncipherment", usage.key_encipherment(), out)?;
    write_usage(
        alloc,
        at,
        "dataEncipherment",
        usage.data_encipherment(),
        out,
    )?;
    write_usage(alloc, at, "keyAgreement", usage.key_agreement(), out)
}

/// Writes the usages of the bits 5 to 8.
#[tactic(auto, unfolding(crate::specs::Usages::last_usages))]
fn write_last_usages(
    alloc: Global,
    at: Place,
    usage: KeyUsage,
    out: &mut String,
) -> Result<(), AllocError>
    ensures { OnOk result (string_bytes out.new ≡ string_bytes out.old ++ usages.last_usages at usage) }
{
    write_usage(alloc, at, "keyCertSign", usage.key_cert_sign(), out)?;
    write_usage(alloc, at, "cRLSign", usage.crl_sign(), out)?;
    write_usage(alloc, at, "encipherOnly", usage.encipher_only(), out)?;
    write_usage(alloc, at, "decipherOnly", usage.decipher_only(), out)
}

#[tactic(auto, unfolding(crate::specs::Usages::key_usage_lines))]
impl Show for KeyUsage {
    ghost use Rattle.x509_text.specs.Usages.{key_usage_lines};

    ghost lines = { key_usage_lines };

    fn show(&self, alloc: Global, at: Place, out: &mut String) -> Result<(), AllocError> {
        write_first_usages(alloc, at, *self, out)?;
        write_last_usages(alloc, at, *self, out)
    }
}

impl Show for ObjectIdentifier {
    ghost use Rattle.x509_text.specs.Usages.{purpose_line};

    ghost lines = { purpose_line };

    /// A purpose of extended key usage.
    fn show(&self, alloc: Global, at: Place, out: &mut String) -> Result<(), AllocError> {
        write_oid(alloc, at, "purpose", self, out)
    }
}

impl Show for ExtendedKeyUsage {
    ghost use Rattle.x509_text.specs.Usages.{purposes_lines};

    ghost lines = { λ at usage. purposes_lines at usage.0 };

    fn show(&self, alloc: Global, at: Place, out: &mut String) -> Result<(), AllocError> {
        show_each(alloc, at, self.0.as_slice(), out)
    }
}

#[tactic(auto, unfolding(crate::specs::Usages::basic_constraints_lines))]
impl Show for BasicConstraints {
    ghost use Rattle.x509_text.specs.Usages.{basic_constraints_lines};

    ghost lines = { basic_constraints_lines };

    fn show(&self, alloc: Global, at: Place, out: &mut String) -> Result<(), AllocError> {
        write_line(
            alloc,
            at,
            "certification authority",
            yes_or_no(self.ca),
            out,
        )?;
        let len = self.path_len_constraint.map(u32::from);
        write_optional_number(alloc, at, "path length", len, out)
    }
}

#[tactic(auto, unfolding(crate::specs::Usages::subject_key_lines))]
impl Show for SubjectKeyIdentifier {
    ghost use Rattle.x509_text.specs.Usages.{subject_key_lines};

    ghost lines = { subject_key_lines };

    fn show(&self, alloc: Global, at: Place, out: &mut String) -> Result<(), AllocError> {
        write_octets(alloc, at, "key identifier", self.0.as_bytes(), out)
    }
}

/// Writes a key identifier that may be left out.
fn write_optional_key(
    alloc: Global,
    at: Place,
    key: &Option<OctetString>,
    out: &mut String,
) -> Result<(), AllocError>
    ensures { OnOk result (string_bytes out.new ≡ string_bytes out.old ++ usages.optional_key at key.now) }
{
    match key {
        Some(key) => write_octets(alloc, at, "key identifier", key.as_bytes(), out),
        None => Ok(()),
    }
}

/// Writes a serial number that may be left out.
fn write_optional_serial(
    alloc: Global,
    at: Place,
    serial: &Option<SerialNumber>,
    out: &mut String,
) -> Result<(), AllocError>
    ensures { OnOk result (string_bytes out.new ≡ string_bytes out.old ++ usages.optional_serial at serial.now) }
{
    match serial {
        Some(serial) => write_serial(alloc, at, "serial", serial, out),
        None => Ok(()),
    }
}

#[tactic(auto, unfolding(crate::specs::Usages::authority_key_lines))]
impl Show for AuthorityKeyIdentifier {
    ghost use Rattle.x509_text.specs.Usages.{authority_key_lines};

    ghost lines = { authority_key_lines };

    fn show(&self, alloc: Global, at: Place, out: &mut String) -> Result<(), AllocError> {
        write_optional_key(alloc, at, &self.key_identifier, out)?;
        write_optional_names(alloc, at, "issuer", &self.authority_cert_issuer, out)?;
        write_optional_serial(alloc, at, &self.authority_cert_serial_number, out)
    }
}

/// Writes a moment that may be left out.
fn write_optional_moment(
    alloc: Global,
    at: Place,
    label: &str,
    moment: &Option<GeneralizedTime>,
    out: &mut String,
) -> Result<(), AllocError>
    ensures { OnOk result (string_bytes out.new ≡ string_bytes out.old ++ usages.optional_moment at label.now moment.now) }
{
    match moment {
        Some(moment) => write_moment(alloc, at, label, &moment.to_date_time(), out),
        None => Ok(()),
    }
}

#[tactic(auto, unfolding(crate::specs::Usages::period_lines))]
impl Show for PrivateKeyUsagePeriod {
    ghost use Rattle.x509_text.specs.Usages.{period_lines};

    ghost lines = { period_lines };

    fn show(&self, alloc: Global, at: Place, out: &mut String) -> Result<(), AllocError> {
        write_optional_moment(alloc, at, "not before", &self.not_before, out)?;
        write_optional_moment(alloc, at, "not after", &self.not_after, out)
    }
}

impl Show for Any {
    ghost use Rattle.x509_text.specs.Usages.{value_line};

    ghost lines = { value_line };

    /// A value of an attribute.
    fn show(&self, alloc: Global, at: Place, out: &mut String) -> Result<(), AllocError> {
        write_any(alloc, at, "value", self, out)
    }
}

#[tactic(auto, unfolding(crate::specs::Usages::attribute_lines))]
impl Show for Attribute {
    ghost use Rattle.x509_text.specs.Usages.{attribute_lines};

    ghost lines = { attribute_lines };

    fn show(&self, alloc: Global, at: Place, out: &mut String) -> Result<(), AllocError> {
        write_oid(alloc, at, "attribute", &self.oid, out)?;
        show_each(alloc, at.below(), self.values.as_slice(), out)
    }
}

impl Show for SubjectDirectoryAttributes {
    ghost use Rattle.x509_text.specs.Usages.{attributes_lines};

    ghost lines = { λ at attributes. attributes_lines at attributes.0 };

    fn show(&self, alloc: Global, at: Place, out: &mut String) -> Result<(), AllocError> {
        show_each(alloc, at, self.0.as_slice(), out)
    }
}
