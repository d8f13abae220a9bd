//! Trust anchors (RFC 5914).

ghost use Rattle.std.specs.Int.RustNames.{bit_and};
ghost use Rattle.std.specs.Prelude.{◌≡◌, ◌==◌, ◌++◌, OnOk, string_bytes};
ghost use Rattle.x509_text.specs.Anchors as anchors;
ghost use Rattle.x509_text.specs.Payloads as payloads;

use crate::algorithms::write_key;
use crate::extensions::write_extensions;
use crate::line::{Place, write_line, write_where};
use crate::show::{Show, show_option, write_octets};
use crate::values::{write_name, write_optional_number};
use bitflags::Flags;
use std::alloc::{AllocError, Global};
use x509_base::Profile;
use x509_cert::anchor::{
    CertPathControls, CertPolicies, TrustAnchorChoice, TrustAnchorInfo, Version,
};
use x509_cert::certificate::CertificateInner;
use x509_ext::pkix::{CertificatePolicies, NameConstraints};
use x509_prim::Utf8String;

/// Writes a flag where its bit is set.
fn write_flag(
    alloc: Global,
    at: Place,
    name: &str,
    is_set: bool,
    out: &mut String,
) -> Result<(), AllocError>
    ensures { OnOk result (string_bytes out.new ≡ string_bytes out.old ++ anchors.flag_line at name.now is_set) }
{
    write_where(alloc, at, "policy flag", name, is_set, out)
}

/// Whether a set of flags has all of another one.
fn has(flags: CertPolicies, other: CertPolicies) -> bool
    ensures { result ≡ (bit_and flags.0 other.0 == other.0) }
{
    flags.contains(other)
}

#[tactic(auto, unfolding(crate::specs::Anchors::flags_lines))]
impl Show for CertPolicies {
    ghost use Rattle.x509_text.specs.Anchors.{flags_lines};

    ghost lines = { flags_lines };

    fn show(&self, alloc: Global, at: Place, out: &mut String) -> Result<(), AllocError> {
        let mapping = has(*self, CertPolicies::INHIBIT_POLICY_MAPPING);
        let explicit = has(*self, CertPolicies::REQUIRE_EXPLICIT_POLICY);
        let any = has(*self, CertPolicies::INHIBIT_ANY_POLICY);
        write_flag(alloc, at, "inhibitPolicyMapping", mapping, out)?;
        write_flag(alloc, at, "requireExplicitPolicy", explicit, out)?;
        write_flag(alloc, at, "inhibitAnyPolicy", any, out)
    }
}

/// Writes a value under a label.
fn write_labelled<T: Show>(
    alloc: Global,
    at: Place,
    label: &str,
    value: &T,
    out: &mut String,
) -> Result<(), AllocError>
    ensures { OnOk result (string_bytes out.new ≡ string_bytes out.old ++ anchors.labelled T.lines label.now at value.now) }
{
    write_line(alloc, at, label, "", out)?;
    value.show(alloc, at.below(), out)
}

/// Writes a value that may be left out, under a label.
fn write_optional_labelled<T: Show>(
    alloc: Global,
    at: Place,
    label: &str,
    value: &Option<T>,
    out: &mut String,
) -> Result<(), AllocError>
    ensures { OnOk result (string_bytes out.new ≡ string_bytes out.old ++ payloads.optional (anchors.labelled T.lines label.now at) value.now) }
{
    match value {
        Some(value) => write_labelled(alloc, at, label, value, out),
        None => Ok(()),
    }
}

/// Writes the limits of paths: policies, names, their length.
#[tactic(auto, unfolding(crate::specs::Anchors::limits_lines))]
fn write_limits<P: Profile>(
    alloc: Global,
    at: Place,
    controls: &CertPathControls<P>,
    out: &mut String,
) -> Result<(), AllocError>
    ensures { OnOk result (string_bytes out.new ≡ string_bytes out.old ++ anchors.limits_lines at controls.now) }
{
    let length = controls.path_len_constraint;
    write_optional_labelled::<CertificatePolicies>(
        alloc,
        at,
        "policy set",
        &controls.policy_set,
        out,
    )?;
    show_option(alloc, at, &controls.policy_flags, out)?;
    write_optional_labelled::<NameConstraints>(
        alloc,
        at,
        "name constraints",
        &controls.name_constr,
        out,
    )?;
    write_optional_number(alloc, at, "path length", length, out)
}

#[tactic(auto, unfolding(crate::specs::Anchors::controls_lines))]
impl<P: Profile> Show for CertPathControls<P> {
    ghost use Rattle.x509_text.specs.Anchors.{controls_lines};

    ghost lines = { controls_lines };

    fn show(&self, alloc: Global, at: Place, out: &mut String) -> Result<(), AllocError> {
        write_name(alloc, at, "name", &self.ta_name, out)?;
        write_optional_labelled::<CertificateInner<P>>(
            alloc,
            at,
            "certificate",
            &self.certificate,
            out,
        )?;
        write_limits(alloc, at, self, out)
    }
}

/// The text of a version.
fn version_text(version: Version) -> &'static str
    ensures { result.now ≡ anchors.version_text version }
{
    match version {
        Version::V1 => "v1",
    }
}

/// Writes a text that may be left out.
fn write_optional_text(
    alloc: Global,
    at: Place,
    label: &str,
    text: &Option<Utf8String>,
    out: &mut String,
) -> Result<(), AllocError>
    ensures { OnOk result (string_bytes out.new ≡ string_bytes out.old ++ anchors.optional_text at label.now text.now) }
{
    match text {
        Some(text) => write_line(alloc, at, label, text.as_str(), out),
        None => Ok(()),
    }
}

/// Writes the version, the key and its identifier, the title and its language.
#[tactic(auto, unfolding(crate::specs::Anchors::head_lines))]
fn write_head<P: Profile>(
    alloc: Global,
    at: Place,
    info: &TrustAnchorInfo<P>,
    out: &mut String,
) -> Result<(), AllocError>
    ensures { OnOk result (string_bytes out.new ≡ string_bytes out.old ++ anchors.head_lines at info.now) }
{
    write_line(alloc, at, "version", version_text(info.version), out)?;
    write_key(alloc, at, &info.pub_key, out)?;
    write_octets(alloc, at, "key identifier", info.key_id.as_bytes(), out)?;
    write_optional_text(alloc, at, "title", &info.ta_title, out)?;
    write_optional_text(alloc, at, "title language", &info.ta_title_lang_tag, out)
}

#[tactic(auto, unfolding(crate::specs::Anchors::info_lines))]
impl<P: Profile> Show for TrustAnchorInfo<P> {
    ghost use Rattle.x509_text.specs.Anchors.{info_lines};

    ghost lines = { info_lines };

    fn show(&self, alloc: Global, at: Place, out: &mut String) -> Result<(), AllocError> {
        write_head(alloc, at, self, out)?;
        show_option(alloc, at, &self.cert_path, out)?;
        write_extensions(alloc, at, self.extensions.as_ref(), out)
    }
}

#[tactic(auto, unfolding(crate::specs::Anchors::anchor_lines))]
impl<P: Profile> Show for TrustAnchorChoice<P> {
    ghost use Rattle.x509_text.specs.Anchors.{anchor_lines};

    ghost lines = { anchor_lines };

    fn show(&self, alloc: Global, at: Place, out: &mut String) -> Result<(), AllocError> {
        match self {
            TrustAnchorChoice::Certificate(certificate) => {
                write_line(alloc, at, "choice", "certificate", out)?;
                certificate.show(alloc, at, out)
            }
            TrustAnchorChoice::TbsCertificate(part) => {
                write_line(alloc, at, "choice", "tbsCert", out)?;
                part.show(alloc, at, out)
            }
            TrustAnchorChoice::TaInfo(info) => {
                write_line(alloc, at, "choice", "taInfo", out)?;
                info.show(alloc, at, out)
            }
        }
    }
}
