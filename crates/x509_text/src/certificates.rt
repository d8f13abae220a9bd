//! Certificates (RFC 5280 4.1).

ghost use Rattle.std.specs.Prelude.{◌≡◌, ◌++◌, OnOk, string_bytes};
ghost use Rattle.x509_text.specs.Certificates as certificates;

use crate::algorithms::{write_algorithm, write_key};
use crate::extensions::write_extensions;
use crate::line::{Place, write_line};
use crate::show::Show;
use crate::values::{write_bits, write_moment, write_name, write_optional_bits, write_serial};
use std::alloc::{AllocError, Global};
use x509_base::{Profile, Time, Validity};
use x509_cert::certificate::{CertificateInner, TbsCertificateInner, Version};

/// The text of a version.
pub(crate) fn version_text(version: Version) -> &'static str
    ensures { result.now ≡ certificates.version_text version }
{
    match version {
        Version::V1 => "v1",
        Version::V2 => "v2",
        Version::V3 => "v3",
    }
}

/// Writes a date.
pub(crate) fn write_time(
    alloc: Global,
    at: Place,
    label: &str,
    time: &Time,
    out: &mut String,
) -> Result<(), AllocError>
    ensures { OnOk result (string_bytes out.new ≡ string_bytes out.old ++ certificates.time_line at label.now time.now) }
{
    let moment = time.to_date_time();
    write_moment(alloc, at, label, &moment, out)
}

/// Writes the dates between which a certificate is valid.
#[tactic(auto, unfolding(crate::specs::Certificates::validity_lines))]
fn write_validity<P: Profile>(
    alloc: Global,
    at: Place,
    validity: &Validity<P>,
    out: &mut String,
) -> Result<(), AllocError>
    ensures { OnOk result (string_bytes out.new ≡ string_bytes out.old ++ certificates.validity_lines at validity.now) }
{
    write_time(alloc, at, "not before", &validity.not_before, out)?;
    write_time(alloc, at, "not after", &validity.not_after, out)
}

/// Writes what stands before the key.
#[tactic(auto, unfolding(crate::specs::Certificates::head_lines))]
fn write_head<P: Profile>(
    alloc: Global,
    at: Place,
    part: &TbsCertificateInner<P>,
    out: &mut String,
) -> Result<(), AllocError>
    ensures { OnOk result (string_bytes out.new ≡ string_bytes out.old ++ certificates.head_lines at part.now) }
{
    write_line(alloc, at, "version", version_text(part.version()), out)?;
    write_serial(alloc, at, "serial", part.serial_number(), out)?;
    write_algorithm(alloc, at, "algorithm", part.signature(), out)?;
    write_name(alloc, at, "issuer", part.issuer(), out)?;
    write_validity(alloc, at, part.validity(), out)?;
    write_name(alloc, at, "subject", part.subject(), out)
}

#[tactic(auto, unfolding(crate::specs::Certificates::part_lines))]
impl<P: Profile> Show for TbsCertificateInner<P> {
    ghost use Rattle.x509_text.specs.Certificates.{part_lines};

    ghost lines = { part_lines };

    fn show(&self, alloc: Global, at: Place, out: &mut String) -> Result<(), AllocError> {
        write_head(alloc, at, self, out)?;
        write_key(alloc, at, self.subject_public_key_info(), out)?;
        write_optional_bits(alloc, at, "issuer unique ID", self.issuer_unique_id(), out)?;
        write_optional_bits(
            alloc,
            at,
            "subject unique ID",
            self.subject_unique_id(),
            out,
        )?;
        write_extensions(alloc, at, self.extensions(), out)
    }
}

#[tactic(auto, unfolding(crate::specs::Certificates::certificate_lines))]
impl<P: Profile> Show for CertificateInner<P> {
    ghost use Rattle.x509_text.specs.Certificates.{certificate_lines};

    ghost lines = { certificate_lines };

    fn show(&self, alloc: Global, at: Place, out: &mut String) -> Result<(), AllocError> {
        self.tbs_certificate().show(alloc, at, out)?;
        write_algorithm(
            alloc,
            at,
            "signature algorithm",
            self.signature_algorithm(),
            out,
        )?;
        write_bits(alloc, at, "signature", self.signature(), out)
    }
}
