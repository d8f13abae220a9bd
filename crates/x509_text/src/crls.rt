//! CRLs (RFC 5280 5.1).

ghost use Rattle.std.specs.Prelude.{◌≡◌, ◌++◌, OnOk, string_bytes};
ghost use Rattle.x509_text.specs.Crls as crls;

use crate::algorithms::write_algorithm;
use crate::certificates;
use crate::certificates::write_time;
use crate::extensions::write_extensions;
use crate::line::{Place, write_line};
use crate::show::{Show, show_each};
use crate::values::{write_bits, write_name, write_serial};
use std::alloc::{AllocError, Global};
use x509_base::{Profile, Time};
use x509_cert::certificate::Version;
use x509_cert::crl::{CertificateList, RevokedCert, TbsCertList};

/// The text of a version: a CRL without one is of version 1 (RFC 5280 5.1.2.1).
fn version_text(version: Option<Version>) -> &'static str
    ensures { result.now ≡ crls.version_text version }
{
    match version {
        Some(version) => certificates::version_text(version),
        None => "v1",
    }
}

/// Writes a date that may be left out.
fn write_optional_time(
    alloc: Global,
    at: Place,
    label: &str,
    time: &Option<Time>,
    out: &mut String,
) -> Result<(), AllocError>
    ensures { OnOk result (string_bytes out.new ≡ string_bytes out.old ++ crls.optional_time at label.now time.now) }
{
    match time {
        Some(time) => write_time(alloc, at, label, time, out),
        None => Ok(()),
    }
}

/// Writes from when on a CRL holds, and when the next one comes.
#[tactic(auto, unfolding(crate::specs::Crls::update_lines))]
fn write_updates<P: Profile>(
    alloc: Global,
    at: Place,
    part: &TbsCertList<P>,
    out: &mut String,
) -> Result<(), AllocError>
    ensures { OnOk result (string_bytes out.new ≡ string_bytes out.old ++ crls.update_lines at part.now) }
{
    write_time(alloc, at, "this update", &part.this_update, out)?;
    write_optional_time(alloc, at, "next update", &part.next_update, out)
}

/// Writes what stands before the extensions.
#[tactic(auto, unfolding(crate::specs::Crls::head_lines))]
fn write_head<P: Profile>(
    alloc: Global,
    at: Place,
    part: &TbsCertList<P>,
    out: &mut String,
) -> Result<(), AllocError>
    ensures { OnOk result (string_bytes out.new ≡ string_bytes out.old ++ crls.head_lines at part.now) }
{
    write_line(alloc, at, "version", version_text(part.version), out)?;
    write_algorithm(alloc, at, "algorithm", &part.signature, out)?;
    write_name(alloc, at, "issuer", &part.issuer, out)?;
    write_updates(alloc, at, part, out)
}

#[tactic(auto, unfolding(crate::specs::Crls::entry_lines))]
impl<P: Profile> Show for RevokedCert<P> {
    ghost use Rattle.x509_text.specs.Crls.{entry_lines};

    ghost lines = { entry_lines };

    fn show(&self, alloc: Global, at: Place, out: &mut String) -> Result<(), AllocError> {
        write_serial(alloc, at, "revoked", &self.serial_number, out)?;
        write_time(
            alloc,
            at.below(),
            "revocation date",
            &self.revocation_date,
            out,
        )?;
        write_extensions(alloc, at.below(), self.crl_entry_extensions.as_ref(), out)
    }
}

#[tactic(auto, unfolding(crate::specs::Crls::part_lines))]
impl<P: Profile> Show for TbsCertList<P> {
    ghost use Rattle.x509_text.specs.Crls.{part_lines};

    ghost lines = { part_lines };

    fn show(&self, alloc: Global, at: Place, out: &mut String) -> Result<(), AllocError> {
        write_head(alloc, at, self, out)?;
        write_extensions(alloc, at, self.crl_extensions.as_ref(), out)?;
        show_each(alloc, at, self.entries(), out)
    }
}

/// Writes what stands behind the part that is signed.
#[tactic(auto, unfolding(crate::specs::Crls::signature_lines))]
pub(crate) fn write_signature<P: Profile>(
    alloc: Global,
    at: Place,
    crl: &CertificateList<P>,
    out: &mut String,
) -> Result<(), AllocError>
    ensures { OnOk result (string_bytes out.new ≡ string_bytes out.old ++ crls.signature_lines at crl.now) }
{
    write_algorithm(
        alloc,
        at,
        "signature algorithm",
        &crl.signature_algorithm,
        out,
    )?;
    write_bits(alloc, at, "signature", &crl.signature, out)
}

#[tactic(auto, unfolding(crate::specs::Crls::crl_lines))]
impl<P: Profile> Show for CertificateList<P> {
    ghost use Rattle.x509_text.specs.Crls.{crl_lines};

    ghost lines = { crl_lines };

    fn show(&self, alloc: Global, at: Place, out: &mut String) -> Result<(), AllocError> {
        self.tbs_cert_list.show(alloc, at, out)?;
        write_signature(alloc, at, self, out)
    }
}
