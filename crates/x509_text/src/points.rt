//! Where CRLs are found (RFC 5280 4.2.1.13, 4.2.1.15).

ghost use Rattle.std.specs.Int.RustNames.{bit_and};
ghost use Rattle.std.specs.Prelude.{◌≡◌, ◌==◌, ◌++◌, OnOk, string_bytes};
ghost use Rattle.x509_text.specs.Points as points;

use crate::general_names::write_optional_names;
use crate::line::{Place, write_line, write_where};
use crate::show::{Show, show_each, show_option};
use bitflags::Flags;
use std::alloc::{AllocError, Global};
use x509_ext::pkix::crl::dp::{DistributionPoint, Reasons};
use x509_ext::pkix::{CrlDistributionPoints, FreshestCrl};

/// Writes a reason where its bit is set.
fn write_reason(
    alloc: Global,
    at: Place,
    name: &str,
    is_set: bool,
    out: &mut String,
) -> Result<(), AllocError>
    ensures { OnOk result (string_bytes out.new ≡ string_bytes out.old ++ points.reason_line at name.now is_set) }
{
    write_where(alloc, at, "reason", name, is_set, out)
}

/// Whether a set of reasons has all of another one.
fn has(reasons: Reasons, other: Reasons) -> bool
    ensures { result ≡ (bit_and reasons.0 other.0 == other.0) }
{
    reasons.contains(other)
}

/// Writes the reasons of the bits 0 to 4.
#[tactic(auto, unfolding(crate::specs::Points::first_reasons))]
fn write_first_reasons(
    alloc: Global,
    at: Place,
    reasons: Reasons,
    out: &mut String,
) -> Result<(), AllocError>
    ensures { OnOk result (string_bytes out.new ≡ string_bytes out.old ++ points.first_reasons at reasons) }
{
    write_reason(alloc, at, "unused", has(reasons, Reasons::UNUSED), out)?;
    write_reason(
        alloc,
        at,
        "keyCompromise",
        has(reasons, Reasons::KEY_COMPROMISE),
        out,
    )?;
    write_reason(
        alloc,
        at,
        "cACompromise",
        has(reasons, Reasons::CA_COMPROMISE),
        out,
    )?;
    write_reason(
        alloc,
        at,
        "affiliationChanged",
        has(reasons, Reasons::AFFILIATION_CHANGED),
        out,
    )?;
    write_reason(
        alloc,
        at,
        "superseded",
        has(reasons, Reasons::SUPERSEDED),
        out,
    )
}

/// Writes the reasons of the bits 5 to 8.
#[tactic(auto, unfolding(crate::specs::Points::last_reasons))]
fn write_last_reasons(
    alloc: Global,
    at: Place,
    reasons: Reasons,
    out: &mut String,
) -> Result<(), AllocError>
    ensures { OnOk result (string_bytes out.new ≡ string_bytes out.old ++ points.last_reasons at reasons) }
{
    write_reason(
        alloc,
        at,
        "cessationOfOperation",
        has(reasons, Reasons::CESSATION_OF_OPERATION),
        out,
    )?;
    write_reason(
        alloc,
        at,
        "certificateHold",
        has(reasons, Reasons::CERTIFICATE_HOLD),
        out,
    )?;
    write_reason(
        alloc,
        at,
        "privilegeWithdrawn",
        has(reasons, Reasons::PRIVILEGE_WITHDRAWN),
        out,
    )?;
    write_reason(
        alloc,
        at,
        "aACompromise",
        has(reasons, Reasons::AA_COMPROMISE),
        out,
    )
}

#[tactic(auto, unfolding(crate::specs::Points::reasons_lines))]
impl Show for Reasons {
    ghost use Rattle.x509_text.specs.Points.{reasons_lines};

    ghost lines = { reasons_lines };

    fn show(&self, alloc: Global, at: Place, out: &mut String) -> Result<(), AllocError> {
        write_first_reasons(alloc, at, *self, out)?;
        write_last_reasons(alloc, at, *self, out)
    }
}

#[tactic(auto, unfolding(crate::specs::Points::point_lines))]
impl Show for DistributionPoint {
    ghost use Rattle.x509_text.specs.Points.{point_lines};

    ghost lines = { point_lines };

    fn show(&self, alloc: Global, at: Place, out: &mut String) -> Result<(), AllocError> {
        write_line(alloc, at, "distribution point", "", out)?;
        show_option(alloc, at.below(), &self.distribution_point, out)?;
        show_option(alloc, at.below(), &self.reasons, out)?;
        write_optional_names(alloc, at.below(), "CRL issuer", &self.crl_issuer, out)
    }
}

impl Show for CrlDistributionPoints {
    ghost use Rattle.x509_text.specs.Points.{points_lines};

    ghost lines = { λ at points. points_lines at points.0 };

    fn show(&self, alloc: Global, at: Place, out: &mut String) -> Result<(), AllocError> {
        show_each(alloc, at, self.0.as_slice(), out)
    }
}

impl Show for FreshestCrl {
    ghost use Rattle.x509_text.specs.Points.{points_lines};

    ghost lines = { λ at points. points_lines at points.0 };

    fn show(&self, alloc: Global, at: Place, out: &mut String) -> Result<(), AllocError> {
        show_each(alloc, at, self.0.as_slice(), out)
    }
}
