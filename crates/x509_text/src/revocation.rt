//! Extensions of CRLs and of their entries (RFC 5280 5.2, 5.3).

ghost use Rattle.std.specs.Prelude.{◌≡◌, ◌++◌, OnOk, string_bytes};
ghost use Rattle.x509_text.specs.Revocation as revocation;

use crate::line::{Place, write_line, write_where};
use crate::show::{Show, show_option};
use crate::values::{write_moment, write_uint};
use std::alloc::{AllocError, Global};
use x509_base::GeneralizedTime;
use x509_ext::pkix::{BaseCrlNumber, CrlNumber, CrlReason, IssuingDistributionPoint};

impl Show for CrlNumber {
    ghost use Rattle.x509_text.specs.Revocation.{crl_number_line};

    ghost lines = { crl_number_line };

    fn show(&self, alloc: Global, at: Place, out: &mut String) -> Result<(), AllocError> {
        write_uint(alloc, at, "CRL number", &self.0, out)
    }
}

impl Show for BaseCrlNumber {
    ghost use Rattle.x509_text.specs.Revocation.{base_number_line};

    ghost lines = { base_number_line };

    fn show(&self, alloc: Global, at: Place, out: &mut String) -> Result<(), AllocError> {
        write_uint(alloc, at, "base CRL number", &self.0, out)
    }
}

/// Writes of which certificates a CRL has entries, where it isn't of all.
#[tactic(auto, unfolding(crate::specs::Revocation::coverage_lines))]
fn write_coverage(
    alloc: Global,
    at: Place,
    point: &IssuingDistributionPoint,
    out: &mut String,
) -> Result<(), AllocError>
    ensures { OnOk result (string_bytes out.new ≡ string_bytes out.old ++ revocation.coverage_lines at point.now) }
{
    let (user, ca) = (point.only_contains_user_certs, point.only_contains_ca_certs);
    let attribute = point.only_contains_attribute_certs;
    write_where(alloc, at, "only contains", "user certificates", user, out)?;
    write_where(alloc, at, "only contains", "CA certificates", ca, out)?;
    write_where(
        alloc,
        at,
        "only contains",
        "attribute certificates",
        attribute,
        out,
    )
}

#[tactic(auto, unfolding(crate::specs::Revocation::issuing_point_lines))]
impl Show for IssuingDistributionPoint {
    ghost use Rattle.x509_text.specs.Revocation.{issuing_point_lines};

    ghost lines = { issuing_point_lines };

    fn show(&self, alloc: Global, at: Place, out: &mut String) -> Result<(), AllocError> {
        show_option(alloc, at, &self.distribution_point, out)?;
        write_coverage(alloc, at, self, out)?;
        show_option(alloc, at, &self.only_some_reasons, out)?;
        write_where(alloc, at, "indirect CRL", "yes", self.indirect_crl, out)
    }
}

/// The name of a reason (RFC 5280 5.3.1).
fn reason_text(reason: CrlReason) -> &'static str
    ensures { result.now ≡ revocation.reason_text reason }
{
    match reason {
        CrlReason::Unspecified => "unspecified",
        CrlReason::KeyCompromise => "keyCompromise",
        CrlReason::CaCompromise => "cACompromise",
        CrlReason::AffiliationChanged => "affiliationChanged",
        CrlReason::Superseded => "superseded",
        CrlReason::CessationOfOperation => "cessationOfOperation",
        CrlReason::CertificateHold => "certificateHold",
        CrlReason::RemoveFromCRL => "removeFromCRL",
        CrlReason::PrivilegeWithdrawn => "privilegeWithdrawn",
        CrlReason::AaCompromise => "aACompromise",
    }
}

impl Show for CrlReason {
    ghost use Rattle.x509_text.specs.Revocation.{crl_reason_line};

    ghost lines = { crl_reason_line };

    fn show(&self, alloc: Global, at: Place, out: &mut String) -> Result<(), AllocError> {
        write_line(alloc, at, "reason", reason_text(*self), out)
    }
}

impl Show for GeneralizedTime {
    ghost use Rattle.x509_text.specs.Revocation.{invalidity_line};

    ghost lines = { invalidity_line };

    /// The date on which it is known or suspected that a key was compromised, or a certificate invalid otherwise.
    fn show(&self, alloc: Global, at: Place, out: &mut String) -> Result<(), AllocError> {
        write_moment(alloc, at, "invalidity date", &self.to_date_time(), out)
    }
}
