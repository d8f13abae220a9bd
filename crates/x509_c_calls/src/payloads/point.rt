//! Where CRLs are found, and of what certificates they speak.

ghost use Rattle.std.specs.Prelude.{◌≡◌, ◌≤◌, ◌++◌, drop, length, List, ℕ, Some};
ghost use Rattle.x509_c_calls.specs.Optional.{IsNumber};
ghost use Rattle.x509_c_calls.specs.Points.{IsPointName, name_text, bits_of};
ghost use Rattle.x509_c_calls.specs.Place.{IsAt};
ghost use Rattle.x509_der.specs.Form.{spelling};
ghost use Rattle.x509_ext.specs.DistributionPointName.{distribution_point_name};

use crate::payloads::calls::View;
use crate::payloads::extension::flag;
use crate::payloads::walk::{NOWHERE, step_optional, step_optional_content};
use crate::{Span, enter, step};
use bitflags::Flags;
use x509_ext::pkix::IssuingDistributionPoint;
use x509_ext::pkix::crl::dp::{DistributionPoint, ReasonFlags};
use x509_ext::pkix::name::DistributionPointName;

/// Where CRLs are found (RFC 5280 4.2.1.13). An absent part has offset 0 and length 0.
#[derive(Clone, Copy)]
#[repr(C)]
pub struct DistributionPointView {
    /// Where its full names stand, a whole element under the tag \[0\].
    pub full_name: Span,

    /// Where its name relative to the issuer of the CRL stands, a whole element under the tag \[1\].
    pub relative_name: Span,

    /// 1 where the reasons are told for which certificates are revoked there, else 0.
    pub has_reasons: u32,

    /// The reasons, as a number whose bit n stands for the named bit n; 0 where they aren't told.
    pub reasons: u32,

    /// Where the names of the issuer of the CRL stand, a whole element under the tag \[2\].
    pub crl_issuer: Span,
}

/// The issuing distribution point (RFC 5280 5.2.5): which certificates the CRL covers. An absent part has offset 0 and length 0.
#[derive(Clone, Copy)]
#[repr(C)]
pub struct IssuingDistributionPointView {
    /// Where its full names stand, a whole element under the tag \[0\].
    pub full_name: Span,

    /// Where its name relative to the issuer of the CRL stands, a whole element under the tag \[1\].
    pub relative_name: Span,

    /// 1 where it speaks of certificates of users alone, else 0.
    pub only_contains_user_certs: u32,

    /// 1 where it speaks of certificates of authorities alone, else 0.
    pub only_contains_ca_certs: u32,

    /// 1 where it speaks of some reasons alone, else 0.
    pub has_only_some_reasons: u32,

    /// These reasons, as a number whose bit n stands for the named bit n; 0 where it speaks of all.
    pub only_some_reasons: u32,

    /// 1 where it speaks of certificates of other issuers too, else 0.
    pub indirect_crl: u32,

    /// 1 where it speaks of attribute certificates alone, else 0.
    pub only_contains_attribute_certs: u32,
}

/// Where the full names and the relative name of a point stand whose name stands there.
fn name_places(element: Span, name: &DistributionPointName) -> (Span, Span)
    ensures { (bytes more : List ℕ) → IsAt (spelling distribution_point_name name.now) more bytes element
        → IsPointName (Some name.now) more bytes result.0 result.1 }
{
    match name {
        DistributionPointName::FullName(_) => (element, NOWHERE),
        DistributionPointName::NameRelativeToCRLIssuer(_) => (NOWHERE, element),
    }
}

/// Steps over the name of a point, and answers where its full names and its relative name stand.
fn step_name(input: &[u8], at: &mut usize, name: &Option<DistributionPointName>) -> (Span, Span)
    requires { at.old ≤ length input.now }
    ensures within { at.new ≤ length input.now }
    ensures stands { (more : List ℕ) → drop at.old input.now ≡ name_text name.now ++ more → IsPointName name.now more input.now result.0 result.1
        × (drop at.new input.now ≡ more) }
{
    let element = step_optional_content(input, at, name.is_some());
    match name {
        None => (NOWHERE, NOWHERE),
        Some(name) => name_places(element, name),
    }
}

/// 1 and the bits of the reasons, or 0 and 0 where they are left out.
fn reason_bits(reasons: Option<ReasonFlags>) -> (u32, u32)
    ensures { IsNumber (bits_of reasons) result.0 result.1 }
{
    match reasons {
        None => (0, 0),
        Some(reasons) => (1, u32::from(reasons.bits())),
    }
}

impl View for DistributionPointView {
    ghost use Rattle.x509_c_calls.specs.Points.{IsPoint};

    type Value = DistributionPoint;

    ghost shows = { IsPoint };

    fn view(input: &[u8], place: usize, value: &DistributionPoint) -> DistributionPointView {
        let mut at = place;
        enter(input, &mut at);
        let (full_name, relative_name) = step_name(input, &mut at, &value.distribution_point);
        step(input, &mut at, value.reasons.is_some());
        let (has_reasons, reasons) = reason_bits(value.reasons);
        DistributionPointView {
            full_name,
            relative_name,
            has_reasons,
            reasons,
            crl_issuer: step_optional(input, &mut at, value.crl_issuer.is_some()),
        }
    }
}

impl View for IssuingDistributionPointView {
    ghost use Rattle.x509_c_calls.specs.Points.{IsIssuingPoint};

    type Value = IssuingDistributionPoint;

    ghost shows = { IsIssuingPoint };

    fn view(
        input: &[u8],
        place: usize,
        value: &IssuingDistributionPoint,
    ) -> IssuingDistributionPointView {
        let mut at = place;
        enter(input, &mut at);
        let (full_name, relative_name) = step_name(input, &mut at, &value.distribution_point);
        let (has_only_some_reasons, only_some_reasons) = reason_bits(value.only_some_reasons);
        IssuingDistributionPointView {
            full_name,
            relative_name,
            only_contains_user_certs: flag(value.only_contains_user_certs),
            only_contains_ca_certs: flag(value.only_contains_ca_certs),
            has_only_some_reasons,
            only_some_reasons,
            indirect_crl: flag(value.indirect_crl),
            only_contains_attribute_certs: flag(value.only_contains_attribute_certs),
        }
    }
}
