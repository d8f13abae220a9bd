//! Where CRLs are found, and of what certificates they speak, encoded of what a caller says.

ghost use Rattle.std.specs.Prelude.{◌≡◌, ◌+◌, ◌⊎◌, ◌↔◌, [], IsTrue, MatchOption, MatchResult, Option};
ghost use Rattle.x509_c_calls.specs.Described.{RefusesPerhaps};
ghost use Rattle.x509_c_calls.specs.DescribedPoints.{AreIssuerNames, AreReasons, EncodesWritten, IsIssuingPointOf, IsPointNameOf, IsPointOf, RefusesIssuingPoint, RefusesPoint, RefusesPointName, SaysNothing};
ghost use Rattle.x509_c_calls.specs.Input.{RefusesEach};
ghost use Rattle.x509_c_calls.specs.Status.{Fills};
ghost use Rattle.x509_der.specs.declared.error.ErrorKind.TheVariants.{Memory};
ghost use Rattle.x509_ext.specs.DistributionPoint.{distribution_point};
ghost use Rattle.x509_ext.specs.GeneralName.{general_name};
ghost use Rattle.x509_ext.specs.IssuingDistributionPoint.{issuing_distribution_point};
ghost use Rattle.x509_ext.specs.declared.pkix.reasons.Reasons.{Reasons};
ghost use Rattle.x509_name.specs.Names.{relative_distinguished_name};

use crate::build::read_each;
use crate::payloads::described::flag_of;
use crate::payloads::point::IssuingDistributionPointView;
use crate::{Status, read, write};
use bitflags::Flags;
use std::alloc::Global;
use x509_der::{Encode, ErrorKind, Spelled};
use x509_ext::pkix::IssuingDistributionPoint;
use x509_ext::pkix::crl::dp::{DistributionPoint, ReasonFlags};
use x509_ext::pkix::name::{DistributionPointName, GeneralName, GeneralNames};
use x509_name::name::RelativeDistinguishedName;

/// The name of a point that is relative to the issuer of the CRL, unless there are no bytes.
fn relative_name_of(
    alloc: Global,
    relative: &[u8],
) -> Result<Option<DistributionPointName>, ErrorKind>
    ensures { MatchResult result (IsPointNameOf [] relative.now) (λ e. (e ≡ Memory) ⊎ RefusesPerhaps relative_distinguished_name (λ e. ⊥) relative.now e) }
{
    if relative.is_empty() {
        return Ok(None);
    }
    match read::<RelativeDistinguishedName>(alloc, relative) {
        Ok(rdn) => Ok(Some(DistributionPointName::NameRelativeToCRLIssuer(rdn))),
        Err(e) => Err(e),
    }
}

/// The name of a point with these full names or that relative name.
fn point_name_of(
    alloc: Global,
    full: &[u8],
    relative: &[u8],
) -> Result<Option<DistributionPointName>, ErrorKind>
    ensures { MatchResult result (IsPointNameOf full.now relative.now) (λ e. (e ≡ Memory) ⊎ RefusesPointName full.now relative.now e) }
{
    if full.is_empty() {
        return match relative_name_of(alloc, relative) {
            Ok(name) => Ok(name),
            Err(e) => Err(e),
        };
    }
    if !relative.is_empty() {
        return Err(ErrorKind::Value);
    }
    match read_each::<GeneralName>(alloc, full) {
        Ok(names) => Ok(Some(DistributionPointName::FullName(GeneralNames::from(names)))),
        Err(e) => Err(e),
    }
}

/// The reasons behind a 1, or none behind a 0; `None` where neither is said, or a reason has no name.
fn reasons_of(is_there: u32, number: u32) -> Option<Option<ReasonFlags>>
    ensures { MatchOption result ((said : Option Reasons) → AreReasons is_there number said → ⊥) (AreReasons is_there number) }
{
    if is_there == 0 && number == 0 {
        return Some(None);
    }
    if is_there != 1 || number > 65_535 {
        return None;
    }
    let reasons = ReasonFlags::from_bits_retain(number as u16);
    if reasons.contains_unknown_bits() {
        return None;
    }
    reasons.has_spelling();
    Some(Some(reasons))
}

/// The names whose encodings the bytes are, one after the other, unless there are none.
fn issuer_names_of(alloc: Global, bytes: &[u8]) -> Result<Option<GeneralNames>, ErrorKind>
    ensures { MatchResult result (AreIssuerNames bytes.now) (λ e. (e ≡ Memory) ⊎ RefusesEach general_name (λ e. ⊥) bytes.now e) }
{
    let names = match read_each::<GeneralName>(alloc, bytes) {
        Ok(names) => names,
        Err(e) => return Err(e),
    };
    if names.is_empty() {
        return Ok(None);
    }
    Ok(Some(GeneralNames::from(names)))
}

/// The point of these names, reasons and names of the issuer of the CRL.
fn point_of(
    alloc: Global,
    full: &[u8],
    relative: &[u8],
    has_reasons: u32,
    reasons: u32,
    issuer: &[u8],
) -> Result<DistributionPoint, ErrorKind>
    ensures { MatchResult result (IsPointOf full.now relative.now has_reasons reasons issuer.now) (λ e. (e ≡ Memory)
        ⊎ RefusesPoint full.now relative.now has_reasons reasons issuer.now e) }
{
    if full.is_empty() && relative.is_empty() && issuer.is_empty() {
        return Err(ErrorKind::Value);
    }
    let Some(reasons) = reasons_of(has_reasons, reasons) else {
        return Err(ErrorKind::Value);
    };
    let distribution_point = match point_name_of(alloc, full, relative) {
        Ok(name) => name,
        Err(e) => return Err(e),
    };
    let crl_issuer = match issuer_names_of(alloc, issuer) {
        Ok(names) => names,
        Err(e) => return Err(e),
    };
    Ok(DistributionPoint {
        distribution_point,
        reasons,
        crl_issuer,
    })
}

/// Puts the encoding of a DistributionPoint (RFC 5280 4.2.1.13) at the front of the buffer `room`: with the full names whose
/// encodings are given one after the other, or the name relative to the issuer of the CRL, a whole
/// RelativeDistinguishedName; with the reasons, as [`DistributionPointView`](crate::DistributionPointView) says them; and
/// with the names of the issuer of the CRL, whose encodings are given one after the other. What has no bytes is left out.
///
/// # Errors
///
/// [`Status::NoRoom`] where the buffer is too small; then `written` is the needed length. The error of decoding a name;
/// `Value` where there are full names and a relative one, where there is no name of either kind and none of the issuer, or
/// where the reasons aren't said or have no name. `Overlength` where the encoding is too long. `Memory` when out of memory.
#[tactic(auto, unfolding(crate::specs::Calls::Encodes, crate::specs::Status::Fills))]
pub fn distribution_point_encode(
    alloc: Global,
    full: &[u8],
    relative: &[u8],
    has_reasons: u32,
    reasons: u32,
    issuer: &[u8],
    room: &mut [u8],
    written: &mut usize,
) -> Status
    ensures { Fills (EncodesWritten distribution_point ⟦<DistributionPoint as Encode>⟧.writing (IsPointOf full.now relative.now has_reasons reasons issuer.now)
        (RefusesPoint full.now relative.now has_reasons reasons issuer.now)) room.old room.new written.old written.new result }
{
    match point_of(alloc, full, relative, has_reasons, reasons, issuer) {
        Ok(point) => write(&point, room, written),
        Err(e) => Status::Refused(e),
    }
}

/// How many kinds of certificates the view says that the CRL speaks of alone.
fn kinds_of(view: IssuingDistributionPointView) -> u64
    ensures { result ≡ view.only_contains_user_certs + view.only_contains_ca_certs + view.only_contains_attribute_certs }
{
    u64::from(view.only_contains_user_certs)
        + u64::from(view.only_contains_ca_certs)
        + u64::from(view.only_contains_attribute_certs)
}

/// Whether all is left out.
fn says_nothing(view: IssuingDistributionPointView, full: &[u8], relative: &[u8]) -> bool
    ensures { IsTrue result ↔ SaysNothing view full.now relative.now }
{
    let said = kinds_of(view)
        + u64::from(view.has_only_some_reasons)
        + u64::from(view.indirect_crl);
    said == 0 && full.is_empty() && relative.is_empty()
}

/// The issuing point of that name, and of what the view says beside it.
fn issuing_point_of(
    alloc: Global,
    view: IssuingDistributionPointView,
    full: &[u8],
    relative: &[u8],
) -> Result<IssuingDistributionPoint, ErrorKind>
    ensures { MatchResult result (IsIssuingPointOf view full.now relative.now) (λ e. (e ≡ Memory) ⊎ RefusesIssuingPoint view full.now relative.now e) }
{
    let Some(only_contains_user_certs) = flag_of(view.only_contains_user_certs) else {
        return Err(ErrorKind::Value);
    };
    let Some(only_contains_ca_certs) = flag_of(view.only_contains_ca_certs) else {
        return Err(ErrorKind::Value);
    };
    let Some(indirect_crl) = flag_of(view.indirect_crl) else {
        return Err(ErrorKind::Value);
    };
    let Some(only_contains_attribute_certs) = flag_of(view.only_contains_attribute_certs) else {
        return Err(ErrorKind::Value);
    };
    let Some(only_some_reasons) = reasons_of(view.has_only_some_reasons, view.only_some_reasons)
    else {
        return Err(ErrorKind::Value);
    };
    if kinds_of(view) > 1 {
        return Err(ErrorKind::Value);
    }
    if says_nothing(view, full, relative) {
        return Err(ErrorKind::Value);
    }
    let distribution_point = match point_name_of(alloc, full, relative) {
        Ok(name) => name,
        Err(e) => return Err(e),
    };
    Ok(IssuingDistributionPoint {
        distribution_point,
        only_contains_user_certs,
        only_contains_ca_certs,
        only_some_reasons,
        indirect_crl,
        only_contains_attribute_certs,
    })
}

/// Puts the encoding of an IssuingDistributionPoint (RFC 5280 5.2.5) at the front of the buffer `room`: with the full names
/// whose encodings are given one after the other, or the name relative to the issuer of the CRL, a whole
/// RelativeDistinguishedName, or neither; and with what the view says beside its spans.
///
/// # Errors
///
/// [`Status::NoRoom`] where the buffer is too small; then `written` is the needed length. The error of decoding a name;
/// `Value` where there are full names and a relative one, or where the view says no such value: none at all, or more than
/// one kind of certificates alone, or reasons without a name. `Overlength` where the encoding is too long. `Memory` when
/// out of memory.
#[tactic(auto, unfolding(crate::specs::Calls::Encodes, crate::specs::Status::Fills))]
pub fn issuing_distribution_point_encode(
    alloc: Global,
    view: IssuingDistributionPointView,
    full: &[u8],
    relative: &[u8],
    room: &mut [u8],
    written: &mut usize,
) -> Status
    ensures { Fills (EncodesWritten issuing_distribution_point ⟦<IssuingDistributionPoint as Encode>⟧.writing (IsIssuingPointOf view full.now relative.now)
        (RefusesIssuingPoint view full.now relative.now)) room.old room.new written.old written.new result }
{
    match issuing_point_of(alloc, view, full, relative) {
        Ok(point) => write(&point, room, written),
        Err(e) => Status::Refused(e),
    }
}
