//! Which certificates a CRL is about, and which reasons it covers (RFC 5280 6.3.3 (b), (d)).

ghost use Rattle.std.specs.Prelude.{◌≡◌, ◌↔◌, ◌∷◌, IfOk, IsTrue, MatchOption, Option};
ghost use Rattle.x509_ext.specs.declared.pkix.issuing_distribution_point.IssuingDistributionPoint as lists;
ghost use Rattle.x509_ext.specs.declared.pkix.reasons.Reasons as reason_sets;
ghost use Rattle.x509_path.specs.Certificates.{Certificate, IsCa, extensions_of};
ghost use Rattle.x509_path.specs.Lent.{Lends};
ghost use Rattle.x509_revocation.specs.Crls.{Crl, HasList};
ghost use Rattle.x509_revocation.specs.Lent.{LendsCrl};
ghost use Rattle.x509_revocation.specs.Points.{HasPoints, assumed_point};
ghost use Rattle.x509_revocation.specs.Faults.{HasAnyIssuer};
ghost use Rattle.x509_revocation.specs.LentSides.{LendsSides};
ghost use Rattle.x509_revocation.specs.Says.{AreInScope, Covers, IsInScope, sides_of};

use crate::names::encoded_match;
use crate::points::Sides;
use std::alloc::{AllocError, Global};
use x509_check::{CertificateRef, CrlRef};
use x509_der::ErrorKind;
use x509_ext::pkix::crl::dp::{DistributionPoint, ReasonFlags};
use x509_ext::pkix::{BasicConstraints, IssuingDistributionPoint};

/// Whether the certificate is that of a certification authority.
fn is_ca(alloc: Global, certificate: &CertificateRef<'_>) -> bool
    ensures { (c : Certificate) → Lends certificate.now.bytes.now c → IsTrue result ↔ IsCa (extensions_of c) }
{
    match certificate.get_extension::<BasicConstraints>(alloc) {
        Ok(Some((_, constraints))) => constraints.ca,
        Ok(None) | Err(_) => false,
    }
}

/// (b) (2) (ii) to (iv): whether the certificate is in the scope; it is that of a certification authority or not.
fn is_in_scope(point: &IssuingDistributionPoint, is_ca: bool) -> bool
    ensures { (c : Certificate) → (IsTrue is_ca ↔ IsCa (extensions_of c)) → IsTrue result ↔ IsInScope c point.now }
{
    if point.only_contains_attribute_certs {
        return false;
    }
    if point.only_contains_user_certs && is_ca {
        return false;
    }
    !point.only_contains_ca_certs || is_ca
}

/// Whether the scope of a CRL has the certificate; a CRL without an IssuingDistributionPoint is for all.
pub(crate) fn are_in_scope(
    alloc: Global,
    certificate: &CertificateRef<'_>,
    list: &Option<IssuingDistributionPoint>,
) -> bool
    ensures { (c : Certificate) → Lends certificate.now.bytes.now c → IsTrue result ↔ AreInScope c list.now }
{
    match list {
        Some(point) => is_in_scope(point, is_ca(alloc, certificate)),
        None => true,
    }
}

/// The certificate's side and that of the CRL, which has that IssuingDistributionPoint, or none.
fn sides_of<'s>(
    alloc: Global,
    certificate: &'s CertificateRef<'_>,
    crl: &'s CrlRef<'_>,
    list: &'s Option<IssuingDistributionPoint>,
) -> Result<Sides<'s>, AllocError>
    ensures { IfOk result (λ sides. (c : Certificate) (of : Crl) → Lends certificate.now.bytes.now c → LendsCrl crl.now.bytes.now of
        → LendsSides sides (sides_of c of list.now)) }
{
    let issuer = certificate.issuer();
    let own = crl.issuer();
    let is_issuers = encoded_match(alloc, own, issuer)?;
    Ok(Sides {
        alloc,
        issuer,
        own,
        is_issuers,
        list,
    })
}

/// The IssuingDistributionPoint of the CRL, if there is one; `None` where there is one that can't be decoded.
pub(crate) fn list_of(
    alloc: Global,
    crl: &CrlRef<'_>,
) -> Result<Option<Option<IssuingDistributionPoint>>, AllocError>
    ensures { IfOk result (λ found. (of : Crl) → LendsCrl crl.now.bytes.now of
        → MatchOption found ((list : Option lists.IssuingDistributionPoint) → HasList of list → ⊥) (HasList of)) }
{
    match crl.get_extension::<IssuingDistributionPoint>(alloc) {
        Ok(None) => Ok(Some(None)),
        Ok(Some((_, point))) => Ok(Some(Some(point))),
        Err(e) => match e.kind() {
            ErrorKind::Memory => Err(AllocError),
            _ => Ok(None),
        },
    }
}

/// (b), (d): the reasons that the CRL covers, of those points and of the one that is assumed; `None` where the certificate isn't in
/// its scope. Those of each point that it is that of are joined at once (l).
pub(crate) fn steps_b_d(
    alloc: Global,
    certificate: &CertificateRef<'_>,
    points: &[DistributionPoint],
    crl: &CrlRef<'_>,
    list: &Option<IssuingDistributionPoint>,
) -> Result<Option<ReasonFlags>, AllocError>
    ensures { IfOk result (λ covered. (c : Certificate) (of : Crl) → Lends certificate.now.bytes.now c → LendsCrl crl.now.bytes.now of
        → HasPoints c points.now → HasList of list.now
        → MatchOption covered ((reasons : reason_sets.Reasons) → Covers c of list.now reasons → ⊥) (Covers c of list.now)) }
{
    if !are_in_scope(alloc, certificate, list) {
        return Ok(None);
    }
    let sides = sides_of(alloc, certificate, crl, list)?;
    let reasons = sides.gather(points)?;
    Ok(Some(reasons))
}

/// (b) (1): whether one of those points, or the one that is assumed, is for CRLs of the CRL's issuer.
pub(crate) fn is_of_issuer(
    alloc: Global,
    certificate: &CertificateRef<'_>,
    points: &[DistributionPoint],
    crl: &CrlRef<'_>,
    list: &Option<IssuingDistributionPoint>,
) -> Result<bool, AllocError>
    ensures { IfOk result (λ b. (c : Certificate) (of : Crl) → Lends certificate.now.bytes.now c → LendsCrl crl.now.bytes.now of
        → IsTrue b ↔ HasAnyIssuer (sides_of c of list.now) (assumed_point c.tbs_certificate.issuer ∷ points.now)) }
{
    let sides = sides_of(alloc, certificate, crl, list)?;
    sides.has_any_issuer(points)
}
