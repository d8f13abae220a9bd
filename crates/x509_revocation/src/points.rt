//! The distribution points of a certificate, and which of them a CRL is that of.

ghost use Rattle.std.specs.Option.{option_copied};
ghost use Rattle.std.specs.Prelude.{◌≡◌, ◌++◌, ◌∷◌, [], IfOk};
ghost use Rattle.x509_ext.specs.declared.pkix.name.general_name.GeneralName.TheVariants as general;
ghost use Rattle.x509_path.specs.Certificates.{Certificate};
ghost use Rattle.x509_path.specs.Lent.{Lends};
ghost use Rattle.x509_revocation.specs.Points as scopes;

use crate::names::{decoded, directory_name, has_match, have_match};
use crate::reasons::{interim_reasons, joined, no_reasons};
use std::alloc::{AllocError, Global};
use x509_check::CertificateRef;
use x509_der::{Error, ErrorKind, SequenceOf, TryClone};
use x509_ext::pkix::crl::dp::{DistributionPoint, ReasonFlags};
use x509_ext::pkix::name::{DistributionPointName, GeneralName, GeneralNames};
use x509_ext::pkix::{CrlDistributionPoints, IssuingDistributionPoint};
use x509_name::name::{Name, RdnSequence, RelativeDistinguishedName};

/// The distribution points of the certificate; none where it has none that can be decoded.
pub(crate) fn points_of(
    alloc: Global,
    certificate: &CertificateRef<'_>,
) -> Result<SequenceOf<DistributionPoint>, AllocError>
    ensures { IfOk result (λ found. (c : Certificate) → Lends certificate.now.bytes.now c → scopes.HasPoints c found) }
{
    match certificate.get_extension::<CrlDistributionPoints>(alloc) {
        Ok(Some((_, found))) => Ok(found.into()),
        Ok(None) => Ok(SequenceOf::new(alloc)),
        Err(e) => match e.kind() {
            ErrorKind::Memory => Err(AllocError),
            _ => Ok(SequenceOf::new(alloc)),
        },
    }
}

/// The one directory name among these.
fn single_name(names: &[GeneralName]) -> Option<&Name>
    ensures { option_copied result ≡ scopes.single_name names.now }
{
    match names {
        [name] => directory_name(name),
        _ => None,
    }
}

/// The RDN behind those of the name.
fn appended(
    alloc: Global,
    issuer: &Name,
    rdn: &RelativeDistinguishedName,
) -> Result<GeneralName, Error>
    ensures { IfOk result (λ whole. whole ≡ general.DirectoryName (issuer.now ++ rdn.now ∷ [])) }
{
    let mut rdns = RdnSequence::from(issuer.try_clone(alloc)?);
    rdns.push(rdn.try_clone(alloc)?)?;
    Ok(GeneralName::DirectoryName(Name::hazmat_from_rdn_sequence(rdns)))
}

/// The name of a point that is relative to the issuer, made whole.
fn made_whole(
    alloc: Global,
    issuer: &Name,
    rdn: &RelativeDistinguishedName,
) -> Result<GeneralName, AllocError>
    ensures { IfOk result (λ whole. whole ≡ general.DirectoryName (issuer.now ++ rdn.now ∷ [])) }
{
    match appended(alloc, issuer, rdn) {
        Ok(whole) => Ok(whole),
        Err(_) => Err(AllocError),
    }
}

/// Whether the CRL is an indirect one.
pub(crate) fn is_indirect(list: &Option<IssuingDistributionPoint>) -> bool
    ensures { result ≡ scopes.is_indirect list.now }
{
    match list {
        Some(point) => point.indirect_crl,
        None => false,
    }
}

/// The reasons for which alone the CRL is.
fn some_reasons(list: &Option<IssuingDistributionPoint>) -> Option<ReasonFlags>
    ensures { result ≡ scopes.some_reasons list.now }
{
    match list {
        Some(point) => point.only_some_reasons,
        None => None,
    }
}

/// A certificate's side and a CRL's.
#[derive(Clone, Copy)]
pub(crate) struct Sides<'s> {
    /// Where memory is taken.
    pub(crate) alloc: Global,

    /// The encoding of the name of the certificate's issuer.
    pub(crate) issuer: &'s [u8],

    /// That of the CRL's issuer.
    pub(crate) own: &'s [u8],

    /// Whether these names match.
    pub(crate) is_issuers: bool,

    /// The IssuingDistributionPoint of the CRL.
    pub(crate) list: &'s Option<IssuingDistributionPoint>,
}

impl Sides<'_> {
    ghost use Rattle.std.specs.Prelude.{◌≡◌, ◌∷◌, ◌↔◌, List, IfOk, IsTrue, Some};
    ghost use Rattle.x509_ext.specs.declared.pkix.distribution_point.DistributionPoint as distribution_points;
    ghost use Rattle.x509_ext.specs.declared.pkix.name.distribution_point_name.DistributionPointName.TheVariants as places;
    ghost use Rattle.x509_revocation.specs.Faults.{HasAnyIssuer};
    ghost use Rattle.x509_revocation.specs.LentSides.{LendsSides};
    ghost use Rattle.x509_revocation.specs.Names.{HaveMatch};
    ghost use Rattle.x509_revocation.specs.Points as scopes;

    /// The name of the certificate's issuer.
    fn issuer_name(&self) -> Result<Name, AllocError>
        ensures { IfOk result (λ name. (sides : scopes.Sides) → LendsSides self.now sides → name ≡ sides.issuer) }
    {
        match decoded(self.alloc, self.issuer) {
            Ok(name) => Ok(name),
            Err(e) => Err(e),
        }
    }

    /// That of the CRL's issuer.
    fn own_name(&self) -> Result<Name, AllocError>
        ensures { IfOk result (λ name. (sides : scopes.Sides) → LendsSides self.now sides → name ≡ sides.own) }
    {
        match decoded(self.alloc, self.own) {
            Ok(name) => Ok(name),
            Err(e) => Err(e),
        }
    }

    /// Whether one of the names of the CRL's point matches one of these.
    fn own_match(
        &self,
        place: &DistributionPointName,
        theirs: &[GeneralName],
    ) -> Result<bool, AllocError>
        ensures { IfOk result (λ b. (sides : scopes.Sides) → LendsSides self.now sides
            → IsTrue b ↔ HaveMatch (scopes.whole_names (Some sides.own) place.now) theirs.now) }
    {
        match place {
            DistributionPointName::FullName(names) => {
                have_match(self.alloc, names.as_slice(), theirs)
            }
            DistributionPointName::NameRelativeToCRLIssuer(rdn) => {
                let own = self.own_name()?;
                let names = [made_whole(self.alloc, &own, rdn)?];
                have_match(self.alloc, &names, theirs)
            }
        }
    }

    /// Whether one of the names of the CRL's point matches the one that is made whole.
    fn match_whole(
        &self,
        place: &DistributionPointName,
        issuer: &Name,
        rdn: &RelativeDistinguishedName,
    ) -> Result<bool, AllocError>
        ensures { IfOk result (λ b. (sides : scopes.Sides) → LendsSides self.now sides
            → IsTrue b
            ↔ HaveMatch (scopes.whole_names (Some sides.own) place.now) (scopes.whole_names (Some issuer.now) (places.NameRelativeToCRLIssuer rdn.now))) }
    {
        let names = [made_whole(self.alloc, issuer, rdn)?];
        self.own_match(place, &names)
    }

    /// Whether one of the names of the CRL's point matches the certificate's that is relative to the issuer of the CRL.
    fn match_relative(
        &self,
        place: &DistributionPointName,
        rdn: &RelativeDistinguishedName,
        crl_issuer: &Option<GeneralNames>,
    ) -> Result<bool, AllocError>
        ensures { IfOk result (λ b. (sides : scopes.Sides) → LendsSides self.now sides
            → IsTrue b
            ↔ scopes.MatchPoint sides.issuer (scopes.whole_names (Some sides.own) place.now) (Some (places.NameRelativeToCRLIssuer rdn.now)) crl_issuer.now) }
    {
        match crl_issuer {
            Some(names) => match single_name(names.as_slice()) {
                Some(issuer) => self.match_whole(place, issuer, rdn),
                None => Ok(false),
            },
            None => {
                let issuer = self.issuer_name()?;
                self.match_whole(place, &issuer, rdn)
            }
        }
    }

    /// Whether one of the names of the CRL's point matches one of the certificate's point.
    fn match_point(
        &self,
        place: &DistributionPointName,
        point: &DistributionPoint,
    ) -> Result<bool, AllocError>
        ensures { IfOk result (λ b. (sides : scopes.Sides) → LendsSides self.now sides
            → IsTrue b ↔ scopes.HasPlace sides point.now (Some place.now)) }
    {
        match &point.distribution_point {
            Some(DistributionPointName::FullName(names)) => {
                self.own_match(place, names.as_slice())
            }
            Some(DistributionPointName::NameRelativeToCRLIssuer(rdn)) => {
                self.match_relative(place, rdn, &point.crl_issuer)
            }
            None => match &point.crl_issuer {
                Some(names) => self.own_match(place, names.as_slice()),
                None => Ok(false),
            },
        }
    }

    /// (b) (2) (i): whether the CRL is under a name of the point, where it is under a name. One of its names matches one of the
    /// point's; directory names match as RFC 5280 7.1 says, other names where they are equal.
    fn has_place(&self, point: &DistributionPoint) -> Result<bool, AllocError>
        ensures { IfOk result (λ b. (sides : scopes.Sides) → LendsSides self.now sides
            → IsTrue b ↔ scopes.HasPlace sides point.now (scopes.place_of sides.list)) }
    {
        match self.list {
            Some(list) => match &list.distribution_point {
                Some(place) => self.match_point(place, point),
                None => Ok(true),
            },
            None => Ok(true),
        }
    }

    /// (b) (1): whether the issuer of the CRL is that of the point. It is in the point's cRLIssuer (and the CRL is an indirect one,
    /// or the issuer is that of the certificate), or where there is none is that of the certificate.
    fn has_issuer(&self, crl_issuer: &Option<GeneralNames>) -> Result<bool, AllocError>
        ensures { IfOk result (λ b. (sides : scopes.Sides) → LendsSides self.now sides → IsTrue b ↔ scopes.HasIssuer sides crl_issuer.now) }
    {
        match crl_issuer {
            Some(names) => {
                if !is_indirect(self.list) && !self.is_issuers {
                    return Ok(false);
                }
                let own = GeneralName::DirectoryName(self.own_name()?);
                has_match(self.alloc, &own, names.as_slice())
            }
            None => Ok(self.is_issuers),
        }
    }

    /// Whether one of these points, or the one that is assumed, is for CRLs of this issuer.
    pub(crate) fn has_any_issuer(&self, points: &[DistributionPoint]) -> Result<bool, AllocError>
        ensures { IfOk result (λ b. (sides : scopes.Sides) → LendsSides self.now sides
            → IsTrue b ↔ HasAnyIssuer sides (scopes.assumed_point sides.issuer ∷ points.now)) }
    {
        if self.is_issuers {
            return Ok(true);
        }
        let mut rest = points;
        while let [point, behind @ ..] = rest {
            if self.has_issuer(&point.crl_issuer)? {
                return Ok(true);
            }
            rest = behind;
        }
        Ok(false)
    }

    /// Whether the CRL is that of the point.
    fn is_of_point(&self, point: &DistributionPoint) -> Result<bool, AllocError>
        ensures { IfOk result (λ b. (sides : scopes.Sides) → LendsSides self.now sides → IsTrue b ↔ scopes.IsOfPoint sides point.now) }
    {
        if !self.has_issuer(&point.crl_issuer)? {
            return Ok(false);
        }
        self.has_place(point)
    }

    /// Whether the CRL is that of the point that is assumed.
    fn is_of_assumed(&self) -> Result<bool, AllocError>
        ensures { IfOk result (λ b. (sides : scopes.Sides) → LendsSides self.now sides
            → IsTrue b ↔ scopes.IsOfPoint sides (scopes.assumed_point sides.issuer)) }
    {
        if !self.is_issuers {
            return Ok(false);
        }
        match self.list {
            Some(list) => match &list.distribution_point {
                Some(place) => {
                    let names = [GeneralName::DirectoryName(self.issuer_name()?)];
                    self.own_match(place, &names)
                }
                None => Ok(true),
            },
            None => Ok(true),
        }
    }

    /// (d), (l): the reasons, with those that the CRL covers of the point.
    fn with_point(
        &self,
        reasons: ReasonFlags,
        point: &DistributionPoint,
    ) -> Result<ReasonFlags, AllocError>
        ensures { IfOk result (λ all. (sides : scopes.Sides) (others : List distribution_points.DistributionPoint) → LendsSides self.now sides
            → scopes.Gathers sides others reasons → scopes.Gathers sides (point.now ∷ others) all) }
    {
        if !self.is_of_point(point)? {
            return Ok(reasons);
        }
        let own = interim_reasons(point.reasons, some_reasons(self.list));
        Ok(joined(own, reasons))
    }

    /// The reasons, with those that the CRL covers of the point that is assumed.
    fn with_assumed(&self, reasons: ReasonFlags) -> Result<ReasonFlags, AllocError>
        ensures { IfOk result (λ all. (sides : scopes.Sides) (others : List distribution_points.DistributionPoint) → LendsSides self.now sides
            → scopes.Gathers sides others reasons → scopes.Gathers sides (scopes.assumed_point sides.issuer ∷ others) all) }
    {
        if !self.is_of_assumed()? {
            return Ok(reasons);
        }
        let own = interim_reasons(None, some_reasons(self.list));
        Ok(joined(own, reasons))
    }

    /// The reasons that the CRL covers of these points and of the one that is assumed.
    pub(crate) fn gather(&self, points: &[DistributionPoint]) -> Result<ReasonFlags, AllocError>
        ensures { IfOk result (λ all. (sides : scopes.Sides) → LendsSides self.now sides
            → scopes.Gathers sides (scopes.assumed_point sides.issuer ∷ points.now) all) }
    {
        let mut gathered = no_reasons();
        let mut rest = points;
        while let [before @ .., point] = rest {
            gathered = self.with_point(gathered, point)?;
            rest = before;
        }
        self.with_assumed(gathered)
    }
}
