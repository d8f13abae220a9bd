//! The first fault of a CRL.

ghost use Rattle.std.specs.Prelude.{◌≡◌, List, MatchResult};
ghost use Rattle.x509_der.specs.declared.error.ErrorKind.TheVariants as errors;
ghost use Rattle.x509_path.specs.Certificates.{Certificate};
ghost use Rattle.x509_path.specs.Lent.{Lends};
ghost use Rattle.x509_revocation.specs.Faults.{HasFault};
ghost use Rattle.x509_revocation.specs.Lent.{LendsAll, LendsGiven, question};
ghost use Rattle.x509_revocation.specs.Says.{GivenCrl};

use crate::dates::{is_begun, is_current};
use crate::entries::find_entry;
use crate::fault::CrlFault;
use crate::points::{is_indirect, points_of};
use crate::reasons::{all_reasons, minus};
use crate::scope::{are_in_scope, is_of_issuer, list_of, steps_b_d};
use crate::settings::RevocationSettings;
use crate::signed_crl::SignedCrl;
use crate::steps::{
    Asked, has_one_algorithm, is_anchor, is_complete, is_of_signer, is_processed, is_signed,
};
use std::alloc::{AllocError, Global};
use x509_check::{CertificateRef, CrlRef};
use x509_der::Error;
use x509_path::SliceVerifier;

/// The faults in the order in which they are told.
const FAULTS: [CrlFault; 13] = [
    CrlFault::NotYetValid,
    CrlFault::Expired,
    CrlFault::Critical,
    CrlFault::Algorithm,
    CrlFault::Delta,
    CrlFault::IssuingPoint,
    CrlFault::Issuer,
    CrlFault::Scope,
    CrlFault::Point,
    CrlFault::Signer,
    CrlFault::Signature,
    CrlFault::Entry,
    CrlFault::Replaced,
];

impl<V: SliceVerifier> Asked<'_, '_, '_, '_, V> {
    ghost use Rattle.std.specs.List.{All};
    ghost use Rattle.std.specs.Prelude.{◌↔◌, IfOk, IsTrue, List};
    ghost use Rattle.x509_path.specs.Certificates.{Certificate};
    ghost use Rattle.x509_path.specs.Lent.{Lends};
    ghost use Rattle.x509_revocation.specs.Crls.{Crl, IsSigned};
    ghost use Rattle.x509_revocation.specs.Faults.{HasFault, Meets, OfList};
    ghost use Rattle.x509_revocation.specs.Lent.{LendsAll, LendsCrl, LendsGiven, question};
    ghost use Rattle.x509_revocation.specs.Points.{HasPoints};
    ghost use Rattle.x509_revocation.specs.Says.{AreInScope, GivenCrl};
    ghost use Rattle.x509_revocation.specs.declared.fault.CrlFault.TheVariants as faults;

    /// Whether the CRL has no IssuingDistributionPoint, or one that can be decoded.
    fn has_list(&self, crl: &CrlRef<'_>) -> Result<bool, AllocError>
        ensures { IfOk result (λ b. (of : Crl) → LendsCrl crl.now.bytes.now of → IsTrue b ↔ OfList of (λ list. Unit {0})) }
    {
        let listed = list_of(self.alloc, crl)?;
        match listed {
            Some(_) => Ok(true),
            None => Ok(false),
        }
    }

    /// Whether a distribution point of the certificate is for CRLs of this issuer.
    fn has_issuer(&self, crl: &CrlRef<'_>) -> Result<bool, AllocError>
        ensures { IfOk result (λ b. (c : Certificate) (all : List GivenCrl) (g : GivenCrl)
            → Lends self.now.certificate.now.bytes.now c → HasPoints c self.now.points.now → LendsCrl crl.now.bytes.now g.crl
            → IsTrue b ↔ Meets (question (V.accepts self.now.verifier.now) self.now.settings.now c) all g faults.Issuer) }
    {
        let listed = list_of(self.alloc, crl)?;
        let Some(list) = listed else {
            return Ok(false);
        };
        let is_of_issuer = is_of_issuer(self.alloc, self.certificate, self.points, crl, &list)?;
        Ok(is_of_issuer)
    }

    /// Whether the CRL is about such certificates.
    fn is_in_scope(&self, crl: &CrlRef<'_>) -> Result<bool, AllocError>
        ensures { IfOk result (λ b. (c : Certificate) (of : Crl) → Lends self.now.certificate.now.bytes.now c → LendsCrl crl.now.bytes.now of
            → IsTrue b ↔ OfList of (AreInScope c)) }
    {
        let listed = list_of(self.alloc, crl)?;
        let Some(list) = listed else {
            return Ok(false);
        };
        Ok(are_in_scope(self.alloc, self.certificate, &list))
    }

    /// Whether the CRL covers a reason of one of the certificate's distribution points.
    fn covers_reasons(&self, crl: &CrlRef<'_>) -> Result<bool, AllocError>
        ensures { IfOk result (λ b. (c : Certificate) (all : List GivenCrl) (g : GivenCrl)
            → Lends self.now.certificate.now.bytes.now c → HasPoints c self.now.points.now → LendsCrl crl.now.bytes.now g.crl
            → IsTrue b ↔ Meets (question (V.accepts self.now.verifier.now) self.now.settings.now c) all g faults.Point) }
    {
        let listed = list_of(self.alloc, crl)?;
        let Some(list) = listed else {
            return Ok(false);
        };
        let covered = steps_b_d(self.alloc, self.certificate, self.points, crl, &list)?;
        let Some(reasons) = covered else {
            return Ok(false);
        };
        let rest = minus(all_reasons(), reasons);
        Ok(rest != all_reasons())
    }

    /// Whether the signer's name and key are a name and a key, and the verifier accepts the signature for that key.
    fn is_accepted(&self, given: &SignedCrl<'_, '_>) -> bool
        ensures { (g : GivenCrl) → LendsGiven given.now g → IsTrue result ↔ IsSigned (V.accepts self.now.verifier.now) g.signer g.bytes g.crl }
    {
        if !is_anchor(&given.signer) {
            return false;
        }
        is_signed(self.verifier, &given.signer, given.crl)
    }

    /// Whether each entry of the CRL can be used.
    fn has_usable_entries(&self, crl: &CrlRef<'_>) -> Result<bool, AllocError>
        ensures { IfOk result (λ b. (c : Certificate) (all : List GivenCrl) (g : GivenCrl)
            → Lends self.now.certificate.now.bytes.now c → LendsCrl crl.now.bytes.now g.crl
            → IsTrue b ↔ Meets (question (V.accepts self.now.verifier.now) self.now.settings.now c) all g faults.Entry) }
    {
        let listed = list_of(self.alloc, crl)?;
        let Some(list) = listed else {
            return Ok(false);
        };
        match find_entry(self.alloc, self.certificate, crl, is_indirect(&list)) {
            Ok(Some(_)) => Ok(true),
            Ok(None) => Ok(false),
            Err(e) => Err(e),
        }
    }

    /// Whether no other CRL takes the place of this one.
    fn is_newest(&self, given: &SignedCrl<'_, '_>) -> Result<bool, AllocError>
        ensures { IfOk result (λ b. (c : Certificate) (all : List GivenCrl) (g : GivenCrl)
            → Lends self.now.certificate.now.bytes.now c → LendsAll self.now.crls.now all → LendsGiven given.now g
            → IsTrue b ↔ Meets (question (V.accepts self.now.verifier.now) self.now.settings.now c) all g faults.Replaced) }
    {
        let listed = list_of(self.alloc, given.crl)?;
        let Some(list) = listed else {
            return Ok(false);
        };
        if !is_anchor(&given.signer) {
            return Ok(true);
        }
        let is_current = self.is_current(given, is_indirect(&list))?;
        Ok(is_current)
    }

    /// Whether the CRL meets what is asked under that fault.
    fn meets(&self, given: &SignedCrl<'_, '_>, fault: CrlFault) -> Result<bool, AllocError>
        ensures { IfOk result (λ b. (c : Certificate) (all : List GivenCrl) (g : GivenCrl)
            → Lends self.now.certificate.now.bytes.now c → HasPoints c self.now.points.now
            → LendsAll self.now.crls.now all → LendsGiven given.now g
            → IsTrue b ↔ Meets (question (V.accepts self.now.verifier.now) self.now.settings.now c) all g fault) }
    {
        let crl = given.crl;
        match fault {
            CrlFault::NotYetValid => Ok(is_begun(self.settings, crl)),
            CrlFault::Expired => Ok(is_current(self.settings, crl)),
            CrlFault::Critical => Ok(is_processed(crl)),
            CrlFault::Algorithm => Ok(has_one_algorithm(crl)),
            CrlFault::Delta => Ok(is_complete(crl)),
            CrlFault::IssuingPoint => self.has_list(crl),
            CrlFault::Issuer => self.has_issuer(crl),
            CrlFault::Scope => self.is_in_scope(crl),
            CrlFault::Point => self.covers_reasons(crl),
            CrlFault::Signer => is_of_signer(self.alloc, given),
            CrlFault::Signature => Ok(self.is_accepted(given)),
            CrlFault::Entry => self.has_usable_entries(crl),
            CrlFault::Replaced => self.is_newest(given),
        }
    }

    /// The first fault of the CRL.
    fn first_fault(&self, given: &SignedCrl<'_, '_>) -> Result<Option<CrlFault>, AllocError>
        ensures { IfOk result (λ found. (c : Certificate) (all : List GivenCrl) (g : GivenCrl)
            → Lends self.now.certificate.now.bytes.now c → HasPoints c self.now.points.now
            → LendsAll self.now.crls.now all → LendsGiven given.now g
            → HasFault (question (V.accepts self.now.verifier.now) self.now.settings.now c) all g found) }
    {
        for fault in FAULTS {
            let meets = self.meets(given, fault)?;
            if !meets {
                return Ok(Some(fault));
            }
        }
        Ok(None)
    }
}

/// Why the CRL says nothing of the certificate among those CRLs, of which it may be one: the first of the faults, in their
/// order, that it has; `None` exactly where it says of one reason or more whether the certificate is revoked. It is what
/// [`revocation_status`](crate::revocation_status) asks of each CRL, told apart; where that is undetermined, it may be asked of
/// each. A CRL without a fault isn't used by it only where those before it left no reason that it covers (RFC 5280 6.3.3 (e)).
///
/// # Errors
///
/// `Memory` when out of memory, and nothing else.
pub fn crl_fault<V: SliceVerifier>(
    alloc: Global,
    certificate: &CertificateRef<'_>,
    crl: &SignedCrl<'_, '_>,
    crls: &[SignedCrl<'_, '_>],
    settings: &RevocationSettings,
    verifier: &V,
) -> Result<Option<CrlFault>, Error>
    ensures { (c : Certificate) (all : List GivenCrl) (given : GivenCrl)
        → Lends certificate.now.bytes.now c → LendsAll crls.now all → LendsGiven crl.now given
        → MatchResult result (HasFault (question (V.accepts verifier.now) settings.now c) all given) (λ e. e.kind ≡ errors.Memory) }
{
    let points = points_of(alloc, certificate)?;
    let asked = Asked {
        alloc,
        certificate,
        points: points.as_slice(),
        settings,
        verifier,
        crls,
    };
    let fault = asked.first_fault(crl)?;
    Ok(fault)
}
