//! The checks of one certificate of a path.

ghost use Rattle.std.specs.Prelude.{◌≡◌, ◌↔◌, IsTrue};
ghost use Rattle.x509_path.specs.Certificates as certificates;
ghost use Rattle.x509_path.specs.Lent.{Lends};
ghost use Rattle.x509_path.specs.declared.fault.PathFault.TheVariants.{At};
ghost use Rattle.x509_path.specs.declared.fault.PathReason.TheVariants as reasons;

use crate::anchor_ref::AnchorRef;
use crate::certificate::{has_two_algorithms, is_outside};
use crate::extensions::{
    are_handled, basic_constraints, collect, front, gather, is_ca, is_repeated,
    lacks_key_cert_sign, places,
};
use crate::fault::{PathFault, PathReason};
use crate::lengths::is_over;
use crate::trust::{Trust, is_signed};
use std::alloc::{AllocError, Global};
use x509_base::DateTime;
use x509_check::{CertificateRef, ExtensionRef};
use x509_ext::pkix::BasicConstraints;

/// The reasons after `Decode`, in their order.
const REASONS: [PathReason; 9] = [
    PathReason::Algorithm,
    PathReason::Issuer,
    PathReason::Moment,
    PathReason::Signature,
    PathReason::Repeated,
    PathReason::Critical,
    PathReason::NotCa,
    PathReason::KeyUsage,
    PathReason::PathLen,
];

/// The place of a certificate in a path.
#[derive(Clone, Copy)]
pub(crate) struct Place<'a> {
    /// What the certificate above it lends; `None` below the anchor.
    pub(crate) above: Option<AnchorRef<'a>>,

    /// How many certificates that aren't self-issued may follow, where that is limited.
    pub(crate) max_path_length: Option<u32>,

    /// Whether it is the last.
    pub(crate) is_last: bool,
}

/// Whether the subject is the issuer.
#[tactic(auto, using(crate::proofs::Lent::self_issued))]
pub(crate) fn is_self_issued(certificate: &CertificateRef<'_>) -> bool
    ensures { (c : certificates.Certificate) → Lends certificate.now.bytes.now c
        → IsTrue result ↔ certificates.IsSelfIssued certificates.AreEqual c }
{
    certificate.subject() == certificate.issuer()
}

/// What a certificate lends to the checks.
#[derive(Clone, Copy)]
struct Lent<'s, 'a> {
    /// The certificate.
    certificate: &'s CertificateRef<'a>,

    /// Its extensions.
    extensions: &'s [ExtensionRef<'a>],

    /// The value of its BasicConstraints, where another certificate follows.
    constraints: Option<BasicConstraints>,
}

/// A certificate with which nothing is wrong.
#[derive(Clone, Copy)]
pub(crate) struct Judged<'a> {
    /// The certificate.
    pub(crate) certificate: CertificateRef<'a>,

    /// The value of its BasicConstraints, where another certificate follows.
    pub(crate) constraints: Option<BasicConstraints>,
}

/// What the certificates of a path are checked with.
#[derive(Drop)]
pub(crate) struct Judge<'t, T> {
    /// Where memory is taken.
    pub(crate) alloc: Global,

    /// The anchor and the verifier.
    pub(crate) trust: &'t T,

    /// The time.
    pub(crate) moment: DateTime,
}

impl<T: Trust> Judge<'_, T> {
    ghost use Rattle.std.specs.Prelude.{◌≡◌, ◌≢◌, ◌↔◌, ◌<◌, ◌⊎◌, length, min, List, None, Ok, Err, IfOk, IfErr, IsTrue, MatchResult, false};
    ghost use Rattle.x509_path.specs.Certificates as certificates;
    ghost use Rattle.x509_path.specs.Lent.{HasMany, Lends, StandsAbove, lent_extensions};
    ghost use Rattle.x509_path.specs.Path.{Breaks};
    ghost use Rattle.x509_path.specs.PathLength.{HasConstraints, Judges, JudgesLent, Leaves, standing};
    ghost use Rattle.x509_path.specs.declared.anchor.Anchor.{Anchor};
    ghost use Rattle.x509_path.specs.declared.fault.PathFault.TheVariants.{Memory};

    /// Whether the issuer isn't the name above.
    fn is_of_another(
        &self,
        place: &Place<'_>,
        certificate: &CertificateRef<'_>,
    ) -> Result<bool, AllocError>
        ensures ok { IfOk result (λ b. (c : certificates.Certificate) (above : Anchor) → Lends certificate.now.bytes.now c
            → StandsAbove (T.is_anchor self.now.trust.now) place.now.above above → IsTrue b ↔ (c.tbs_certificate.issuer ≢ above.name)) }
        ensures err { IfErr result (λ e. T.takes_memory) }
    {
        match &place.above {
            Some(above) => Ok(certificate.issuer() != above.name),
            None => {
                let is_name = self.trust.is_name(self.alloc, certificate.issuer())?;
                Ok(!is_name)
            }
        }
    }

    /// Whether the certificate has that fault.
    fn breaks(
        &self,
        place: &Place<'_>,
        lent: &Lent<'_, '_>,
        reason: PathReason,
    ) -> Result<bool, AllocError>
        ensures ok { IfOk result (λ b. (c : certificates.Certificate) (above : Anchor) → Lends lent.now.certificate.now.bytes.now c
            → lent_extensions lent.now.extensions.now ≡ certificates.extensions_of c
            → (place.now.is_last ≡ false → HasConstraints (certificates.extensions_of c) lent.now.constraints)
            → StandsAbove (T.is_anchor self.now.trust.now) place.now.above above
            → (before : List certificates.Certificate) → Leaves certificates.AreEqual None before place.now.max_path_length → IsTrue b
            ↔ Breaks (T.accepts self.now.trust.now) self.now.moment
            (standing above.name above.key before place.now.is_last) lent.now.certificate.now.bytes.now c
            reason) }
        ensures err { IfErr result (λ e. T.takes_memory ⊎ (16 < length lent.now.extensions.now)) }
    {
        let certificate = lent.certificate;
        let extensions = lent.extensions;
        match reason {
            PathReason::Decode => Ok(false),
            PathReason::Algorithm => Ok(has_two_algorithms(certificate)),
            PathReason::Issuer => self.is_of_another(place, certificate),
            PathReason::Moment => Ok(is_outside(self.moment, certificate)),
            PathReason::Signature => {
                Ok(!is_signed(self.alloc, self.trust, &place.above, certificate)?)
            }
            PathReason::Repeated => is_repeated(self.alloc, extensions),
            PathReason::Critical => Ok(!are_handled(extensions)),
            PathReason::NotCa => Ok(!place.is_last && !is_ca(lent.constraints)),
            PathReason::KeyUsage => {
                Ok(!place.is_last && lacks_key_cert_sign(self.alloc, extensions))
            }
            PathReason::PathLen => {
                Ok(!place.is_last && is_over(place.max_path_length, is_self_issued(certificate)))
            }
        }
    }

    /// The value of the BasicConstraints of a certificate with which nothing is wrong, where another one follows; `index` is
    /// its place.
    fn judge_lent(
        &self,
        place: &Place<'_>,
        certificate: &CertificateRef<'_>,
        extensions: &[ExtensionRef<'_>],
        index: usize,
    ) -> Result<Option<BasicConstraints>, PathFault>
        ensures judged { (c : certificates.Certificate) (above : Anchor)
            → Lends certificate.now.bytes.now c → lent_extensions extensions.now ≡ certificates.extensions_of c
            → StandsAbove (T.is_anchor self.now.trust.now) place.now.above above → (before : List certificates.Certificate)
            → Leaves certificates.AreEqual None before place.now.max_path_length → JudgesLent (T.accepts self.now.trust.now) self.now.moment
            (standing above.name above.key before place.now.is_last) certificate.now.bytes.now index c result }
        ensures memory { result ≡ Err Memory → T.takes_memory ⊎ (16 < length extensions.now) }
    {
        let constraints = basic_constraints(self.alloc, place.is_last, extensions);
        let lent = Lent {
            certificate,
            extensions,
            constraints,
        };
        for reason in REASONS {
            if self.breaks(place, &lent, reason)? {
                return Err(PathFault::At {
                    place: index,
                    reason,
                });
            }
        }
        Ok(constraints)
    }

    /// [`judge_lent`](Self::judge_lent) of any number of extensions.
    fn judge_many(
        &self,
        place: &Place<'_>,
        certificate: &CertificateRef<'_>,
        index: usize,
    ) -> Result<Option<BasicConstraints>, PathFault>
        ensures { (c : certificates.Certificate) (above : Anchor) → Lends certificate.now.bytes.now c
            → StandsAbove (T.is_anchor self.now.trust.now) place.now.above above → (before : List certificates.Certificate)
            → Leaves certificates.AreEqual None before place.now.max_path_length → JudgesLent (T.accepts self.now.trust.now) self.now.moment
            (standing above.name above.key before place.now.is_last) certificate.now.bytes.now index c result }
    {
        match collect(self.alloc, certificate.extensions()) {
            Ok(many) => self.judge_lent(place, certificate, many.as_slice(), index),
            Err(_) => Err(PathFault::Memory),
        }
    }

    /// [`judge_lent`](Self::judge_lent) of the extensions that the places hold, or of any number where these are too few.
    fn judge_within<'a>(
        &self,
        place: &Place<'_>,
        certificate: &CertificateRef<'a>,
        few: &mut [ExtensionRef<'a>],
        index: usize,
    ) -> Result<Option<BasicConstraints>, PathFault>
        ensures judged { (c : certificates.Certificate) (above : Anchor) → Lends certificate.now.bytes.now c
            → StandsAbove (T.is_anchor self.now.trust.now) place.now.above above → (before : List certificates.Certificate)
            → Leaves certificates.AreEqual None before place.now.max_path_length → JudgesLent (T.accepts self.now.trust.now) self.now.moment
            (standing above.name above.key before place.now.is_last) certificate.now.bytes.now index c result }
        ensures memory { (c : certificates.Certificate) → Lends certificate.now.bytes.now c → result ≡ Err Memory
            → T.takes_memory ⊎ (min (length few.old) 16 < length (certificates.extensions_of c)) }
    {
        match gather(certificate.extensions(), few) {
            Some(count) => {
                let extensions = front(few, count);
                self.judge_lent(place, certificate, extensions, index)
            }
            None => self.judge_many(place, certificate, index),
        }
    }

    /// The certificate of these bytes, where nothing is wrong with it; `index` is its place.
    pub(crate) fn judge<'a>(
        &self,
        place: &Place<'_>,
        bytes: &'a [u8],
        index: usize,
    ) -> Result<Judged<'a>, PathFault>
        ensures judged { (above : Anchor) → StandsAbove (T.is_anchor self.now.trust.now) place.now.above above → (before : List certificates.Certificate)
            → Leaves certificates.AreEqual None before place.now.max_path_length → MatchResult result
            (λ judged. (c : certificates.Certificate) × Lends judged.certificate.bytes.now c × JudgesLent (T.accepts self.now.trust.now) self.now.moment
            (standing above.name above.key before place.now.is_last) bytes.now index c (Ok judged.constraints))
            (λ e. Judges (T.accepts self.now.trust.now) self.now.moment (standing above.name above.key before place.now.is_last) bytes.now index (Err e)) }
        ensures memory { result ≡ Err Memory → T.takes_memory ⊎ HasMany bytes.now }
    {
        let certificate = match CertificateRef::from_der(bytes) {
            Ok(certificate) => certificate,
            Err(_) => return Err(unreadable(index)),
        };
        let mut few = places();
        match self.judge_within(place, &certificate, &mut few, index) {
            Ok(constraints) => Ok(Judged {
                certificate,
                constraints,
            }),
            Err(e) => Err(e),
        }
    }
}

/// The fault where the bytes are the encoding of no certificate.
fn unreadable(place: usize) -> PathFault
    ensures { result ≡ At place reasons.Decode }
{
    PathFault::At {
        place,
        reason: PathReason::Decode,
    }
}
