//! What one CRL says of a certificate, by the steps (a) to (l) of RFC 5280 6.3.3.

ghost use Rattle.std.specs.List.{All};
ghost use Rattle.std.specs.Prelude.{◌≡◌, ◌↔◌, [], true, IfOk, IsTrue, MatchOption, Option};
ghost use Rattle.x509_base.specs.SubjectPublicKeyInfo.{subject_public_key_info};
ghost use Rattle.x509_base.specs.declared.subject_public_key_info.SubjectPublicKeyInfo as keys;
ghost use Rattle.x509_der.specs.Form.{Spells};
ghost use Rattle.x509_ext.specs.Identifiers.{id_ce};
ghost use Rattle.x509_ext.specs.LookUp.{with_oid};
ghost use Rattle.x509_match.specs.Matching.{NamesMatch};
ghost use Rattle.x509_name.specs.Names as grammar;
ghost use Rattle.x509_path.specs.Lent.{LendsAnchor};
ghost use Rattle.x509_path.specs.declared.anchor.Anchor.{Anchor};
ghost use Rattle.x509_revocation.specs.Crls.{Crl, HasOneAlgorithm, IsOfSigner, IsOlder, IsProcessed, IsSignedBy, crl_extensions};
ghost use Rattle.x509_revocation.specs.Lent.{LendsCrl, LendsGiven};
ghost use Rattle.x509_revocation.specs.Lent as steps;
ghost use Rattle.x509_revocation.specs.LentFound.{placed_entry};
ghost use Rattle.x509_revocation.specs.Names as names;
ghost use Rattle.x509_revocation.specs.Says.{GivenCrl, IsReady, Tells};
ghost use Rattle.x509_revocation.specs.declared.status.Revocation as revocations;

use crate::dates::is_in_date;
use crate::deltas::{are_in_order, have_same_key_identifier, have_same_point};
use crate::entries::{Found, find_entry, step_k};
use crate::extensions::{are_processed, has_none};
use crate::names::encoded_match;
use crate::older_crl::is_older;
use crate::points::is_indirect;
use crate::reasons::minus;
use crate::scope::{list_of, steps_b_d};
use crate::settings::RevocationSettings;
use crate::signed_crl::SignedCrl;
use crate::status::Revocation;
use std::alloc::{AllocError, Global};
use x509_base::SubjectPublicKeyInfo;
use x509_cert::laws::one_signed_part;
use x509_check::{CertificateRef, Check, CrlRef, RevokedCertRef};
use x509_der::AssociatedOid;
use x509_ext::pkix::crl::dp::{DistributionPoint, ReasonFlags};
use x509_ext::pkix::{BaseCrlNumber, IssuingDistributionPoint};
use x509_name::name::Name;
use x509_path::{AnchorRef, SliceVerifier};

/// Whether it is no delta CRL (5.2.4).
pub(crate) fn is_complete(crl: &CrlRef<'_>) -> bool
    ensures { (list : Crl) → LendsCrl crl.now.bytes.now list → IsTrue result ↔ (with_oid (id_ce 27) (crl_extensions list) ≡ []) }
{
    has_none(&crl.extensions(), BaseCrlNumber::OID)
}

/// Whether each critical extension is processed (5.2).
pub(crate) fn is_processed(crl: &CrlRef<'_>) -> bool
    ensures { (list : Crl) → LendsCrl crl.now.bytes.now list → IsTrue result ↔ All IsProcessed (crl_extensions list) }
{
    are_processed::<IssuingDistributionPoint, BaseCrlNumber>(crl.extensions())
}

/// Whether the algorithm in the signed part is the one outside it (5.1.1.2).
pub(crate) fn has_one_algorithm(crl: &CrlRef<'_>) -> bool
    ensures { (list : Crl) → LendsCrl crl.now.bytes.now list → IsTrue result ↔ HasOneAlgorithm list }
{
    crl.inner_algorithm() == crl.signature_algorithm()
}

/// (a): whether the CRL is ready to be used, complete or as a delta CRL. It is in date, and has one algorithm in its signed part and
/// outside. It has no critical extension but an [`IssuingDistributionPoint`] and a [`BaseCrlNumber`] that can be decoded.
fn is_ready(settings: &RevocationSettings, crl: &CrlRef<'_>) -> bool
    ensures { (list : Crl) → LendsCrl crl.now.bytes.now list
        → IsTrue result ↔ IsReady settings.now.without_next_update settings.now.moment list }
{
    is_in_date(settings, crl) && is_processed(crl) && has_one_algorithm(crl)
}

/// Whether the bytes are the encoding of a name.
fn is_name(bytes: &[u8]) -> bool
    ensures { IsTrue result ↔ ((found : names.Name) × Spells grammar.name found bytes.now) }
{
    match Name::check(bytes) {
        Ok(()) => true,
        Err(_) => false,
    }
}

/// Whether the bytes are the encoding of a public key.
fn is_key(bytes: &[u8]) -> bool
    ensures { IsTrue result ↔ ((found : keys.SubjectPublicKeyInfo) × Spells subject_public_key_info found bytes.now) }
{
    match SubjectPublicKeyInfo::check(bytes) {
        Ok(()) => true,
        Err(_) => false,
    }
}

/// Whether the signer's name and key are the encodings of a name and of a key.
pub(crate) fn is_anchor(signer: &AnchorRef<'_>) -> bool
    ensures { IsTrue result ↔ ((anchor : Anchor) × LendsAnchor signer.now anchor) }
{
    is_name(signer.name) && is_key(signer.key)
}

/// (f): whether the signer's name and key are the encodings of a name and of a key, and the name is the CRL's issuer.
pub(crate) fn is_of_signer(alloc: Global, given: &SignedCrl<'_, '_>) -> Result<bool, AllocError>
    ensures { IfOk result (λ b. (g : GivenCrl) → LendsGiven given.now g → IsTrue b ↔ IsOfSigner g.signer g.crl) }
{
    if !is_anchor(&given.signer) {
        return Ok(false);
    }
    let crl = given.crl;
    let same = encoded_match(alloc, given.signer.name, crl.issuer())?;
    Ok(same)
}

/// Whether both signers have one key.
fn have_one_key(a: &AnchorRef<'_>, b: &AnchorRef<'_>) -> bool
    ensures { (x y : Anchor) → LendsAnchor a.now x → LendsAnchor b.now y → IsTrue result ↔ (x.key ≡ y.key) }
{
    a.key == b.key
}

/// (c) (1): whether both CRLs have one issuer.
fn have_one_issuer(alloc: Global, a: &CrlRef<'_>, b: &CrlRef<'_>) -> Result<bool, AllocError>
    ensures { IfOk result (λ same. (x y : Crl) → LendsCrl a.now.bytes.now x → LendsCrl b.now.bytes.now y
        → IsTrue same ↔ NamesMatch x.tbs_cert_list.issuer y.tbs_cert_list.issuer) }
{
    let same = encoded_match(alloc, a.issuer(), b.issuer())?;
    Ok(same)
}

/// (g) of a complete CRL, (h) of a delta CRL: whether the verifier accepts the signature of the signed part, as it stands in the
/// bytes, for the signer's key.
pub(crate) fn is_signed<V: SliceVerifier>(
    verifier: &V,
    signer: &AnchorRef<'_>,
    crl: &CrlRef<'_>,
) -> bool
    ensures { (list : Crl) (anchor : Anchor) → LendsCrl crl.now.bytes.now list → LendsAnchor signer.now anchor
        → IsTrue result ↔ IsSignedBy (V.accepts verifier.now) anchor crl.now.bytes.now list }
{
    one_signed_part();
    verifier.verify(
        crl.signature_algorithm(),
        signer.key,
        crl.signed_part(),
        crl.signature(),
    )
}

/// What there is behind a CRL.
#[derive(Clone, Copy)]
pub(crate) enum Step {
    /// These reasons are left.
    Left(ReasonFlags),

    /// The certificate is revoked.
    Revoked(Revocation),
}

/// (k), (l): what is behind a CRL, by what was found of the certificate, where these reasons are left if it isn't revoked.
fn steps_k_l(alloc: Global, found: &Found<'_>, rest: ReasonFlags) -> Step
    ensures { (revoked : Option revocations.Revocation) × Tells (placed_entry found.now) revoked × (result ≡ steps.step_of rest revoked) }
{
    match step_k(alloc, found) {
        Some(revocation) => Step::Revoked(revocation),
        None => Step::Left(rest),
    }
}

/// The newest delta CRL of those that were looked at.
#[derive(Clone, Copy)]
pub(crate) struct Newest<'s, 'a> {
    /// The delta CRL.
    pub(crate) crl: &'s CrlRef<'a>,

    /// Its place, from 0.
    pub(crate) place: usize,
}

/// Whether the delta CRL is newer than the newest so far.
fn is_newer(
    alloc: Global,
    newest: &Option<Newest<'_, '_>>,
    delta: &CrlRef<'_>,
) -> Result<bool, AllocError>
    ensures { IfOk result (λ b. MatchOption newest.now (b ≡ true) (λ it. (d x : Crl)
        → LendsCrl it.crl.now.bytes.now d → LendsCrl delta.now.bytes.now x → IsTrue b ↔ IsOlder d x)) }
{
    match newest {
        Some(it) => is_older(alloc, it.crl, delta),
        None => Ok(true),
    }
}

/// What is asked of CRLs.
#[derive(Clone, Copy)]
pub(crate) struct Asked<'q, 'c, 's, 'a, V> {
    /// Where memory is taken.
    pub(crate) alloc: Global,

    /// The certificate.
    pub(crate) certificate: &'q CertificateRef<'c>,

    /// The distribution points of the certificate.
    pub(crate) points: &'q [DistributionPoint],

    /// The settings.
    pub(crate) settings: &'q RevocationSettings,

    /// The verifier.
    pub(crate) verifier: &'q V,

    /// The CRLs, among them delta CRLs.
    pub(crate) crls: &'q [SignedCrl<'s, 'a>],
}

impl<'s, 'a, V: SliceVerifier> Asked<'_, '_, 's, 'a, V> {
    ghost use Rattle.std.specs.List.{All};
    ghost use Rattle.std.specs.Prelude.{◌≡◌, ◌↔◌, ◌++◌, ◌∷◌, [], ℕ, length, IfOk, IsTrue, List, MatchOption, None, Option, Some, option_map};
    ghost use Rattle.x509_check.specs.CrlRefs.{lent_entry};
    ghost use Rattle.x509_ext.specs.declared.pkix.reasons.Reasons as reason_sets;
    ghost use Rattle.x509_path.specs.Certificates.{Certificate};
    ghost use Rattle.x509_path.specs.Lent.{Lends};
    ghost use Rattle.x509_revocation.specs.Crls.{Entry};
    ghost use Rattle.x509_revocation.specs.LentDeltas.{IsNewer, IsNoNewer};
    ghost use Rattle.x509_revocation.specs.Entries.{FindsEntry};
    ghost use Rattle.x509_revocation.specs.Lent.{LendsAll, LendsCrl, LendsGiven, LendsNamed, Steps, question, step_of};
    ghost use Rattle.x509_revocation.specs.LentFound.{placed_entry};
    ghost use Rattle.x509_revocation.specs.Points.{HasPoints};
    ghost use Rattle.x509_revocation.specs.Says.{Covers, FindsAt, FindsDelta, FindsWith, Fits, GivenCrl, IsComplete, IsDeltaTo, Replaces, Tells};
    ghost use Rattle.x509_revocation.specs.Status.{AddsTo, minus};
    ghost use Rattle.x509_revocation.specs.declared.status.Revocation as revocations;

    /// (c), (h): whether the delta CRL is one to the complete CRL, its entries aside.
    ///
    /// - (a) It is ready to be used.
    /// - (c) (1) Both have one issuer.
    /// - (c) (2) Both have the same IssuingDistributionPoint, or none.
    /// - (c) (3) Both have the same AuthorityKeyIdentifier, or none.
    /// - The number of the complete CRL is that of the base or a later one, and before that of the delta CRL (5.2.4).
    /// - (h) The verifier accepts its signature for the key of the complete CRL's signer; its own signer isn't asked.
    fn passes_c_h(
        &self,
        complete: &SignedCrl<'_, '_>,
        delta: &CrlRef<'_>,
    ) -> Result<bool, AllocError>
        ensures { IfOk result (λ b. (c : Certificate) (g d : GivenCrl)
            → LendsNamed complete.now g → LendsCrl delta.now.bytes.now d.crl → delta.now.bytes.now ≡ d.bytes
            → IsTrue b ↔ Fits (question (V.accepts self.now.verifier.now) self.now.settings.now c) g d) }
    {
        let whole = complete.crl;
        if !is_ready(self.settings, delta) || !have_same_point(whole, delta) {
            return Ok(false);
        }
        if !have_same_key_identifier(whole, delta) {
            return Ok(false);
        }
        let is_issuers = have_one_issuer(self.alloc, whole, delta)?;
        if !is_issuers {
            return Ok(false);
        }
        let are_ordered = are_in_order(self.alloc, whole, delta)?;
        if !are_ordered {
            return Ok(false);
        }
        Ok(is_signed(self.verifier, &complete.signer, delta))
    }

    /// (c), (h), (i): the entry of the certificate in a delta CRL to the complete one, if it has one; `None` where it is no delta CRL
    /// to it.
    fn look_in_delta(
        &self,
        complete: &SignedCrl<'_, '_>,
        is_indirect: bool,
        delta: &CrlRef<'a>,
    ) -> Result<Option<Option<RevokedCertRef<'a>>>, AllocError>
        ensures { IfOk result (λ looked. (c : Certificate) (g d : GivenCrl) → Lends self.now.certificate.now.bytes.now c → LendsNamed complete.now g
            → LendsCrl delta.now.bytes.now d.crl → delta.now.bytes.now ≡ d.bytes
            → MatchOption looked (IsDeltaTo (question (V.accepts self.now.verifier.now) self.now.settings.now c) is_indirect g d → ⊥)
            (λ entry. IsDeltaTo (question (V.accepts self.now.verifier.now) self.now.settings.now c) is_indirect g d
            × FindsEntry c d.crl (option_map lent_entry entry))) }
    {
        let fits = self.passes_c_h(complete, delta)?;
        if !fits {
            return Ok(None);
        }
        find_entry(self.alloc, self.certificate, delta, is_indirect)
    }

    /// The entry of the certificate in a delta CRL to the complete one that is newer than the newest so far, if it has one; `None`
    /// where it is no such one.
    fn look_in_newer(
        &self,
        complete: &SignedCrl<'_, '_>,
        is_indirect: bool,
        newest: &Option<Newest<'_, '_>>,
        delta: &CrlRef<'a>,
    ) -> Result<Option<Option<RevokedCertRef<'a>>>, AllocError>
        ensures { IfOk result (λ looked. (c : Certificate) (g d : GivenCrl) → Lends self.now.certificate.now.bytes.now c → LendsNamed complete.now g
            → LendsCrl delta.now.bytes.now d.crl → delta.now.bytes.now ≡ d.bytes
            → MatchOption looked (IsNoNewer (question (V.accepts self.now.verifier.now) self.now.settings.now c) is_indirect g newest.now d)
            (λ entry. IsNewer newest.now d.crl × IsDeltaTo (question (V.accepts self.now.verifier.now) self.now.settings.now c) is_indirect g d
            × FindsEntry c d.crl (option_map lent_entry entry))) }
    {
        let is_next = is_newer(self.alloc, newest, delta)?;
        if !is_next {
            return Ok(None);
        }
        self.look_in_delta(complete, is_indirect, delta)
    }

    /// (i): what the newest delta CRL to the complete one has of the certificate, wherever it stands, and of several as new the
    /// first; `None` where there is no delta CRL to it.
    fn look_in_deltas(
        &self,
        complete: &SignedCrl<'_, '_>,
        is_indirect: bool,
    ) -> Result<Option<Found<'a>>, AllocError>
        ensures { IfOk result (λ looked. (c : Certificate) (all : List GivenCrl) (g : GivenCrl) → Lends self.now.certificate.now.bytes.now c
            → LendsAll self.now.crls.now all → LendsNamed complete.now g
            → MatchOption looked (FindsDelta (question (V.accepts self.now.verifier.now) self.now.settings.now c) is_indirect g all 0 all None)
            (λ found. (d : GivenCrl)
            × FindsDelta (question (V.accepts self.now.verifier.now) self.now.settings.now c) is_indirect g all 0 all (Some (found.place, d))
            × FindsEntry c d.crl (option_map lent_entry found.entry))) }
    {
        let crls = self.crls;
        let mut newest: Option<Newest<'s, 'a>> = None;
        let mut found: Option<RevokedCertRef<'a>> = None;
        for (place, given) in crls.iter().enumerate() {
            let crl = given.crl;
            let looked = match self.look_in_newer(complete, is_indirect, &newest, crl) {
                Ok(looked) => looked,
                Err(e) => return Err(e),
            };
            let Some(entry) = looked else {
                continue;
            };
            newest = Some(Newest { crl, place });
            found = entry;
        }
        match newest {
            Some(it) => Ok(Some(Found {
                place: it.place,
                entry: found,
            })),
            None => Ok(None),
        }
    }

    /// (i): what the delta CRL to the complete one has of the certificate; `None` where it has no entry of it, or there is none or
    /// none is used.
    fn step_i(
        &self,
        complete: &SignedCrl<'_, '_>,
        is_indirect: bool,
    ) -> Result<Option<Found<'a>>, AllocError>
        ensures { IfOk result (λ looked. (c : Certificate) (all : List GivenCrl) (g : GivenCrl) (place : ℕ) → Lends self.now.certificate.now.bytes.now c
            → LendsAll self.now.crls.now all → LendsNamed complete.now g
            → MatchOption looked ((own : Option (ℕ × Entry)) → FindsAt c place g.crl own
            → FindsWith (question (V.accepts self.now.verifier.now) self.now.settings.now c) is_indirect all place g own)
            (λ found. FindsWith (question (V.accepts self.now.verifier.now) self.now.settings.now c) is_indirect all place g (placed_entry found))) }
    {
        let use_deltas = self.settings.use_deltas;
        if !use_deltas {
            return Ok(None);
        }
        match self.look_in_deltas(complete, is_indirect) {
            Ok(Some(found)) => {
                if found.entry.is_some() {
                    Ok(Some(found))
                } else {
                    Ok(None)
                }
            }
            Ok(None) => Ok(None),
            Err(e) => Err(e),
        }
    }

    /// (i) to (l): what there is behind a complete CRL, where (j) found this in it: an entry of the delta CRL counts before it. These
    /// reasons are left if the certificate isn't revoked.
    fn steps_i_to_l(
        &self,
        complete: &SignedCrl<'_, '_>,
        is_indirect: bool,
        own: &Found<'a>,
        rest: ReasonFlags,
    ) -> Result<Step, AllocError>
        ensures { IfOk result (λ step. (c : Certificate) (all : List GivenCrl) (g : GivenCrl) → Lends self.now.certificate.now.bytes.now c
            → LendsAll self.now.crls.now all → LendsNamed complete.now g → FindsAt c own.now.place g.crl (placed_entry own.now)
            → (found : Option (ℕ × Entry))
            × FindsWith (question (V.accepts self.now.verifier.now) self.now.settings.now c) is_indirect all own.now.place g found
            × ((revoked : Option revocations.Revocation) × Tells found revoked × (step ≡ step_of rest revoked))) }
    {
        match self.step_i(complete, is_indirect) {
            Ok(Some(found)) => Ok(steps_k_l(self.alloc, &found, rest)),
            Ok(None) => Ok(steps_k_l(self.alloc, own, rest)),
            Err(e) => Err(e),
        }
    }

    /// (a): whether the CRL is a newer one that takes the place of the older one (5.2.3): one that could be used, under the same key, of
    /// the same issuer and with the same IssuingDistributionPoint, or none.
    fn replaces(
        &self,
        older: &SignedCrl<'_, '_>,
        is_indirect: bool,
        newer: &SignedCrl<'_, '_>,
    ) -> Result<bool, AllocError>
        ensures { IfOk result (λ b. (c : Certificate) (g n : GivenCrl) → Lends self.now.certificate.now.bytes.now c
            → LendsNamed older.now g → LendsGiven newer.now n
            → IsTrue b ↔ Replaces (question (V.accepts self.now.verifier.now) self.now.settings.now c) is_indirect n g) }
    {
        let (old, new) = (older.crl, newer.crl);
        if !have_one_key(&older.signer, &newer.signer) {
            return Ok(false);
        }
        if !have_same_point(old, new) {
            return Ok(false);
        }
        let is_older = is_older(self.alloc, old, new)?;
        if !is_older {
            return Ok(false);
        }
        let is_issuers = have_one_issuer(self.alloc, old, new)?;
        if !is_issuers {
            return Ok(false);
        }
        let is_usable = self.passes_a_f(newer)?;
        if !is_usable {
            return Ok(false);
        }
        if !is_signed(self.verifier, &newer.signer, new) {
            return Ok(false);
        }
        match find_entry(self.alloc, self.certificate, new, is_indirect) {
            Ok(Some(_)) => Ok(true),
            Ok(None) => Ok(false),
            Err(e) => Err(e),
        }
    }

    /// (a): whether no CRL takes the place of this one.
    pub(crate) fn is_current(
        &self,
        given: &SignedCrl<'_, '_>,
        is_indirect: bool,
    ) -> Result<bool, AllocError>
        ensures { IfOk result (λ b. (c : Certificate) (all : List GivenCrl) (g : GivenCrl) → Lends self.now.certificate.now.bytes.now c
            → LendsAll self.now.crls.now all → LendsNamed given.now g
            → IsTrue b ↔ All (λ n. Replaces (question (V.accepts self.now.verifier.now) self.now.settings.now c) is_indirect n g → ⊥) all) }
    {
        let crls = self.crls;
        for other in crls {
            let replaces = self.replaces(given, is_indirect, other)?;
            if replaces {
                return Ok(false);
            }
        }
        Ok(true)
    }

    /// (g) to (l): what there is behind the CRL at the place, which passes (a) to (f), newer ones aside. The first reasons are left
    /// where it isn't used, the second where it is and the certificate isn't revoked.
    fn steps_g_to_l(
        &self,
        place: usize,
        given: &SignedCrl<'_, 'a>,
        list: &Option<IssuingDistributionPoint>,
        left: ReasonFlags,
        rest: ReasonFlags,
    ) -> Result<Step, AllocError>
        ensures { IfOk result (λ step. (c : Certificate) (all : List GivenCrl) (g : GivenCrl) (reasons : reason_sets.Reasons)
            → Lends self.now.certificate.now.bytes.now c
            → LendsAll self.now.crls.now all → LendsNamed given.now g
            → IsComplete self.now.settings.now.without_next_update self.now.settings.now.moment g → Covers c g.crl list.now reasons
            → AddsTo left reasons → rest ≡ minus left reasons
            → Steps (question (V.accepts self.now.verifier.now) self.now.settings.now c) all place left g step) }
    {
        if !is_signed(self.verifier, &given.signer, given.crl) {
            return Ok(Step::Left(left));
        }
        let indirect = is_indirect(list);
        let is_current = self.is_current(given, indirect)?;
        if !is_current {
            return Ok(Step::Left(left));
        }
        match find_entry(self.alloc, self.certificate, given.crl, indirect) {
            Ok(Some(entry)) => {
                let own = Found { place, entry };
                self.steps_i_to_l(given, indirect, &own, rest)
            }
            Ok(None) => Ok(Step::Left(left)),
            Err(e) => Err(e),
        }
    }

    /// (a), (f): whether the CRL is ready to be used, complete, and that of its signer.
    fn passes_a_f(&self, given: &SignedCrl<'_, '_>) -> Result<bool, AllocError>
        ensures { IfOk result (λ b. (g : GivenCrl) → LendsGiven given.now g
            → IsTrue b ↔ IsComplete self.now.settings.now.without_next_update self.now.settings.now.moment g) }
    {
        let crl = given.crl;
        if !is_ready(self.settings, crl) || !is_complete(crl) {
            return Ok(false);
        }
        let is_of_signer = is_of_signer(self.alloc, given)?;
        Ok(is_of_signer)
    }

    /// (a) to (l): what there is behind the CRL at the place, where these reasons are left.
    pub(crate) fn steps_a_to_l(
        &self,
        left: ReasonFlags,
        place: usize,
        given: &SignedCrl<'_, 'a>,
    ) -> Result<Step, AllocError>
        ensures { IfOk result (λ step. (c : Certificate) (all : List GivenCrl) (g : GivenCrl)
            → Lends self.now.certificate.now.bytes.now c → HasPoints c self.now.points.now
            → LendsAll self.now.crls.now all → LendsGiven given.now g
            → Steps (question (V.accepts self.now.verifier.now) self.now.settings.now c) all place left g step) }
    {
        let is_usable = self.passes_a_f(given)?;
        if !is_usable {
            return Ok(Step::Left(left));
        }
        let crl = given.crl;
        let listed = list_of(self.alloc, crl)?;
        let Some(list) = listed else {
            return Ok(Step::Left(left));
        };
        let covered = steps_b_d(self.alloc, self.certificate, self.points, crl, &list)?;
        let Some(reasons) = covered else {
            return Ok(Step::Left(left));
        };
        let rest = minus(left, reasons);
        // (e)
        if rest == left {
            return Ok(Step::Left(left));
        }
        self.steps_g_to_l(place, given, &list, left, rest)
    }
}
