//! Finding a path over candidates.

ghost use Rattle.std.specs.List.{AllZip};
ghost use Rattle.std.specs.Prelude.{◌≡◌, ◌-◌, ◌⊎◌, length, map, take, MatchResult};
ghost use Rattle.x509_c_calls.specs.PathFinding.{FindsPath, GivesTrusted, IsNotSought, IsSought, LendSettings, SomeIsUntrusted, TellsPath, first_place, first_trust, place_of, reason_of, unlisted};
ghost use Rattle.x509_c_calls.specs.PathValidation.{AreTold, IsUntrusted};
ghost use Rattle.x509_der.specs.declared.error.ErrorKind.TheVariants.{Memory};
ghost use Rattle.x509_verify.specs.Found.{octets};
ghost use Rattle.x509_verify.specs.Given.{candidates_of, trusted_of};
ghost use Rattle.x509_verify.specs.Named.{IsDecodable};

use crate::Status;
use crate::path::answer::number_of;
use crate::path::links::{BadSignature, Unlisted, open_links};
use crate::path::places::{parts_of, place_of_trust, places_of, put_places};
use crate::path::policies::policies_of;
use crate::path::search::{FoundPath, PathSearch};
use crate::path::settings::{own_purpose_of, settings_of, unless_empty};
use crate::path::validate::{Named, constraints_of, lists_of};
use crate::revocation::part_of;
use std::alloc::{AllocError, Global};
use x509_base::{Rfc5280, SubjectPublicKeyInfo};
use x509_cert::Certificate;
use x509_cert::certificate::CertificateInner;
use x509_check::CertificateRef;
use x509_der::{ErrorKind, Grammar};
use x509_ext::pkix::{CertificatePolicies, NameConstraints};
use x509_validation::{PathSettings, Trusted, ValidationFault};
use x509_verify::{Anchors, FindError, Pool, SearchLimits, find_path};

/// What is searched, taken from the bytes.
struct Sought<'a> {
    /// What each anchor gives.
    trusted: Vec<Trusted<'a>>,

    /// The candidates.
    candidates: Vec<&'a [u8]>,

    /// The certificate to which the path leads.
    leaf: &'a [u8],

    /// The signatures that don't hold.
    bad: Vec<BadSignature<'a>>,
}

impl Drop for Sought<'_> {
    fn drop(self) {
        let Sought {
            trusted: _,
            candidates: _,
            leaf: _,
            bad: _,
        } = self;
    }
}

/// What is trusted by the certificate of these bytes.
fn trusted_by<'a>(alloc: Global, bytes: &'a [u8]) -> Result<Trusted<'a>, ErrorKind>
    ensures { MatchResult result (λ trusted. GivesTrusted bytes.now trusted) (λ e. IsUntrusted ⟦<Certificate as Grammar>⟧.refuses bytes.now e) }
{
    let certificate = match CertificateRef::<Rfc5280>::from_der(bytes) {
        Ok(certificate) => certificate,
        Err(e) => return Err(e.kind()),
    };
    match Trusted::from_certificate(alloc, &certificate) {
        Ok(trusted) => Ok(trusted),
        Err(e) => Err(e.kind()),
    }
}

/// What is trusted by each of these certificates.
fn trusted_by_all<'a>(alloc: Global, anchors: &[&'a [u8]]) -> Result<Vec<Trusted<'a>>, ErrorKind>
    ensures { MatchResult result (λ trusted. AllZip GivesTrusted (octets anchors.now) trusted.items)
        (λ e. (e ≡ Memory) ⊎ SomeIsUntrusted ⟦<Certificate as Grammar>⟧.refuses (octets anchors.now) e) }
{
    let mut trusted = Vec::new(alloc);
    for bytes in anchors {
        let one = match trusted_by(alloc, bytes) {
            Ok(one) => one,
            Err(e) => return Err(e),
        };
        match trusted.push(one) {
            Ok(()) => {}
            Err(_) => return Err(ErrorKind::Memory),
        }
    }
    Ok(trusted)
}

/// What is searched, taken from the bytes.
///
/// # Errors
///
/// `Failed` where a certificate or a key isn't within the bytes; the errors of decoding an anchor, and those of
/// [`Trusted::from_certificate`]; those of decoding the certificate, and the certificates and the keys of the links. Where several are
/// bad, any of them. `Memory` when out of memory.
fn sought_of<'a>(alloc: Global, search: &PathSearch<'a>) -> Result<Sought<'a>, ErrorKind>
    ensures { MatchResult result (λ it. IsSought search.now it) (λ e. IsNotSought (record {
      certificate = ⟦<CertificateInner<Rfc5280> as Grammar>⟧.refuses;
      key = ⟦<SubjectPublicKeyInfo as Grammar>⟧.refuses;
      constraints = ⟦<NameConstraints as Grammar>⟧.refuses;
      policies = ⟦<CertificatePolicies as Grammar>⟧.refuses;
    }) search.now e) }
{
    let anchors = match parts_of(alloc, search.bytes, search.anchors) {
        Ok(Some(anchors)) => anchors,
        Ok(None) => return Err(ErrorKind::Failed),
        Err(_) => return Err(ErrorKind::Memory),
    };
    let candidates = match parts_of(alloc, search.bytes, search.candidates) {
        Ok(Some(candidates)) => candidates,
        Ok(None) => return Err(ErrorKind::Failed),
        Err(_) => return Err(ErrorKind::Memory),
    };
    let Some(leaf) = part_of(search.bytes, search.leaf) else {
        return Err(ErrorKind::Failed);
    };
    if let Err(e) = CertificateRef::<Rfc5280>::from_der(leaf) {
        return Err(e.kind());
    }
    let trusted = match trusted_by_all(alloc, anchors.as_slice()) {
        Ok(trusted) => trusted,
        Err(e) => return Err(e),
    };
    let bad = match open_links(alloc, search.bytes, search.bad) {
        Ok(bad) => bad,
        Err(e) => return Err(e),
    };
    Ok(Sought {
        trusted,
        candidates,
        leaf,
        bad,
    })
}

/// A fault as two numbers.
fn numbers_of(fault: ValidationFault) -> (usize, u32)
    ensures place { result.0 ≡ place_of fault }
    ensures reason { result.1 ≡ reason_of fault }
{
    match fault {
        ValidationFault::At { place, reason } => (place, number_of(reason)),
        _ => (0, 0),
    }
}

/// Tells a path: its anchor, and which candidates stand above its last certificate.
fn tell_path(
    alloc: Global,
    sought: &Sought<'_>,
    trusted: &Trusted<'_>,
    path: &[&[u8]],
    fault: (usize, u32),
    room: &mut [usize],
    found: &mut FoundPath,
) -> Result<(), AllocError>
    ensures { MatchResult result
        (λ _. AreTold (map (first_place (octets sought.now.candidates.items)) (octets (take (length path.now - 1) path.now))) room.old room.new found.new.count
        × (found.new.anchor ≡ first_trust sought.now.trusted.items trusted.now) × (found.new.place ≡ fault.0) × (found.new.reason ≡ fault.1))
        (λ _. (room.new ≡ room.old) × (found.new ≡ found.old)) }
{
    let above = &path[..path.len().saturating_sub(1)];
    let places = places_of(alloc, sought.candidates.as_slice(), above)?;
    put_places(places.as_slice(), room);
    *found = FoundPath {
        anchor: place_of_trust(sought.trusted.as_slice(), trusted),
        count: places.len(),
        place: fault.0,
        reason: fault.1,
    };
    Ok(())
}

/// Finds a path, and tells it, or one that isn't valid where there is none.
#[tactic(auto, unfolding(crate::specs::PathFinding::TellsPath))]
fn tell<'a>(
    alloc: Global,
    anchors: &Anchors<'a>,
    pool: &Pool<'a>,
    sought: &Sought<'a>,
    settings: &PathSettings<'a>,
    max_depth: u8,
    room: &mut [usize],
    found: &mut FoundPath,
) -> Status
    requires { IsDecodable sought.now.leaf.now }
    ensures { TellsPath sought.now.trusted.items (octets sought.now.candidates.items) (unlisted sought.now.bad.items) (record {
      settings = settings.now;
      trusted = trusted_of anchors.now;
      candidates = candidates_of pool.now;
      max_depth = max_depth;
      leaf = sought.now.leaf.now;
    }) (record { path = room.old; found = found.old }) (record { path = room.new; found = found.new }) result }
{
    let limits = SearchLimits {
        max_depth,
        max_signatures: u32::MAX,
        ..SearchLimits::default()
    };
    let verifier = Unlisted {
        bad: sought.bad.as_slice(),
    };
    match find_path(
        alloc,
        anchors,
        pool,
        sought.leaf,
        settings,
        &limits,
        &verifier,
    ) {
        Ok(it) => {
            match tell_path(
                alloc,
                sought,
                &it.trusted,
                it.path.as_slice(),
                (0, 0),
                room,
                found,
            ) {
                Ok(()) => Status::Done,
                Err(_) => Status::Refused(ErrorKind::Memory),
            }
        }
        Err(FindError::Refused(it)) => {
            let fault = numbers_of(it.fault);
            match tell_path(
                alloc,
                sought,
                &it.trusted,
                it.path.as_slice(),
                fault,
                room,
                found,
            ) {
                Ok(()) => Status::Faulty,
                Err(_) => Status::Refused(ErrorKind::Memory),
            }
        }
        Err(FindError::Leaf(reason)) => {
            *found = FoundPath {
                anchor: sought.trusted.len(),
                count: 0,
                place: 0,
                reason: number_of(reason),
            };
            Status::Faulty
        }
        Err(FindError::UnknownIssuer) => Status::Absent,
        Err(FindError::Limit) => Status::Limit,
        Err(FindError::Decode) => Status::Refused(ErrorKind::Malformed),
        Err(FindError::Memory) => Status::Refused(ErrorKind::Memory),
    }
}

/// Finds a path under settings.
#[tactic(auto, unfolding(crate::specs::PathFinding::FindsPath))]
fn find_under<'a>(
    alloc: Global,
    search: &PathSearch<'a>,
    settings: &PathSettings<'a>,
    max_depth: u8,
    room: &mut [usize],
    found: &mut FoundPath,
) -> Status
    requires settings { LendSettings search.now.name_constraints.now search.now.policies.now search.now.settings.now settings.now }
    requires depth { search.now.max_depth ≡ max_depth }
    ensures { FindsPath (record {
      certificate = ⟦<CertificateInner<Rfc5280> as Grammar>⟧.refuses;
      key = ⟦<SubjectPublicKeyInfo as Grammar>⟧.refuses;
      constraints = ⟦<NameConstraints as Grammar>⟧.refuses;
      policies = ⟦<CertificatePolicies as Grammar>⟧.refuses;
    }) search.now (record { path = room.old; found = found.old }) (record { path = room.new; found = found.new }) result }
{
    let sought = match sought_of(alloc, search) {
        Ok(sought) => sought,
        Err(e) => return Status::Refused(e),
    };
    let Ok(anchors) = Anchors::new(alloc, sought.trusted.as_slice()) else {
        return Status::Refused(ErrorKind::Memory);
    };
    let Ok(pool) = Pool::new(alloc, sought.candidates.as_slice()) else {
        return Status::Refused(ErrorKind::Memory);
    };
    tell(
        alloc, &anchors, &pool, &sought, settings, max_depth, room, found,
    )
}

/// A shortest path that is valid apart from signatures (RFC 5280 6.1), from one of the anchors over any of the candidates, in any number
/// and order, to a certificate, as [`find_path`] says: no certificate stands there twice, and no candidate that is none counts. Any bits
/// are taken for the signature of a certificate under the key above it, as that is used ([`working_key`](crate::working_key)), but where
/// the two are listed as a link that doesn't hold. So a caller verifies the signatures of the path that is found, lists a link that
/// doesn't hold, and asks again; each round lists a further link, so that it ends.
///
/// [`Status::Done`] where there is such a path, and [`Status::Faulty`] where there is none. What is wrong with the certificate whatever
/// stands above it is told first ([`last_fault`](x509_validation::last_fault)), before any search: then `anchor` is how many anchors there
/// are, and no candidate is told. Else the path that is told is one that leads by its names from an anchor to the certificate, with a
/// fault that it has; of those it is the one of which the fewest certificates are left, from the fault on. In `path` stand the indices of
/// its candidates, topmost first, where they fit; of those with the same bytes the first is told.
///
/// # Errors
///
/// [`Status::Absent`] where there is no path, since no candidates lead by their names from an anchor to the certificate.
/// [`Status::Limit`] only where to try all paths takes more than 200,000 candidates that are put above others, or more than 1,000 paths
/// that are validated: whether there is a path isn't known.
///
/// `Value` where the settings are none, as for [`path_validate`](crate::path_validate), or more than 255 candidates would be allowed;
/// `Failed` where a certificate or a key isn't within the bytes, or an anchor has no name or has one of the extensions that are followed
/// twice; the errors of decoding an anchor, its extensions that are followed, the certificate, the certificates and the keys of links,
/// the name constraints and the policies; where several of these are bad, any of them. `Memory` when out of memory. `path` and `found`
/// are unchanged except on [`Status::Done`] and [`Status::Faulty`].
#[tactic(auto, unfolding(crate::specs::PathFinding::FindsPath))]
pub fn path_find(
    alloc: Global,
    search: &PathSearch<'_>,
    path: &mut [usize],
    found: &mut FoundPath,
) -> Status
    ensures { FindsPath (record {
      certificate = ⟦<CertificateInner<Rfc5280> as Grammar>⟧.refuses;
      key = ⟦<SubjectPublicKeyInfo as Grammar>⟧.refuses;
      constraints = ⟦<NameConstraints as Grammar>⟧.refuses;
      policies = ⟦<CertificatePolicies as Grammar>⟧.refuses;
    }) search.now (record { path = path.old; found = found.old }) (record { path = path.new; found = found.new }) result }
{
    let Some(asked) = settings_of(search.settings) else {
        return Status::Refused(ErrorKind::Value);
    };
    let Some(own) = own_purpose_of(search.settings) else {
        return Status::Refused(ErrorKind::Value);
    };
    let Ok(max_depth) = u8::try_from(search.max_depth) else {
        return Status::Refused(ErrorKind::Value);
    };
    let name_constraints = match constraints_of(search.name_constraints) {
        Ok(name_constraints) => name_constraints,
        Err(e) => return Status::Refused(e),
    };
    let policies = match policies_of(alloc, search.policies) {
        Ok(policies) => policies,
        Err(e) => return Status::Refused(e),
    };
    let Ok(own) = Vec::from_slice(alloc, own) else {
        return Status::Refused(ErrorKind::Memory);
    };
    let named = Named { policies, own };
    let Ok((lists, count)) = lists_of(alloc, &named, asked.purposes) else {
        return Status::Refused(ErrorKind::Memory);
    };
    let (set, purposes) = lists.as_slice().split_at(count);
    let settings = PathSettings {
        moment: asked.moment,
        name_constraints,
        user_initial_policy_set: Some(set),
        initial_policy_mapping_inhibit: asked.inhibit_policy_mapping,
        initial_explicit_policy: asked.explicit_policy,
        initial_any_policy_inhibit: asked.inhibit_any_policy,
        purposes: unless_empty(purposes),
        is_chained: !asked.is_unchained,
        key_usage: asked.key_usage,
        allows_version_1: asked.allows_version_1,
        constrain_common_names: asked.constrain_common_names,
    };
    find_under(alloc, search, &settings, max_depth, path, found)
}
