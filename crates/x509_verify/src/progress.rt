//! How far a search has come.

ghost use Rattle.std.specs.Prelude.{◌≡◌, ◌+◌, ◌⊎◌, IsSome, MatchResult, OnOk, Some};
ghost use Rattle.x509_verify.specs.declared.progress.Stop.TheVariants as stops;
ghost use Rattle.x509_verify.specs.declared.refusal.Refusal as refusals;

use crate::refusal::Refusal;
use std::alloc::{AllocError, Global};
use x509_validation::{Trusted, ValidationFault};

/// Why a search stops before its end.
#[derive(Clone, Copy, Debug, PartialEq, Eq)]
pub(crate) enum Stop {
    /// Out of memory.
    Memory,

    /// A limit is used up.
    Limit,
}

impl From<AllocError> for Stop {
    ghost use Rattle.std.specs.Prelude.{◌≡◌};
    ghost use Rattle.x509_verify.specs.declared.progress.Stop.TheVariants.{Memory};

    ghost from_gives = { λ _ stop. stop ≡ Memory };

    fn from(_: AllocError) -> Stop {
        Stop::Memory
    }
}

/// What the verifier was asked, and what it answered.
#[derive(Debug, Drop)]
pub(crate) struct Asked<'a> {
    /// The certificate.
    pub(crate) certificate: &'a [u8],

    /// The key, as it is used.
    pub(crate) key: Vec<u8>,

    /// Whether its signature is accepted for the key.
    pub(crate) is_accepted: bool,
}

/// What is left to a search, and what it knows.
#[derive(Drop)]
pub(crate) struct Progress<'a> {
    /// The steps that are left.
    pub(crate) steps: u32,

    /// The paths that may still be validated.
    pub(crate) paths: u32,

    /// The signatures that may still be verified.
    pub(crate) signatures: u32,

    /// What was asked of the verifier.
    pub(crate) asked: Vec<Asked<'a>>,

    /// The path that came furthest of those that aren't valid.
    pub(crate) refusal: Option<Refusal<'a>>,
}

/// Takes one from what is left, which stops the search exactly where nothing is.
pub(crate) fn take_one(left: &mut u32) -> Result<(), Stop>
    ensures { MatchResult result (λ _. left.new + 1 ≡ left.old) (λ e. (e ≡ stops.Limit) × (left.old ≡ 0) × (left.new ≡ 0)) }
{
    match left.checked_sub(1) {
        Some(fewer) => {
            *left = fewer;
            Ok(())
        }
        None => Err(Stop::Limit),
    }
}

/// How many certificates of a path of that many are left from the fault on.
fn left_from(fault: ValidationFault, count: usize) -> usize {
    match fault {
        ValidationFault::At { place, .. } => count.saturating_sub(place),
        _ => count,
    }
}

/// Notes the path, where it came further than the one that is noted.
pub(crate) fn note<'a>(
    alloc: Global,
    noted: &mut Option<Refusal<'a>>,
    trusted: &Trusted<'a>,
    path: &[&'a [u8]],
    fault: ValidationFault,
) -> Result<(), AllocError>
    ensures some { OnOk result (IsSome noted.new) }
    ensures which { OnOk result ((told : refusals.Refusal) → noted.new ≡ Some told → (noted.old ≡ Some told)
        ⊎ ((told.trusted ≡ trusted.now) × (told.path.items ≡ path.now) × (told.fault ≡ fault))) }
{
    let is_further = match noted {
        Some(refusal) => {
            left_from(fault, path.len()) < left_from(refusal.fault, refusal.path.len())
        }
        None => true,
    };
    if is_further {
        let path = Vec::from_slice(alloc, path)?;
        *noted = Some(Refusal {
            trusted: *trusted,
            path,
            fault,
        });
    }
    Ok(())
}
