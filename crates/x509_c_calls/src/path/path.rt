//! Checking a path apart from its signatures.

ghost use Rattle.std.specs.Prelude.{◌≡◌, map};
ghost use Rattle.x509_c_calls.specs.Paths.{ChecksPath, Tells, reason_code};

use crate::path::pieces::cut;
use crate::{Status, read};
use std::alloc::Global;
use std::time::Duration;
use x509_base::DateTime;
use x509_cert::Certificate;
use x509_der::{ErrorKind, Grammar};
use x509_path::{Anchor, AnySignature, PathFault, PathReason, check_path_slices};

/// A fault of a path.
#[derive(Clone, Copy)]
#[repr(C)]
pub struct Fault {
    /// The number of the certificate in the path, from 0.
    pub place: usize,

    /// The number of the reason: from 1 for [`PathReason::Decode`] to 10 for [`PathReason::PathLen`], in their order.
    pub reason: u32,
}

/// The number of a reason.
fn number_of(reason: PathReason) -> u32
    ensures { result ≡ reason_code reason }
{
    match reason {
        PathReason::Decode => 1,
        PathReason::Algorithm => 2,
        PathReason::Issuer => 3,
        PathReason::Moment => 4,
        PathReason::Signature => 5,
        PathReason::Repeated => 6,
        PathReason::Critical => 7,
        PathReason::NotCa => 8,
        PathReason::KeyUsage => 9,
        PathReason::PathLen => 10,
    }
}

/// Checks the path of these inputs apart from their signatures, and fills in its first fault where it has one.
#[tactic(auto, unfolding(crate::specs::Paths::Tells))]
fn tell(
    alloc: Global,
    anchor: &Anchor,
    inputs: &[&[u8]],
    moment: DateTime,
    fault: &mut Fault,
) -> Status
    ensures { Tells moment anchor.now (map (λ input. input.now) inputs.now) fault.old fault.new result }
{
    match check_path_slices(alloc, anchor, inputs, moment, &AnySignature) {
        Ok(()) => Status::Done,
        Err(PathFault::Empty) => Status::Absent,
        Err(PathFault::Memory) => Status::Refused(ErrorKind::Memory),
        Err(PathFault::At { place, reason }) => {
            *fault = Fault {
                place,
                reason: number_of(reason),
            };
            Status::Faulty
        }
    }
}

/// Checks a path of certificates at a time, in seconds since 1970-01-01T00:00:00Z, under the subject and the key of the
/// anchor's certificate, apart from the signatures: any bits are accepted as one. The certificates stand one behind the
/// other, the topmost first, and have these lengths.
///
/// # Errors
///
/// `Value` where the time is after the year 9999, `Failed` where the lengths don't add up, and the error of decoding
/// the anchor's certificate; where several of these are bad, any of them. Else [`Status::Absent`] where there is no
/// certificate, and [`Status::Faulty`] where one has a fault, the first of which is filled in. `Memory` when out of
/// memory. `fault` is unchanged except on [`Status::Faulty`].
#[tactic(auto, unfolding(crate::specs::Paths::ChecksPath))]
pub fn path_check(
    alloc: Global,
    anchor: &[u8],
    path: &[u8],
    lens: &[usize],
    seconds: u64,
    fault: &mut Fault,
) -> Status
    ensures { ChecksPath ⟦<Certificate as Grammar>⟧.refuses anchor.now path.now lens.now seconds fault.old fault.new result }
{
    let moment = match DateTime::from_unix_duration(Duration::from_secs(seconds)) {
        Ok(moment) => moment,
        Err(e) => return e.into(),
    };
    let inputs = match cut(alloc, path, lens) {
        Ok(Some(inputs)) => inputs,
        Ok(None) => return Status::Refused(ErrorKind::Failed),
        Err(_) => return Status::Refused(ErrorKind::Memory),
    };
    let certificate = match read::<Certificate>(alloc, anchor) {
        Ok(certificate) => certificate,
        Err(e) => return Status::Refused(e),
    };
    match Anchor::from_certificate(alloc, &certificate) {
        Ok(anchor) => tell(alloc, &anchor, inputs.as_slice(), moment, fault),
        Err(e) => e.into(),
    }
}
