//! Signed certificate timestamps (SCTs).

ghost use Rattle.x509_c_calls.specs.Timestamps.{ReadsTimestamp};
ghost use Rattle.x509_c_calls.specs.SctWalk.{Steps};
ghost use Rattle.x509_c_calls.specs.Status.{Tells};

use std::alloc::Global;
use x509_c_calls::{Span, TimestampView, timestamp_next, timestamp_view};

/// Fills in where the next serialized timestamp of a list stands.
#[unsafe(no_mangle)]
pub extern "C" fn x509_timestamp_next(
    alloc: Global,
    input: &[u8],
    at: &mut usize,
    found: &mut Span,
) -> i32
    ensures { Tells (λ status. Steps input.now at.old at.new found.old found.new status) result }
{
    timestamp_next(alloc, input, at, found).code()
}

/// Decodes a timestamp, and fills in what it says.
#[unsafe(no_mangle)]
pub extern "C" fn x509_timestamp_view(alloc: Global, input: &[u8], view: &mut TimestampView) -> i32
    ensures { Tells (λ status. ReadsTimestamp input.now view.old view.new status) result }
{
    timestamp_view(alloc, input, view).code()
}
