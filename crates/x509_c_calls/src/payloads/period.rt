//! Moments that are GeneralizedTimes.

ghost use Rattle.std.specs.Prelude.{◌≡◌, option_map};
ghost use Rattle.x509_base.specs.CivilTime.{unix_seconds};
ghost use Rattle.x509_c_calls.specs.Calls.{Reads};
ghost use Rattle.x509_c_calls.specs.Optional.{IsNumber};
ghost use Rattle.x509_c_calls.specs.declared.status.status.Status.TheVariants.{Refused};
ghost use Rattle.x509_der.specs.declared.error.ErrorKind.TheVariants.{Memory};

use crate::Status;
use crate::payloads::calls::View;
use std::alloc::Global;
use x509_base::GeneralizedTime;
use x509_der::{Decode, Grammar};
use x509_ext::pkix::PrivateKeyUsagePeriod;

/// The period in which a private key may sign (X.509 9.2.2.5), in seconds since 1970-01-01T00:00:00Z.
#[derive(Clone, Copy)]
#[repr(C)]
pub struct PrivateKeyUsagePeriodView {
    /// 1 where a first moment is told, else 0.
    pub has_not_before: u32,

    /// The first moment; 0 where it isn't told.
    pub not_before: u64,

    /// 1 where a last moment is told, else 0.
    pub has_not_after: u32,

    /// The last moment; 0 where it isn't told.
    pub not_after: u64,
}

/// The seconds since 1970-01-01T00:00:00Z.
fn seconds_of(time: GeneralizedTime) -> u64
    ensures { result ≡ unix_seconds time }
{
    time.to_unix_duration().as_secs()
}

/// 1 and the seconds since 1970-01-01T00:00:00Z, or 0 and 0 where the time is left out.
fn optional_seconds(time: Option<GeneralizedTime>) -> (u32, u64)
    ensures { IsNumber (option_map unix_seconds time) result.0 result.1 }
{
    match time {
        None => (0, 0),
        Some(time) => (1, seconds_of(time)),
    }
}

impl View for PrivateKeyUsagePeriodView {
    ghost use Rattle.x509_c_calls.specs.Periods.{IsPeriod};

    type Value = PrivateKeyUsagePeriod;

    ghost shows = { λ bytes period behind view. IsPeriod period view };

    fn view(
        _input: &[u8],
        _place: usize,
        value: &PrivateKeyUsagePeriod,
    ) -> PrivateKeyUsagePeriodView {
        let (has_not_before, not_before) = optional_seconds(value.not_before);
        let (has_not_after, not_after) = optional_seconds(value.not_after);
        PrivateKeyUsagePeriodView {
            has_not_before,
            not_before,
            has_not_after,
            not_after,
        }
    }
}

/// Reads a GeneralizedTime, as the invalidity date of an entry of a CRL (RFC 5280 5.3.2), and fills in its seconds since
/// 1970-01-01T00:00:00Z. It takes no memory.
///
/// # Errors
///
/// `Overlength` where the bytes are more than 268,435,455. Within that length `Malformed` where they are the encoding of
/// no GeneralizedTime from 1970 on. `moment` is unchanged then.
#[tactic(auto, unfolding(crate::specs::Calls::Reads))]
pub fn generalized_time(alloc: Global, input: &[u8], moment: &mut u64) -> Status
    ensures read { Reads ⟦<GeneralizedTime as Grammar>⟧.form ⟦<GeneralizedTime as Grammar>⟧.refuses input.now (λ time. moment.new ≡ unix_seconds time)
        (moment.new ≡ moment.old) result }
    ensures memory { result ≡ Refused Memory → ⊥ }
{
    match GeneralizedTime::from_der(alloc, input) {
        Ok(time) => {
            *moment = seconds_of(time);
            Status::Done
        }
        Err(e) => e.into(),
    }
}
