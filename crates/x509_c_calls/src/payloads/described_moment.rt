//! Reasons, moments and periods that are encoded of numbers.

ghost use Rattle.std.specs.Prelude.{◌≡◌, IfSome, MatchOption, Option, option_map};
ghost use Rattle.x509_base.specs.CivilTime.{CivilTime, IsDateTime, unix_seconds};
ghost use Rattle.x509_c_calls.specs.Optional.{IsNumber};

use crate::payloads::described::Described;
use crate::payloads::period::PrivateKeyUsagePeriodView;
use std::time::Duration;
use x509_base::GeneralizedTime;
use x509_der::Spelled;
use x509_ext::pkix::{CrlReason, PrivateKeyUsagePeriod};
use x509_prim::NamedNumber;

impl Described for CrlReason {
    ghost use Rattle.x509_c_calls.specs.DescribedParts.{IsReason};

    type Description = u32;

    ghost describes = { IsReason };

    fn described(description: u32) -> Option<CrlReason> {
        let Ok(number) = u8::try_from(description) else {
            return None;
        };
        let reason = CrlReason::from_number(number)?;
        reason.has_spelling();
        Some(reason)
    }
}

/// The moment that many seconds after 1970-01-01T00:00:00Z; `None` after the year 9999.
fn moment_of(seconds: u64) -> Option<GeneralizedTime>
    ensures { MatchOption result ((moment : CivilTime) → unix_seconds moment ≡ seconds → IsDateTime moment → ⊥)
        (λ moment. (unix_seconds moment ≡ seconds) × IsDateTime moment) }
{
    match GeneralizedTime::from_unix_duration(Duration::from_secs(seconds)) {
        Ok(moment) => Some(moment),
        Err(_) => None,
    }
}

impl Described for GeneralizedTime {
    ghost use Rattle.x509_c_calls.specs.DescribedParts.{IsMoment};

    type Description = u64;

    ghost describes = { IsMoment };

    fn described(description: u64) -> Option<GeneralizedTime> {
        let moment = moment_of(description)?;
        moment.has_spelling();
        Some(moment)
    }
}

/// The moment behind a 1, or none behind a 0; `None` where neither is said, or the moment is after the year 9999.
fn optional_moment(is_there: u32, seconds: u64) -> Option<Option<GeneralizedTime>>
    ensures { MatchOption result
        ((said : Option CivilTime) → IsNumber (option_map unix_seconds said) is_there seconds → IfSome said IsDateTime → ⊥)
        (λ said. IsNumber (option_map unix_seconds said) is_there seconds) }
{
    if is_there == 0 && seconds == 0 {
        return Some(None);
    }
    if is_there != 1 {
        return None;
    }
    match moment_of(seconds) {
        Some(moment) => Some(Some(moment)),
        None => None,
    }
}

#[tactic(auto, unfolding(x509_ext::specs::PrivateKeyUsagePeriod::private_key_usage_period_fields, x509_der::specs::Frames::fields_good))]
impl Described for PrivateKeyUsagePeriod {
    ghost use Rattle.x509_c_calls.specs.DescribedParts.{IsPeriodOf};

    type Description = PrivateKeyUsagePeriodView;

    ghost describes = { IsPeriodOf };

    fn described(description: PrivateKeyUsagePeriodView) -> Option<PrivateKeyUsagePeriod> {
        let not_before = optional_moment(description.has_not_before, description.not_before)?;
        let not_after = optional_moment(description.has_not_after, description.not_after)?;
        if not_before.is_none() && not_after.is_none() {
            return None;
        }
        let are_both = not_before.is_some() && not_after.is_some();
        if are_both && description.not_after < description.not_before {
            return None;
        }
        let period = PrivateKeyUsagePeriod {
            not_before,
            not_after,
        };
        period.has_spelling();
        Some(period)
    }
}
