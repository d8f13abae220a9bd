//! On which side of a certificate's validity a moment is.

ghost use Rattle.std.specs.Prelude.{◌≡◌};
ghost use Rattle.x509_c_calls.specs.Dates.{TellsSide, side_code};
ghost use Rattle.x509_c_calls.specs.declared.status.status.Status.TheVariants.{Refused};
ghost use Rattle.x509_der.specs.declared.error.ErrorKind.TheVariants.{Memory};

use crate::Status;
use std::time::Duration;
use x509_base::{DateTime, Rfc5280};
use x509_cert::certificate::CertificateInner;
use x509_check::CertificateRef;
use x509_der::Grammar;
use x509_validation::{OutOfDate, out_of_date};

/// The number of a side.
fn number_of(side: Option<OutOfDate>) -> u32
    ensures { result ≡ side_code side }
{
    match side {
        None => 0,
        Some(OutOfDate::NotYetValid) => 1,
        Some(OutOfDate::Expired) => 2,
    }
}

/// Checks a certificate under the rules of RFC 5280, and tells on which side of its validity a moment is, in seconds since
/// 1970-01-01T00:00:00Z, as [`out_of_date`] does: 0 in `side` where it is within, 1 where it is before, 2 where it is behind. It takes
/// no memory.
///
/// # Errors
///
/// Where the bytes are no certificate, those of [`certificate_view`](crate::certificate_view). Where they are one, `Value` exactly where
/// the moment is after the year 9999. `side` is unchanged then.
#[tactic(auto, unfolding(crate::specs::Dates::TellsSide))]
pub fn certificate_out_of_date(input: &[u8], seconds: u64, side: &mut u32) -> Status
    ensures told { TellsSide ⟦<CertificateInner<Rfc5280> as Grammar>⟧.refuses input.now seconds side.old side.new result }
    ensures memory { result ≡ Refused Memory → ⊥ }
{
    let certificate = match CertificateRef::<Rfc5280>::from_der(input) {
        Ok(certificate) => certificate,
        Err(e) => return e.into(),
    };
    let moment = match DateTime::from_unix_duration(Duration::from_secs(seconds)) {
        Ok(moment) => moment,
        Err(e) => return e.into(),
    };
    *side = number_of(out_of_date(&certificate, moment));
    Status::Done
}
