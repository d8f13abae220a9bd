//! The dates of a CRL.

ghost use Rattle.std.specs.Prelude.{◌≡◌, ◌≤◌, ◌↔◌, Option, IsTrue};
ghost use Rattle.x509_base.specs.CivilTime.{unix_seconds};
ghost use Rattle.x509_base.specs.Time.{date_time_of};
ghost use Rattle.x509_revocation.specs.Crls.{Crl, IsBeforeNext, IsInDate, this_second};
ghost use Rattle.x509_revocation.specs.Lent.{LendsCrl};

use crate::settings::RevocationSettings;
use x509_base::Time;
use x509_check::CrlRef;

/// Whether the moment isn't before this update.
fn is_issued(settings: &RevocationSettings, this_update: Time) -> bool
    ensures { IsTrue result ↔ (unix_seconds (date_time_of this_update) ≤ unix_seconds settings.now.moment) }
{
    this_update.to_unix_duration() <= settings.moment.unix_duration()
}

/// Whether the moment isn't before the CRL's this update.
pub(crate) fn is_begun(settings: &RevocationSettings, crl: &CrlRef<'_>) -> bool
    ensures { (list : Crl) → LendsCrl crl.now.bytes.now list → IsTrue result ↔ (this_second list ≤ unix_seconds settings.now.moment) }
{
    is_issued(settings, crl.this_update())
}

/// Whether the moment isn't behind the next update.
fn is_before_next(settings: &RevocationSettings, next_update: Option<Time>) -> bool
    ensures { IsTrue result ↔ IsBeforeNext settings.now.without_next_update settings.now.moment next_update }
{
    match next_update {
        Some(next_update) => settings.moment.unix_duration() <= next_update.to_unix_duration(),
        None => settings.without_next_update,
    }
}

/// Whether the moment isn't behind the CRL's next update.
pub(crate) fn is_current(settings: &RevocationSettings, crl: &CrlRef<'_>) -> bool
    ensures { (list : Crl) → LendsCrl crl.now.bytes.now list
        → IsTrue result ↔ IsBeforeNext settings.now.without_next_update settings.now.moment list.tbs_cert_list.next_update }
{
    is_before_next(settings, crl.next_update())
}

/// (a): whether the CRL is in date.
pub(crate) fn is_in_date(settings: &RevocationSettings, crl: &CrlRef<'_>) -> bool
    ensures { (list : Crl) → LendsCrl crl.now.bytes.now list → IsTrue result ↔ IsInDate settings.now.without_next_update settings.now.moment list }
{
    is_begun(settings, crl) && is_current(settings, crl)
}
