//! Whether a GeneralizedTime names a moment (RFC 5280 4.1.2.5.2).

ghost use Rattle.std.specs.Prelude.{◌≡◌, ◌+◌, ◌<◌, ◌≤◌, length};
ghost use Rattle.x509_base.specs.CivilTime as calendar;
ghost use Rattle.x509_base.specs.TimeReading as reading;
ghost use Rattle.x509_lint.specs.CrlEntry.{is_moment};

/// The number that two digits at a place say; 255 where one of the octets there is no digit.
#[tactic(auto, unfolding(x509_base::specs::TimeReading::two_digit_number))]
fn number_at(octets: &[u8], place: usize) -> u8
    requires { place + 1 < length octets.now }
    ensures { result ≡ reading.number_at octets.now place }
{
    match (octets[place], octets[place + 1]) {
        (tens @ b'0'..=b'9', ones @ b'0'..=b'9') => 10 * (tens - b'0') + (ones - b'0'),
        _ => 255,
    }
}

/// The number that the first four digits say; one that no year is where one of the octets there is no digit.
#[tactic(auto, unfolding(x509_base::specs::TimeReading::four_digit_number))]
fn year_of(octets: &[u8]) -> u16
    requires { 3 < length octets.now }
    ensures { result ≡ reading.long_number_at octets.now 0 }
{
    let low = number_at(octets, 2);
    if low < 100 {
        100 * number_at(octets, 0) as u16 + low as u16
    } else {
        25_500
    }
}

fn is_leap_year(year: u16) -> bool
    ensures { result ≡ calendar.is_leap_year year }
{
    (year % 4 == 0 && year % 100 != 0) || year % 400 == 0
}

fn days_in_month(year: u16, month: u8) -> u8
    ensures { result ≡ calendar.days_in_month year month }
{
    match month {
        2 if is_leap_year(year) => 29,
        2 => 28,
        4 | 6 | 9 | 11 => 30,
        _ => 31,
    }
}

/// Whether the calendar has the day, and a clock shows the time, of a text YYYYMMDDHHMMSSZ.
pub(crate) fn names_moment(octets: &[u8]) -> bool
    requires { 14 ≤ length octets.now }
    ensures { result ≡ is_moment (reading.named_generalized_time octets.now) }
{
    let month = number_at(octets, 4);
    let day = number_at(octets, 6);
    (1 <= month && month <= 12)
        && ((1 <= day && day <= days_in_month(year_of(octets), month))
            && (number_at(octets, 8) <= 23
                && (number_at(octets, 10) <= 59 && number_at(octets, 12) <= 59)))
}
