//! Numbers of two and four decimal digits in ASCII.

ghost use Rattle.std.specs.Prelude.{◌≡◌, ◌+◌, ◌/◌, ◌%◌, ◌<◌, length};
ghost use Rattle.x509_base.specs.TimeReading as reading;

/// The first digit of a number below 100.
pub(crate) fn tens(number: u8) -> u8
    ensures { result ≡ 48 + number / 10 }
{
    b'0' + number / 10
}

/// The second digit of a number below 100.
pub(crate) fn ones(number: u8) -> u8
    ensures { result ≡ 48 + number % 10 }
{
    b'0' + number % 10
}

/// The number that two digits at a place say; 255 where one of the octets there is no digit.
#[inline(always)]
#[tactic(auto, unfolding(crate::specs::TimeReading::two_digit_number))]
pub(crate) fn number_at(bytes: &[u8], place: usize) -> u8
    requires { place + 1 < length bytes.now }
    ensures { result ≡ reading.number_at bytes.now place }
{
    match (bytes[place], bytes[place + 1]) {
        (tens @ b'0'..=b'9', ones @ b'0'..=b'9') => 10 * (tens - b'0') + (ones - b'0'),
        _ => 255,
    }
}

/// The number that four digits at a place say; one that no year is where one of the octets there is no digit.
#[inline(always)]
#[tactic(auto, unfolding(crate::specs::TimeReading::four_digit_number))]
pub(crate) fn long_number_at(bytes: &[u8], place: usize) -> u16
    requires { place + 3 < length bytes.now }
    ensures { result ≡ reading.long_number_at bytes.now place }
{
    let low = number_at(bytes, place + 2);
    if low < 100 {
        100 * number_at(bytes, place) as u16 + low as u16
    } else {
        25_500
    }
}
