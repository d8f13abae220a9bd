//! Content octets of INTEGER (X.690 8.3).

ghost use Rattle.std.specs.Prelude.{◌≡◌, ◌^◌, ◌≤◌, IfSome, IfNone};
ghost use Rattle.x509_prim.specs.Integer.{integer_value, is_integer, is_unsigned, is_negative, natural_below, number, without_zeros};

/// Whether the octets are the content of an integer.
#[tactic(auto, unfolding(crate::specs::Integer::is_integer))]
pub(crate) fn check_integer(content: &[u8]) -> bool
    ensures { result ≡ is_integer content.now }
{
    match content {
        [] => false,
        [_] => true,
        [first, second, ..] => {
            !(*first == 0x00 && *second < 0x80) && !(*first == 0xFF && *second >= 0x80)
        }
    }
}

/// Whether the octets are the content of an integer that is not negative.
#[tactic(auto, unfolding(crate::specs::Integer::is_unsigned, crate::specs::Integer::is_integer))]
pub(crate) fn check_unsigned(content: &[u8]) -> bool
    ensures { result ≡ is_unsigned content.now }
{
    check_integer(content) && !is_signed(content)
}

/// Whether bit 8 of the first octet is 1.
pub(crate) fn is_signed(octets: &[u8]) -> bool
    ensures { result ≡ is_negative octets.now }
{
    matches!(octets, [first, ..] if *first >= 0x80)
}

/// The octets of a number, most significant first, without leading zeros, but at least one octet where there are some.
pub fn strip_zeros(octets: &[u8]) -> &[u8]
    ensures { result.now ≡ without_zeros octets.now }
{
    let mut rest = octets;
    while let [0, after @ ..] = rest {
        if after.is_empty() {
            return rest;
        }
        rest = after;
    }
    rest
}

/// The number of the octets as digits in base 256, the most significant first; `None` where it is 2^128 or more.
fn digits_u128(octets: &[u8]) -> Option<u128>
    ensures some { IfSome result (λ n. n ≡ number octets.now) }
    ensures none { IfNone result (2 ^ 128 ≤ number octets.now) }
{
    let mut high: u128 = 0;
    for octet in octets {
        if high >= 1 << 120 {
            return None;
        }
        high = 256 * high + u128::from(*octet);
    }
    Some(high)
}

/// The whole number of the content octets where it is from 0 to 2^128 - 1, else `None`.
pub(crate) fn natural_u128(content: &[u8]) -> Option<u128>
    ensures { result ≡ natural_below (2 ^ 128) (integer_value content.now) }
{
    if is_signed(content) {
        return None;
    }
    digits_u128(content)
}

/// The whole number of the content octets where it is from 0 to 2^64 - 1, else `None`.
pub(crate) fn natural_u64(content: &[u8]) -> Option<u64>
    ensures { result ≡ natural_below (2 ^ 64) (integer_value content.now) }
{
    u64::try_from(natural_u128(content)?).ok()
}
