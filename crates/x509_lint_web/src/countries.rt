//! Which countries there are.

ghost use Rattle.std.specs.Prelude.{◌≡◌};
ghost use Rattle.x509_lint_web.specs.Country as country;

use x509_lint::labels::is_same;

/// The alpha-2 codes of ISO 3166-1, as they were on 2025-01-01, and XX, each but the last with a space behind it.
const COUNTRY_CODES: &[u8] =
    b"AD AE AF AG AI AL AM AO AQ AR AS AT AU AW AX AZ BA BB BD BE BF BG BH BI BJ BL BM BN BO BQ BR BS BT BV BW BY \
    BZ CA CC CD CF CG CH CI CK CL CM CN CO CR CU CV CW CX CY CZ DE DJ DK DM DO DZ EC EE EG EH ER ES ET FI FJ FK \
    FM FO FR GA GB GD GE GF GG GH GI GL GM GN GP GQ GR GS GT GU GW GY HK HM HN HR HT HU ID IE IL IM IN IO IQ IR \
    IS IT JE JM JO JP KE KG KH KI KM KN KP KR KW KY KZ LA LB LC LI LK LR LS LT LU LV LY MA MC MD ME MF MG MH MK \
    ML MM MN MO MP MQ MR MS MT MU MV MW MX MY MZ NA NC NE NF NG NI NL NO NP NR NU NZ OM PA PE PF PG PH PK PL PM \
    PN PR PS PT PW PY QA RE RO RS RU RW SA SB SC SD SE SG SH SI SJ SK SL SM SN SO SR SS ST SV SX SY SZ TC TD TF \
    TG TH TJ TK TL TM TN TO TR TT TV TW TZ UA UG UM US UY UZ VA VC VE VG VI VN VU WF WS XX YE YT ZA ZM ZW";

#[tactic(auto, unfolding(crate::specs::Country::country_codes))]
fn country_codes() -> &'static [u8]
    ensures { result.now ≡ country.country_codes }
{
    COUNTRY_CODES
}

/// Whether the text is one of the codes, in any case.
fn is_code_of(codes: &[u8], text: &[u8]) -> bool
    ensures { result ≡ country.is_code_of codes.now text.now }
{
    codes
        .split(|octet| *octet == b' ')
        .any(|code| is_same(text, code))
}

/// Whether the text is the code of a country.
pub(crate) fn is_country(text: &[u8]) -> bool
    ensures { result ≡ country.is_country text.now }
{
    is_code_of(country_codes(), text)
}
