//! What date-times and the two kinds of time print, and the default of a validity's profile.

use crate::calls::{is_printed, prints};
use std::str::FromStr;
use std::test::*;
use x509_base::{DateTime, GeneralizedTime, Rfc5280, Time, UtcTime, Validity};

#[test]
fn texts(rt: HostRuntime) {
    let answers = [
        is_printed(&rt, &DateTime::INFINITY, "9999-12-31T23:59:59Z"),
        is_printed(&rt, &GeneralizedTime::INFINITY, "9999-12-31T23:59:59Z"),
        prints(
            &rt,
            UtcTime::from_content(b"491231235959Z"),
            "2049-12-31T23:59:59Z",
        ),
        prints(
            &rt,
            Time::from_str("2050-01-01T00:00:00Z"),
            "2050-01-01T00:00:00Z",
        ),
    ];
    assert!(rt; answers == [true; 4]);
    let validity: Validity = Validity::<Rfc5280>::new(Time::INFINITY, Time::INFINITY);
    assert!(rt; validity.not_after == Time::INFINITY);
}
