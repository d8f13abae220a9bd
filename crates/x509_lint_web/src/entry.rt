//! How a rule of the Baseline Requirements is told.

use crate::day::Day;
use x509_lint::Entry;

/// How bad it is to break a rule, its name, its section and where in the certificate it is broken, and since when and until when it is in force.
#[derive(Clone, Copy, Debug)]
pub struct WebEntry {
    /// What rules of RFC 5280 have too; the standard is `TLS BR`.
    pub entry: Entry,

    /// The day from which on the rule is in force; `None` where it was from the beginning.
    pub since: Option<Day>,

    /// The day from which on the rule is no longer in force; `None` where it is in force today.
    pub until: Option<Day>,
}

/// The entries of a group's rules, a line for each in the order of their variants: its variant, how bad it is to break it, its name, its section, since when it
/// is in force and, where it no longer is, the day before which it was, and its place.
macro_rules! entries {
    ($($variant:ident => $how:ident($name:literal, $section:literal, $since:ident $(($($part:literal),+))?, $(before_day($($last:literal),+),)? $place:literal),)+) => {
        [$($crate::entry::WebEntry {
            entry: $crate::entry::entries!(@$how $name, $section, $place),
            since: $crate::entry::entries!(@$since $($($part),+)?),
            until: $crate::entry::entries!(@before_day $($($last),+)?),
        }),+]
    };
    (@must $name:literal, $section:literal, $place:literal) => {
        x509_lint::Entry {
            severity: x509_lint::Severity::Error,
            name: $name,
            standard: "TLS BR",
            section: $section,
            place: $place,
        }
    };
    (@should $name:literal, $section:literal, $place:literal) => {
        x509_lint::Entry {
            severity: x509_lint::Severity::Warning,
            name: $name,
            standard: "TLS BR",
            section: $section,
            place: $place,
        }
    };
    (@from_day $year:literal, $month:literal, $day:literal) => {
        Some($crate::day::Day {
            year: $year,
            month: $month,
            day: $day,
        })
    };
    (@before_day $year:literal, $month:literal, $day:literal) => {
        $crate::entry::entries!(@from_day $year, $month, $day)
    };
    (@before_day) => {
        None
    };
    (@None) => {
        None
    };
}

pub(crate) use entries;
