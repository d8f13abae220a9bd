//! How a rule is told.

ghost use Rattle.std.specs.Prelude.{Some};
ghost use Rattle.x509_lint.specs.Wording.{severity_text};

use std::fmt;

/// How bad it is to break a rule. It is printed as `error`, `warning` or `not judged`.
#[derive(Clone, Copy, Debug, PartialEq, Eq)]
pub enum Severity {
    /// The standard says MUST or MUST NOT, or its grammar has a size or a type that isn't met.
    Error,

    /// The standard says SHOULD or SHOULD NOT.
    Warning,

    /// The standard allows it, and this library doesn't read it: rules on it aren't judged.
    NotJudged,
}

/// How bad it is to break a rule, its name, its standard with its section, and where in the object it is broken.
#[derive(Clone, Copy, Debug)]
pub struct Entry {
    /// How bad it is to break the rule.
    pub severity: Severity,

    /// The name of the rule, as `serial_number_not_positive`.
    pub name: &'static str,

    /// The standard, as `RFC 5280`.
    pub standard: &'static str,

    /// The section of the standard, as `4.1.2.2`.
    pub section: &'static str,

    /// Where in the object the rule is broken, in the field names of the standard, as `tbsCertificate.serialNumber`. An extension is named behind its list, as in
    /// `tbsCertificate.extensions.keyUsage`, also one that is wanted and isn't there.
    pub place: &'static str,
}

/// The table of a group: its rules in their order, a line for each: its variant, how bad it is to break it, its name, its section and its place.
macro_rules! rules {
    ($group:ident; $($variant:ident => $how:ident($($word:expr),+),)+) => {
        [$($crate::group::Told { rule: $group::$variant, entry: $crate::entry::entry!($how($($word),+)) },)+]
    };
}

/// How a rule is told: one that has to be kept, one that ought to be, or what RFC 5280 allows and this library doesn't read; the standard is given in front of the
/// name where it is another than RFC 5280.
macro_rules! entry {
    (must($name:expr, $section:expr, $place:expr)) => {
        $crate::entry::entry!(Error, "RFC 5280", $name, $section, $place)
    };
    (should($name:expr, $section:expr, $place:expr)) => {
        $crate::entry::entry!(Warning, "RFC 5280", $name, $section, $place)
    };
    (not_judged($name:expr, $section:expr, $place:expr)) => {
        $crate::entry::entry!(NotJudged, "RFC 5280", $name, $section, $place)
    };
    (must_of($standard:expr, $name:expr, $section:expr, $place:expr)) => {
        $crate::entry::entry!(Error, $standard, $name, $section, $place)
    };
    (should_of($standard:expr, $name:expr, $section:expr, $place:expr)) => {
        $crate::entry::entry!(Warning, $standard, $name, $section, $place)
    };
    ($severity:ident, $standard:expr, $name:expr, $section:expr, $place:expr) => {
        $crate::entry::Entry {
            severity: $crate::entry::Severity::$severity,
            name: $name,
            standard: $standard,
            section: $section,
            place: $place,
        }
    };
}

pub(crate) use entry;
pub(crate) use rules;

impl fmt::Display for Severity {
    ghost output = { λ severity. Some (severity_text severity) };

    fn fmt<W: fmt::Write>(&self, f: &mut fmt::Formatter<W>) -> fmt::Result {
        f.write_str(match self {
            Severity::Error => "error",
            Severity::Warning => "warning",
            Severity::NotJudged => "not judged",
        })
    }
}
