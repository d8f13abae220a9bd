//! The table of the names of types, and long values as text: another table would still be proved, and so would a `Display`
//! that ends long texts with an error.

ghost use Rattle.std.specs.Prelude.{◌≡◌, map};
ghost use Rattle.x509_name.specs.AttributeNames.{attribute_names};
ghost use Rattle.x509_name.specs.Keys.{row};

use crate::texts::prints_back;
use std::test::*;
use x509_name::text::{KEYS, Row, key_named};

/// The table that is handed out, which no look-up goes over.
#[tactic(auto, unfolding(x509_name::specs::AttributeNames::attribute_names, x509_der::specs::Arcs::subidentifier))]
fn handed_out() -> [Row; 21]
    ensures { map (λ r. row r.0.now r.1.now r.2 r.3) result ≡ attribute_names }
{
    KEYS
}

/// Whether an attribute without a name whose value has a header of these digits, and so many octets, is printed back in a name.
fn prints_digits(rt: &HostRuntime, header: &str, count: usize) -> bool {
    let Ok(octets) = "ab".repeat(rt.alloc(), count) else {
        return false;
    };
    match format!(in rt.alloc(); "1.2.3=#{header}{octets}") {
        Ok(text) => prints_back(rt, text.as_str()),
        Err(_) => false,
    }
}

/// Headers of OCTET STRINGs, and how long these are.
static HEADERS: [(&str, usize); 4] = [
    ("0441", 65),
    ("048180", 128),
    ("04820100", 256),
    ("0483010000", 65_536),
];

#[test]
fn long_values(rt: HostRuntime) {
    for (header, count) in &HEADERS {
        assert!(rt; prints_digits(&rt, header, *count), "of {count}");
    }
}

#[test]
fn types_of_the_table(rt: HostRuntime) {
    for row in &handed_out() {
        assert!(rt;
            matches!(key_named(row.1.as_bytes()), Some(key) if key.oid == row.2),
            "at {}",
            row.0
        );
    }
}
