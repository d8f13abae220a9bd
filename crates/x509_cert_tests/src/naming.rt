//! Rules for names.

use crate::calls::is_refused;
use std::test::*;
use x509_build::profile::cabf::{ca_certificate_naming, check_names_encoding};
use x509_name::name::Name;

/// Each type of the order, in it.
const ALL: &str = "CN=a,OU=b,givenName=c,SN=d,O=e,STREET=f,postalCode=g,L=h,ST=i,C=US,DC=j";

const REPEATED: &str =
    "Each Name MUST NOT contain more than one instance of a given AttributeTypeAndValue";

const SHARED: &str =
    "Each RelativeDistinguishedName MUST contain exactly one AttributeTypeAndValue.";

const MISSING: &str = "Not all required elements were specified";

const NO_C: &str = "Non-ordered attribute or invalid attribute found (oid=2.5.4.6)";

const NO_DC: &str =
    "Non-ordered attribute or invalid attribute found (oid=0.9.2342.19200300.100.1.25)";

/// Of any certificate (Baseline Requirements 7.1.4.1), and of an authority (7.1.2.10.2).
#[test]
fn orders(rt: HostRuntime) -> Result<(), Fail> {
    for (text, multiple_allowed, refusal) in [
        (ALL, false, ""),
        ("C=US,ST=CA", false, NO_C),
        ("title=a,title=b", true, ""),
        ("title=a,title=b", false, REPEATED),
        ("C=US,O=a+CN=b", true, SHARED),
    ] {
        let name = Name::from_str(rt.alloc(), text)?;
        assert!(rt; is_refused(&rt, check_names_encoding(&name, multiple_allowed), refusal));
    }
    for (text, refusal) in [
        ("CN=R,O=T,C=US", ""),
        ("CN=R,C=US", MISSING),
        ("CN=R,O=T,C=US,DC=x", NO_DC),
        ("C=US,CN=R,O=T", NO_C),
    ] {
        let name = Name::from_str(rt.alloc(), text)?;
        assert!(rt; is_refused(&rt, ca_certificate_naming(&name), refusal));
    }
    Ok(())
}
