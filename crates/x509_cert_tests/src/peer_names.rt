//! Names of peers: which are equal, and texts of errors.

use std::test::*;
use x509_peer::{InvalidName, ServerName};

#[test]
fn names_and_errors(rt: HostRuntime) -> Result<(), Fail> {
    let alloc = rt.alloc();
    assert!(rt; ServerName::parse("::1")? == ServerName::parse("[0:0::1]")?);
    assert!(rt; ServerName::parse("::1")? != ServerName::parse("::2")?);
    assert!(rt;
        format!(in alloc; "{}", InvalidName::Server)?.as_str()
            == "neither a DNS name nor an IP address"
    );
    assert!(rt; format!(in alloc; "{}", InvalidName::Email)?.as_str() == "no e-mail address");
    Ok(())
}
