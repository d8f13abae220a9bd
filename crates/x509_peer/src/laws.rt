//! Which names are equal. Each law is a function with an empty body, whose contract is the law.

ghost use Rattle.std.specs.Prelude.{◌≡◌, ◌↔◌, true};
ghost use Rattle.x509_host.specs.Host.{IsSame};
ghost use Rattle.x509_peer.specs.Peer.{named_server};
ghost use Rattle.x509_peer.specs.declared.dns.DnsName.{DnsName};
ghost use Rattle.x509_peer.specs.declared.email.EmailAddress.{EmailAddress};

use crate::dns::DnsName;
use crate::email::EmailAddress;

/// DNS names are equal exactly where they are the same without regard to ASCII case.
pub fn dns_names_are_equal_without_regard_to_case<'a>()
    ensures { (a b : DnsName) → (⟦<DnsName<'a> as PartialEq>⟧.eq a b ≡ true) ↔ IsSame a.octets.now b.octets.now }
{}
