//! Addresses of e-mail.

ghost use Rattle.std.specs.Prelude.{◌≡◌};

use crate::dns::DnsName;
use crate::error::InvalidName;
use x509_constraints::{is_mailbox, split_mailbox};
use x509_host::is_dns_name;

/// An address of e-mail in ASCII (RFC 5280 4.2.1.6): a local part, `@` and a DNS name. The local part is one or more printed
/// characters and spaces without quotes and backslashes, or a quoted string (RFC 5321 4.1.2). The last `@` ends it.
///
/// Addresses are equal where the local parts are the same octet for octet and the hosts without regard to ASCII case
/// (RFC 5280 7.5).
#[derive(Clone, Copy, Debug, PartialEq, Eq)]
pub struct EmailAddress<'a> {
    pub(crate) local: &'a [u8],
    pub(crate) host: DnsName<'a>,
}

impl<'a> EmailAddress<'a> {
    ghost use Rattle.std.specs.Prelude.{◌≡◌, IfErr, MatchResult};
    ghost use Rattle.x509_peer.specs.Peer.{Named, named_email};
    ghost use Rattle.x509_peer.specs.Texts.{IsMailboxText};
    ghost use Rattle.x509_peer.specs.declared.error.InvalidName.TheVariants as errors;

    /// The address that the octets are.
    ///
    /// # Errors
    ///
    /// `Email` exactly where they are none.
    pub fn from_ascii(octets: &'a [u8]) -> Result<EmailAddress<'a>, InvalidName>
        ensures found { MatchResult result (λ address. IsMailboxText octets.now (named_email address)) (λ _. (address : Named) → ¬ (IsMailboxText octets.now address)) }
        ensures err { IfErr result (λ e. e ≡ errors.Email) }
    {
        if !is_mailbox(octets) {
            return Err(InvalidName::Email);
        }
        let Some((local, host)) = split_mailbox(octets) else {
            return Err(InvalidName::Email);
        };
        if !is_dns_name(host) {
            return Err(InvalidName::Email);
        }
        Ok(EmailAddress {
            local,
            host: DnsName { octets: host },
        })
    }

    /// The address that the text is, as [`EmailAddress::from_ascii`].
    ///
    /// # Errors
    ///
    /// Those of [`EmailAddress::from_ascii`].
    pub fn parse(text: &'a str) -> Result<EmailAddress<'a>, InvalidName>
        ensures found { MatchResult result (λ address. IsMailboxText text.now (named_email address)) (λ _. (address : Named) → ¬ (IsMailboxText text.now address)) }
        ensures err { IfErr result (λ e. e ≡ errors.Email) }
    {
        EmailAddress::from_ascii(text.as_bytes())
    }

    /// What stands in front of the `@`.
    pub fn local_part(&self) -> &'a [u8]
        ensures { result.now ≡ self.now.local.now }
    {
        self.local
    }

    /// The host.
    pub fn host(&self) -> DnsName<'a>
        ensures { result ≡ self.now.host }
    {
        self.host
    }
}
