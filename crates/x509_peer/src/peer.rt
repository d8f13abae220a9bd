//! Peers of each kind.

use crate::dns::DnsName;
use crate::email::EmailAddress;

/// A peer as names of a certificate are asked for it.
#[derive(Clone, Copy)]
pub(crate) enum Peer<'a> {
    /// A host by its name.
    Host(DnsName<'a>),

    /// A host by the octets of its address.
    Address(&'a [u8]),

    /// A mailbox.
    Mailbox(EmailAddress<'a>),
}
