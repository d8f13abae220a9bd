//! Addresses of e-mail.

ghost use Rattle.x509_c_calls.specs.Peers.{IsEmailView, SaysPeer};
ghost use Rattle.x509_peer.specs.Peer.{named_email};
ghost use Rattle.x509_peer.specs.Texts.{IsMailboxText};

use crate::{Span, Status};
use x509_der::ErrorKind;
use x509_peer::EmailAddress;

/// Where the parts of an address of e-mail stand in its text.
#[derive(Clone, Copy)]
#[repr(C)]
pub struct EmailView {
    /// The local part, in front of the `@`.
    pub local: Span,

    /// The host, behind it.
    pub host: Span,
}

/// Reads the text of an address of e-mail: a local part (RFC 5321 4.1.2), the last `@`, and a DNS name. It takes no memory.
///
/// # Errors
///
/// `Value` exactly where the text is none. `found` is unchanged then.
#[tactic(auto, unfolding(crate::specs::Peers::SaysPeer))]
pub fn email_address(text: &[u8], found: &mut EmailView) -> Status
    ensures { SaysPeer (IsMailboxText text.now) IsEmailView found.old found.new result }
{
    match EmailAddress::from_ascii(text) {
        Ok(address) => {
            *found = EmailView {
                local: Span {
                    place: 0,
                    len: address.local_part().len(),
                },
                host: Span {
                    place: address.local_part().len() + 1,
                    len: address.host().as_bytes().len(),
                },
            };
            Status::Done
        }
        Err(_) => Status::Refused(ErrorKind::Value),
    }
}
