//! Whether a certificate names a peer.

ghost use Rattle.std.specs.Prelude.{◌≡◌};
ghost use Rattle.x509_c_calls.specs.Peers.{TellsWhetherNamed};
ghost use Rattle.x509_c_calls.specs.declared.status.status.Status.TheVariants.{Refused};
ghost use Rattle.x509_der.specs.declared.error.ErrorKind.TheVariants.{Memory};
ghost use Rattle.x509_peer.specs.Texts.{IsMailboxText, IsServerText};

use crate::Status;
use crate::payloads::flag;
use x509_base::Rfc5280;
use x509_cert::certificate::CertificateInner;
use x509_check::CertificateRef;
use x509_der::{ErrorKind, Grammar};
use x509_peer::{EmailAddress, ServerName, matches_email, matches_name};

/// Checks a certificate under the rules of RFC 5280, and tells whether it is that of the server with this name (RFC 9525 6), as
/// [`matches_name`] does: 1 in `matches` where it is, else 0. It takes no memory.
///
/// # Errors
///
/// Where the bytes are no certificate, those of [`certificate_view`](crate::certificate_view). Where they are one, `Value` exactly where the
/// text is neither a DNS name nor an IP address, as [`server_name`](crate::server_name) says. `matches` is unchanged then.
#[tactic(auto, unfolding(crate::specs::Peers::TellsWhetherNamed))]
pub fn certificate_matches_name(input: &[u8], name: &[u8], matches: &mut u32) -> Status
    ensures told { TellsWhetherNamed ⟦<CertificateInner<Rfc5280> as Grammar>⟧.form ⟦<CertificateInner<Rfc5280> as Grammar>⟧.refuses input.now
        (IsServerText name.now) matches.old matches.new result }
    ensures memory { result ≡ Refused Memory → ⊥ }
{
    match CertificateRef::<Rfc5280>::from_der(input) {
        Ok(certificate) => match ServerName::from_ascii(name) {
            Ok(name) => {
                *matches = flag(matches_name(&certificate, &name));
                Status::Done
            }
            Err(_) => Status::Refused(ErrorKind::Value),
        },
        Err(e) => e.into(),
    }
}

/// Whether the certificate names the mailbox with this e-mail address, as [`matches_email`] tells. It takes no memory.
///
/// # Errors
///
/// Those of [`certificate_matches_name`], `Value` exactly where the text is no address, as [`email_address`](crate::email_address) says.
#[tactic(auto, unfolding(crate::specs::Peers::TellsWhetherNamed))]
pub fn certificate_matches_email(input: &[u8], address: &[u8], matches: &mut u32) -> Status
    ensures told { TellsWhetherNamed ⟦<CertificateInner<Rfc5280> as Grammar>⟧.form ⟦<CertificateInner<Rfc5280> as Grammar>⟧.refuses input.now
        (IsMailboxText address.now) matches.old matches.new result }
    ensures memory { result ≡ Refused Memory → ⊥ }
{
    match CertificateRef::<Rfc5280>::from_der(input) {
        Ok(certificate) => match EmailAddress::from_ascii(address) {
            Ok(address) => {
                *matches = flag(matches_email(&certificate, &address));
                Status::Done
            }
            Err(_) => Status::Refused(ErrorKind::Value),
        },
        Err(e) => e.into(),
    }
}
