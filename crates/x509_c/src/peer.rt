//! Names of peers.

ghost use Rattle.std.specs.Prelude.{◌≡◌};
ghost use Rattle.x509_c_calls.specs.Peers.{IsEmailView, IsServerView, SaysPeer, TellsWhetherNamed};
ghost use Rattle.x509_c_calls.specs.Status.{Tells};
ghost use Rattle.x509_c_calls.specs.declared.status.status.Status.TheVariants.{Refused};
ghost use Rattle.x509_der.specs.declared.error.ErrorKind.TheVariants.{Memory};
ghost use Rattle.x509_peer.specs.Texts.{IsMailboxText, IsServerText};

use x509_base::Rfc5280;
use x509_c_calls::{
    EmailView, ServerNameView, certificate_matches_email, certificate_matches_name, email_address,
    server_name,
};
use x509_cert::certificate::CertificateInner;
use x509_der::Grammar;

/// Reads the text of a server's name, and fills in what it is. It takes no memory.
#[unsafe(no_mangle)]
pub extern "C" fn x509_server_name_view(text: &[u8], found: &mut ServerNameView) -> i32
    ensures { Tells (λ status. SaysPeer (IsServerText text.now) IsServerView found.old found.new status) result }
{
    server_name(text, found).code()
}

/// Reads the text of an address of e-mail, and fills in where its parts stand. It takes no memory.
#[unsafe(no_mangle)]
pub extern "C" fn x509_email_address_view(text: &[u8], found: &mut EmailView) -> i32
    ensures { Tells (λ status. SaysPeer (IsMailboxText text.now) IsEmailView found.old found.new status) result }
{
    email_address(text, found).code()
}

/// Fills in whether a certificate is that of the server with this name: 1 where it is, else 0. It takes no memory.
#[unsafe(no_mangle)]
pub extern "C" fn x509_certificate_matches_name(input: &[u8], name: &[u8], matches: &mut u32) -> i32
    ensures { Tells (λ status. TellsWhetherNamed ⟦<CertificateInner<Rfc5280> as Grammar>⟧.form ⟦<CertificateInner<Rfc5280> as Grammar>⟧.refuses input.now
        (IsServerText name.now) matches.old matches.new status × (status ≡ Refused Memory → ⊥)) result }
{
    certificate_matches_name(input, name, matches).code()
}

/// Fills in whether a certificate is that of the mailbox with this address: 1 where it is, else 0. It takes no memory.
#[unsafe(no_mangle)]
pub extern "C" fn x509_certificate_matches_email(
    input: &[u8],
    address: &[u8],
    matches: &mut u32,
) -> i32
    ensures { Tells (λ status. TellsWhetherNamed ⟦<CertificateInner<Rfc5280> as Grammar>⟧.form ⟦<CertificateInner<Rfc5280> as Grammar>⟧.refuses input.now
        (IsMailboxText address.now) matches.old matches.new status × (status ≡ Refused Memory → ⊥)) result }
{
    certificate_matches_email(input, address, matches).code()
}
