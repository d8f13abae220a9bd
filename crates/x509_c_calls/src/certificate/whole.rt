//! The view of a certificate.

ghost use Rattle.std.specs.Prelude.{◌≡◌};
ghost use Rattle.x509_c_calls.specs.View.{IsView};
ghost use Rattle.x509_c_calls.specs.Calls.{Reads};
ghost use Rattle.x509_c_calls.specs.declared.status.status.Status.TheVariants.{Refused};
ghost use Rattle.x509_der.specs.declared.error.ErrorKind.TheVariants.{Memory};

use crate::Status;
use crate::certificate::view::{CertificateView, view_of};
use x509_base::Rfc5280;
use x509_cert::certificate::CertificateInner;
use x509_check::CertificateRef;
use x509_der::Grammar;

/// Checks a certificate under the rules of RFC 5280, and fills in the view. It takes no memory.
///
/// # Errors
///
/// `Overlength` where the bytes are more than 268,435,455. Within that length `Malformed` where they are the encoding
/// of no certificate. The view is unchanged then.
#[tactic(auto, unfolding(crate::specs::Calls::Reads))]
pub fn certificate_view(input: &[u8], view: &mut CertificateView) -> Status
    ensures read { Reads ⟦<CertificateInner<Rfc5280> as Grammar>⟧.form ⟦<CertificateInner<Rfc5280> as Grammar>⟧.refuses input.now
        (λ certificate. IsView input.now certificate view.new) (view.new ≡ view.old) result }
    ensures memory { result ≡ Refused Memory → ⊥ }
{
    match CertificateRef::<Rfc5280>::from_der_with_validity(input) {
        Ok((lent, validity)) => {
            *view = view_of(input, &lent, &validity);
            Status::Done
        }
        Err(e) => e.into(),
    }
}
