//! The entries of a CRL.

ghost use Rattle.std.specs.Prelude.{◌≡◌, length};
ghost use Rattle.x509_c_calls.specs.Calls.{Reads};
ghost use Rattle.x509_c_calls.specs.declared.status.status.Status.TheVariants.{Refused};
ghost use Rattle.x509_cert.specs.Revoked.{entries};
ghost use Rattle.x509_der.specs.declared.error.ErrorKind.TheVariants.{Memory};

use crate::Status;
use x509_base::Rfc5280;
use x509_cert::crl::CertificateList;
use x509_check::CrlRef;
use x509_der::Grammar;

/// Checks a CRL under the rules of RFC 5280, and says how many entries it has. It takes no memory.
///
/// # Errors
///
/// `Overlength` where the bytes are more than 268,435,455. Within that length `Malformed` where they are the encoding
/// of no CRL. The count is unchanged then.
#[tactic(auto, unfolding(crate::specs::Calls::Reads))]
pub fn crl_walk(input: &[u8], number: &mut usize) -> Status
    ensures read { Reads ⟦<CertificateList<Rfc5280> as Grammar>⟧.form ⟦<CertificateList<Rfc5280> as Grammar>⟧.refuses input.now
        (λ list. number.new ≡ length (entries list.tbs_cert_list.revoked_certificates)) (number.new ≡ number.old) result }
    ensures memory { result ≡ Refused Memory → ⊥ }
{
    match CrlRef::<Rfc5280>::from_der(input) {
        Ok(lent) => {
            *number = lent.entry_count();
            Status::Done
        }
        Err(e) => e.into(),
    }
}
