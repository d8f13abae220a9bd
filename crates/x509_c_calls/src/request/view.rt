//! Where the parts of a CSR stand.

ghost use Rattle.std.specs.Prelude.{◌≡◌, ◌≤◌, ◌++◌, [], drop, length, List, ℕ};
ghost use Rattle.x509_c_calls.specs.Calls.{Reads};
ghost use Rattle.x509_c_calls.specs.RequestView.{IsRequest};
ghost use Rattle.x509_c_calls.specs.declared.status.status.Status.TheVariants.{Refused};
ghost use Rattle.x509_cert.specs.CertReq.{cert_req};
ghost use Rattle.x509_cert.specs.declared.request.cert_req.CertReq as csr;
ghost use Rattle.x509_der.specs.declared.error.ErrorKind.TheVariants.{Memory};
ghost use Rattle.x509_der.specs.Form.{spelling};

use crate::{SignatureView, Span, Status, View, enter, signature_at, step};
use x509_cert::request::CertReq;
use x509_check::Check;
use x509_der::Grammar;

/// What a CSR says (RFC 2986 4), and where its parts stand in its bytes.
#[derive(Clone, Copy)]
#[repr(C)]
pub struct RequestView {
    /// The version: 1.
    pub version: u32,

    /// The name of the subject.
    pub subject: Span,

    /// The public key, with its algorithm.
    pub subject_public_key_info: Span,

    /// The attributes, a whole element under the tag \[0\].
    pub attributes: Span,

    /// What is to be verified, with the public key of the CSR.
    pub signature: SignatureView,
}

/// What a CSR says whose bytes begin at the place.
pub(crate) fn request_at(input: &[u8], place: usize) -> RequestView
    requires { place ≤ length input.now }
    ensures { (request : csr.CertReq) (behind : List ℕ) → drop place input.now ≡ spelling cert_req request ++ behind
        → IsRequest input.now request behind result }
{
    let mut at = place;
    enter(input, &mut at);
    let signature = signature_at(input, at);
    enter(input, &mut at);
    step(input, &mut at, true);
    let subject = step(input, &mut at, true);
    let subject_public_key_info = step(input, &mut at, true);
    RequestView {
        version: 1,
        subject,
        subject_public_key_info,
        attributes: step(input, &mut at, true),
        signature,
    }
}

impl View for RequestView {
    type Value = CertReq;

    ghost shows = { IsRequest };

    fn view(input: &[u8], place: usize, _value: &CertReq) -> RequestView {
        request_at(input, place)
    }
}

/// Checks a CSR, and fills in what it says and where its parts stand. It takes no memory.
///
/// # Errors
///
/// `Overlength` where the bytes are more than 268,435,455. Within that length `Malformed` where they are the encoding
/// of no CSR. The view is unchanged then.
#[tactic(auto, unfolding(crate::specs::Calls::Reads))]
pub fn request_view(input: &[u8], view: &mut RequestView) -> Status
    ensures read { Reads ⟦<CertReq as Grammar>⟧.form ⟦<CertReq as Grammar>⟧.refuses input.now
        (λ request. IsRequest input.now request [] view.new) (view.new ≡ view.old) result }
    ensures memory { result ≡ Refused Memory → ⊥ }
{
    match CertReq::check(input) {
        Ok(()) => {
            *view = request_at(input, 0);
            Status::Done
        }
        Err(e) => e.into(),
    }
}
