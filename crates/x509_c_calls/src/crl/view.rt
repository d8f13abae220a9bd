//! Where the parts of a CRL stand.

ghost use Rattle.std.specs.Prelude.{◌≡◌, []};
ghost use Rattle.x509_base.specs.declared.profile.Rfc5280 as rules;
ghost use Rattle.x509_c_calls.specs.Calls.{Reads};
ghost use Rattle.x509_c_calls.specs.CrlView.{IsCrl, seconds_of, version_of};
ghost use Rattle.x509_c_calls.specs.Optional.{IsNumber};
ghost use Rattle.x509_c_calls.specs.declared.status.status.Status.TheVariants.{Refused};
ghost use Rattle.x509_cert.specs.declared.crl.certificate_list.CertificateList as lists;
ghost use Rattle.x509_der.specs.Form.{Spells};
ghost use Rattle.x509_der.specs.declared.error.ErrorKind.TheVariants.{Memory};

use crate::{
    SignatureView, Span, Status, enter, pass, seconds, signature_at, step, step_optional,
    step_optional_content,
};
use x509_base::{Rfc5280, Time};
use x509_cert::certificate::Version;
use x509_cert::crl::CertificateList;
use x509_check::CrlRef;
use x509_der::Grammar;

/// What a CRL says (RFC 5280 5.1.2), and where its parts stand in its bytes. An absent part has offset 0 and length 0.
#[derive(Clone, Copy)]
#[repr(C)]
pub struct CrlView {
    /// The version: 1 where it is left out.
    pub version: u32,

    /// The algorithm in the signed part, a whole AlgorithmIdentifier.
    pub inner_algorithm: Span,

    /// The name of the issuer.
    pub issuer: Span,

    /// When it was issued, in seconds since 1970-01-01T00:00:00Z.
    pub this_update: u64,

    /// 1 where it is said by when the next one will be issued, else 0.
    pub has_next_update: u32,

    /// By when; 0 where it isn't said.
    pub next_update: u64,

    /// The list of entries, a SEQUENCE.
    pub entries: Span,

    /// The extensions, a SEQUENCE, within the tag \[0\].
    pub extensions: Span,

    /// What is to be verified.
    pub signature: SignatureView,
}

/// The number of a version, from 1, which one that is left out has.
fn version_number(version: Option<Version>) -> u32
    ensures { result ≡ version_of version }
{
    match version {
        None => 1,
        Some(Version::V1) => 1,
        Some(Version::V2) => 2,
        Some(Version::V3) => 3,
    }
}

/// 1 and the seconds since 1970-01-01T00:00:00Z, or 0 and 0 where the time is left out.
fn optional_seconds(time: Option<Time>) -> (u32, u64)
    ensures { IsNumber (seconds_of time) result.0 result.1 }
{
    match time {
        None => (0, 0),
        Some(time) => (1, seconds(&time)),
    }
}

/// What the CRL says, and where its parts stand in the bytes, which it is lent from.
fn view_of(input: &[u8], lent: &CrlRef<'_>) -> CrlView
    ensures { (list : lists.CertificateList rules.Rfc5280) → Spells ⟦<CertificateList<Rfc5280> as Grammar>⟧.form list input.now
        → lent.now.bytes.now ≡ input.now → IsCrl input.now list [] result }
{
    let version = lent.version();
    let next = lent.next_update();
    let mut at = 0;
    enter(input, &mut at);
    let signature = signature_at(input, at);
    enter(input, &mut at);
    step(input, &mut at, version.is_some());
    let inner_algorithm = pass(input, &mut at, lent.inner_algorithm().len());
    let issuer = pass(input, &mut at, lent.issuer().len());
    step(input, &mut at, true);
    step(input, &mut at, next.is_some());
    let (has_next_update, next_update) = optional_seconds(next);
    CrlView {
        version: version_number(version),
        inner_algorithm,
        issuer,
        this_update: seconds(&lent.this_update()),
        has_next_update,
        next_update,
        entries: step_optional(input, &mut at, lent.revoked_certificates().is_some()),
        extensions: step_optional_content(input, &mut at, lent.crl_extensions().is_some()),
        signature,
    }
}

/// Checks a CRL under the rules of RFC 5280, and fills in what it says and where its parts stand. It takes no memory.
///
/// # Errors
///
/// `Overlength` where the bytes are more than 268,435,455. Within that length `Malformed` where they are the encoding
/// of no CRL. The view is unchanged then.
#[tactic(auto, unfolding(crate::specs::Calls::Reads))]
pub fn crl_view(input: &[u8], view: &mut CrlView) -> Status
    ensures read { Reads ⟦<CertificateList<Rfc5280> as Grammar>⟧.form ⟦<CertificateList<Rfc5280> as Grammar>⟧.refuses input.now
        (λ list. IsCrl input.now list [] view.new) (view.new ≡ view.old) result }
    ensures memory { result ≡ Refused Memory → ⊥ }
{
    match CrlRef::<Rfc5280>::from_der(input) {
        Ok(lent) => {
            *view = view_of(input, &lent);
            Status::Done
        }
        Err(e) => e.into(),
    }
}
