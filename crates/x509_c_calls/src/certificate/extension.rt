//! The extension with an OID.

ghost use Rattle.std.specs.Prelude.{◌≡◌, ◌+◌, length, List, ℕ};
ghost use Rattle.x509_c_calls.specs.Extensions.{FindsExtension, LooksUpExtension, flag};
ghost use Rattle.x509_c_calls.specs.Place.{EndsWith, IsAt};
ghost use Rattle.x509_c_calls.specs.declared.status.status.Status.TheVariants.{Refused};
ghost use Rattle.x509_check.specs.ExtensionRefs.{extensions_left};
ghost use Rattle.x509_ext.specs.LookUp.{with_oid};
ghost use Rattle.x509_der.specs.List.{joined};
ghost use Rattle.x509_der.specs.Form.{spelling};
ghost use Rattle.x509_der.specs.declared.error.ErrorKind.TheVariants.{Memory};
ghost use Rattle.x509_ext.specs.Extension as grammar;

use crate::{Span, Status};
use x509_base::Rfc5280;
use x509_cert::certificate::CertificateInner;
use x509_check::{CertificateRef, ExtensionRefs};
use x509_der::Grammar;

/// An extension, by its place in the bytes of a certificate.
#[derive(Clone, Copy)]
#[repr(C)]
pub struct ExtensionView {
    /// 1 where it is critical, else 0.
    pub critical: u32,

    /// Where its value stands: what the OCTET STRING holds.
    pub value: Span,
}

/// 1 for true.
fn flag(is_set: bool) -> u32
    ensures { result ≡ flag is_set }
{
    if is_set { 1 } else { 0 }
}

/// Where a part stands that is so long and ends at the place.
fn ending_at(input: &[u8], end: usize, len: usize) -> Span
    ensures { (text more : List ℕ) → EndsWith text more input.now → len ≡ length text → end + length more ≡ length input.now
        → IsAt text more input.now result }
{
    Span {
        place: end.saturating_sub(len),
        len,
    }
}

/// Fills in the one extension with the OID. The bytes of the extensions end at the place.
#[tactic(auto, unfolding(crate::specs::Extensions::FindsExtension))]
fn pick(
    input: &[u8],
    end: usize,
    extensions: ExtensionRefs<'_>,
    oid: &[u8],
    found: &mut ExtensionView,
) -> Status
    ensures finds { (more : List ℕ) → EndsWith (joined (spelling grammar.extension) (extensions_left extensions.entry)) more input.now
        → end + length more ≡ length input.now
        → FindsExtension input.now (extensions_left extensions.entry) more (with_oid oid.now (extensions_left extensions.entry)) found.old found.new result }
    ensures memory { result ≡ Refused Memory → ⊥ }
{
    let mut others = extensions;
    let Some(extension) = others.next_with(oid) else {
        return Status::Absent;
    };
    let behind = others.as_bytes().len();
    if others.next_with(oid).is_some() {
        return Status::Repeated;
    }
    let end = end.saturating_sub(behind);
    *found = ExtensionView {
        critical: flag(extension.critical),
        value: ending_at(input, end, extension.extn_value.len()),
    };
    Status::Done
}

/// Checks a certificate under the rules of RFC 5280, and fills in its extension with the OID of these content octets.
/// An extension may appear once at most (RFC 5280 4.2). It takes no memory.
///
/// # Errors
///
/// [`Status::Absent`] exactly where no extension has the OID, [`Status::Repeated`] exactly where two or more have it.
/// Else the error of checking the certificate, as [`certificate_view`](crate::certificate_view). `found` is unchanged
/// then.
#[tactic(auto, unfolding(crate::specs::Extensions::LooksUpExtension))]
pub fn certificate_extension(input: &[u8], oid: &[u8], found: &mut ExtensionView) -> Status
    ensures looks_up { LooksUpExtension ⟦<CertificateInner<Rfc5280> as Grammar>⟧.form ⟦<CertificateInner<Rfc5280> as Grammar>⟧.refuses input.now oid.now
        found.old found.new result }
    ensures memory { result ≡ Refused Memory → ⊥ }
{
    let lent = match CertificateRef::<Rfc5280>::from_der(input) {
        Ok(lent) => lent,
        Err(e) => return e.into(),
    };
    let slices = lent.slices();
    if slices.fields.extensions.is_none() {
        return Status::Absent;
    }
    let behind = slices.signature_algorithm.len();
    let end = input
        .len()
        .saturating_sub(behind)
        .saturating_sub(slices.signature.len());
    pick(input, end, lent.extensions(), oid, found)
}
