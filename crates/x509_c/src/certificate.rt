//! What a certificate says.

ghost use Rattle.std.specs.Prelude.{◌≡◌};
ghost use Rattle.x509_c_calls.specs.Dates.{TellsSide};
ghost use Rattle.x509_c_calls.specs.Extensions.{LooksUpExtension};
ghost use Rattle.x509_c_calls.specs.Signature.{IsSignature};
ghost use Rattle.x509_c_calls.specs.View.{IsView};
ghost use Rattle.x509_c_calls.specs.Calls.{Reads};
ghost use Rattle.x509_c_calls.specs.Status.{Tells};
ghost use Rattle.x509_c_calls.specs.declared.status.status.Status.TheVariants.{Refused};
ghost use Rattle.x509_der.specs.declared.error.ErrorKind.TheVariants.{Memory};

use x509_base::Rfc5280;
use x509_c_calls::{
    CertificateView, ExtensionView, SignatureView, certificate_extension, certificate_out_of_date,
    certificate_signature, certificate_view,
};
use x509_cert::certificate::CertificateInner;
use x509_der::Grammar;

/// Checks a certificate under the rules of RFC 5280, and fills in what it says and where its parts stand. It takes no
/// memory.
#[unsafe(no_mangle)]
pub extern "C" fn x509_certificate_view(input: &[u8], view: &mut CertificateView) -> i32
    ensures { Tells (λ status. Reads ⟦<CertificateInner<Rfc5280> as Grammar>⟧.form ⟦<CertificateInner<Rfc5280> as Grammar>⟧.refuses input.now
        (λ certificate. IsView input.now certificate view.new) (view.new ≡ view.old) status × (status ≡ Refused Memory → ⊥)) result }
{
    certificate_view(input, view).code()
}

/// Checks a certificate under the rules of RFC 5280, and fills in its extension with the OID of these content octets. It
/// takes no memory.
#[unsafe(no_mangle)]
pub extern "C" fn x509_certificate_extension(
    input: &[u8],
    oid: &[u8],
    found: &mut ExtensionView,
) -> i32
    ensures { Tells (λ status. LooksUpExtension ⟦<CertificateInner<Rfc5280> as Grammar>⟧.form ⟦<CertificateInner<Rfc5280> as Grammar>⟧.refuses input.now
        oid.now found.old found.new status × (status ≡ Refused Memory → ⊥)) result }
{
    certificate_extension(input, oid, found).code()
}

/// Checks a certificate under the rules of RFC 5280, and fills in what is to be verified of it. It takes no memory.
#[unsafe(no_mangle)]
pub extern "C" fn x509_certificate_signature(input: &[u8], signature: &mut SignatureView) -> i32
    ensures { Tells (λ status. Reads ⟦<CertificateInner<Rfc5280> as Grammar>⟧.form ⟦<CertificateInner<Rfc5280> as Grammar>⟧.refuses input.now
        (λ certificate. IsSignature input.now certificate signature.new) (signature.new ≡ signature.old) status × (status ≡ Refused Memory → ⊥)) result }
{
    certificate_signature(input, signature).code()
}

/// Checks a certificate under the rules of RFC 5280, and fills in on which side of its validity a moment is, in seconds since
/// 1970-01-01T00:00:00Z. It takes no memory.
#[unsafe(no_mangle)]
pub extern "C" fn x509_certificate_out_of_date(input: &[u8], moment: u64, side: &mut u32) -> i32
    ensures { Tells (λ status. TellsSide ⟦<CertificateInner<Rfc5280> as Grammar>⟧.refuses input.now moment side.old side.new status
        × (status ≡ Refused Memory → ⊥)) result }
{
    certificate_out_of_date(input, moment, side).code()
}
