//! Values that are decoded, or decoded and encoded, as a whole.

ghost use Rattle.std.specs.Prelude.{◌≡◌};
ghost use Rattle.std.specs.Str.{is_utf8};
ghost use Rattle.x509_c_calls.specs.Named.{IsNamedAnswer, IsTextAnswer, profile_of};
ghost use Rattle.x509_c_calls.specs.SignedPlace.{IsSignedAt};
ghost use Rattle.x509_c_calls.specs.Calls.{Checks};
ghost use Rattle.x509_c_calls.specs.Status.{Fills, Tells};
ghost use Rattle.x509_c_calls.specs.declared.status.status.Status.TheVariants.{Refused};
ghost use Rattle.x509_der.specs.declared.error.ErrorKind.TheVariants.{Memory};
ghost use Rattle.x509_types.specs.Reencoding.{Reencodes};

use std::alloc::Global;
use x509_all_types::Types;
use x509_base::Rfc5280;
use x509_c_calls::{
    Span, check, name_from_text, name_text, reencode, reencode_named, signed_place,
};
use x509_cert::certificate::CertificateInner;
use x509_cert::crl::CertificateList;
use x509_cert::request::CertReq;
use x509_codec::{Codec, NameCodec};
use x509_der::{Encode, Grammar};

/// Decodes a value of the type with that name under the profile with that number, and encodes it at the front of the
/// buffer.
#[unsafe(no_mangle)]
pub extern "C" fn x509_reencode(
    alloc: Global,
    name: &[u8],
    profile: u32,
    input: &[u8],
    room: &mut [u8],
    written: &mut usize,
) -> i32
    ensures { Tells (λ status. Fills (IsNamedAnswer ⟦<Types as Codec>⟧.reencodes name.now
        (profile_of profile) input.now) room.old room.new written.old written.new status) result }
{
    reencode_named::<Types>(alloc, name, profile, input, room, written).code()
}

/// Checks a certificate under the rules of RFC 5280. It takes no memory.
#[unsafe(no_mangle)]
pub extern "C" fn x509_certificate_check(input: &[u8]) -> i32
    ensures { Tells (λ status. Checks ⟦<CertificateInner<Rfc5280> as Grammar>⟧.form ⟦<CertificateInner<Rfc5280> as Grammar>⟧.refuses input.now status
        × (status ≡ Refused Memory → ⊥)) result }
{
    check::<CertificateInner<Rfc5280>>(input).code()
}

/// Decodes a certificate under the rules of RFC 5280, and encodes it at the front of the buffer.
#[unsafe(no_mangle)]
pub extern "C" fn x509_certificate_reencode(
    alloc: Global,
    input: &[u8],
    room: &mut [u8],
    written: &mut usize,
) -> i32
    ensures { Tells (λ status. Fills (Reencodes ⟦<CertificateInner<Rfc5280> as Grammar>⟧.form ⟦<CertificateInner<Rfc5280> as Encode>⟧.writing
        ⟦<CertificateInner<Rfc5280> as Grammar>⟧.refuses input.now) room.old room.new written.old written.new status) result }
{
    reencode::<CertificateInner<Rfc5280>>(alloc, input, room, written).code()
}

/// Checks a CRL under the rules of RFC 5280. It takes no memory.
#[unsafe(no_mangle)]
pub extern "C" fn x509_crl_check(input: &[u8]) -> i32
    ensures { Tells (λ status. Checks ⟦<CertificateList<Rfc5280> as Grammar>⟧.form ⟦<CertificateList<Rfc5280> as Grammar>⟧.refuses input.now status
        × (status ≡ Refused Memory → ⊥)) result }
{
    check::<CertificateList<Rfc5280>>(input).code()
}

/// Checks a CSR. It takes no memory.
#[unsafe(no_mangle)]
pub extern "C" fn x509_request_check(input: &[u8]) -> i32
    ensures { Tells (λ status. Checks ⟦<CertReq as Grammar>⟧.form ⟦<CertReq as Grammar>⟧.refuses input.now status × (status ≡ Refused Memory → ⊥)) result }
{
    check::<CertReq>(input).code()
}

/// Decodes a name, and puts its text in UTF-8 at the front of the buffer.
#[unsafe(no_mangle)]
pub extern "C" fn x509_name_text(
    alloc: Global,
    input: &[u8],
    room: &mut [u8],
    written: &mut usize,
) -> i32
    ensures { Tells (λ status. Fills (⟦<Types as NameCodec>⟧.prints_name input.now) room.old room.new written.old written.new status) result }
{
    name_text::<Types>(alloc, input, room, written).code()
}

/// Reads the text of a name, and puts the name's encoding at the front of the buffer.
#[unsafe(no_mangle)]
pub extern "C" fn x509_name_from_text(
    alloc: Global,
    text: &[u8],
    room: &mut [u8],
    written: &mut usize,
) -> i32
    ensures { Tells (λ status. Fills (IsTextAnswer ⟦<Types as NameCodec>⟧.encodes_name
        (is_utf8 text.now) text.now) room.old room.new written.old written.new status) result }
{
    name_from_text::<Types>(alloc, text, room, written).code()
}

/// Where the bytes stand that the signature is over.
#[unsafe(no_mangle)]
pub extern "C" fn x509_signed_slice(input: &[u8], span: &mut Span) -> i32
    ensures { Tells (λ status. IsSignedAt input.now span.old span.new status) result }
{
    signed_place(input, span).code()
}
