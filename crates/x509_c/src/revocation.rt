//! Whether CRLs say that a certificate is revoked.

ghost use Rattle.std.specs.Prelude.{◌≡◌};
ghost use Rattle.x509_c_calls.specs.Calls.{Reads};
ghost use Rattle.x509_c_calls.specs.CrlFaults.{TellsFault};
ghost use Rattle.x509_c_calls.specs.RevocationStatus.{TellsSigner, TellsStatus};
ghost use Rattle.x509_c_calls.specs.Status.{Tells};

use std::alloc::Global;
use x509_base::{Rfc5280, SubjectPublicKeyInfo};
use x509_c_calls::{RevocationAnswer, SignedCrlSpans, crl_fault, may_sign_crls, revocation_status};
use x509_cert::certificate::CertificateInner;
use x509_cert::crl::CertificateList;
use x509_der::Grammar;
use x509_name::name::Name;

/// Tells whether the key of a certificate may sign CRLs: 1 where it may, else 0.
#[unsafe(no_mangle)]
pub extern "C" fn x509_may_sign_crls(alloc: Global, certificate: &[u8], may_sign: &mut u32) -> i32
    ensures { Tells (λ status. Reads ⟦<CertificateInner<Rfc5280> as Grammar>⟧.form ⟦<CertificateInner<Rfc5280> as Grammar>⟧.refuses certificate.now
        (λ c. TellsSigner c may_sign.new) (may_sign.new ≡ may_sign.old) status) result }
{
    may_sign_crls(alloc, certificate, may_sign).code()
}

/// Tells what CRLs, whose signatures the caller has verified, say of a certificate. The CRLs, and the names and the keys of their
/// signers, are parts of the input.
#[unsafe(no_mangle)]
pub extern "C" fn x509_revocation_status(
    alloc: Global,
    certificate: &[u8],
    input: &[u8],
    crls: &[SignedCrlSpans],
    settings: &[u8],
    answer: &mut RevocationAnswer,
) -> i32
    ensures { Tells (λ status. TellsStatus (record {
      certificate = ⟦<CertificateInner<Rfc5280> as Grammar>⟧.refuses;
      crl = ⟦<CertificateList<Rfc5280> as Grammar>⟧.refuses;
      name = ⟦<Name as Grammar>⟧.refuses;
      key = ⟦<SubjectPublicKeyInfo as Grammar>⟧.refuses;
    })
        certificate.now input.now crls.now settings.now answer.old answer.new status) result }
{
    revocation_status(alloc, certificate, input, crls, settings, answer).code()
}

/// Says why the CRL at a place says nothing of a certificate.
#[unsafe(no_mangle)]
pub extern "C" fn x509_crl_fault(
    alloc: Global,
    certificate: &[u8],
    input: &[u8],
    crls: &[SignedCrlSpans],
    settings: &[u8],
    place: usize,
    fault: &mut u32,
) -> i32
    ensures { Tells (λ status. TellsFault (record {
      certificate = ⟦<CertificateInner<Rfc5280> as Grammar>⟧.refuses;
      crl = ⟦<CertificateList<Rfc5280> as Grammar>⟧.refuses;
      name = ⟦<Name as Grammar>⟧.refuses;
      key = ⟦<SubjectPublicKeyInfo as Grammar>⟧.refuses;
    })
        certificate.now input.now crls.now settings.now place fault.old fault.new status) result }
{
    crl_fault(alloc, certificate, input, crls, settings, place, fault).code()
}
