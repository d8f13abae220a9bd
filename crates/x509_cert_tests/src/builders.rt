//! Builders, by each signer, and what they refuse.

use crate::calls::is_refused;
use crate::profiles::Bare;
use crate::signers::{ECHO, Echo};
use crate::source::Zeros;
use bitflags::Flags;
use std::test::*;
use std::time::Duration;
use x509_base::{SerialNumber, SubjectPublicKeyInfo, Validity};
use x509_build::profile::BuilderProfile;
use x509_build::profile::cabf::Root;
use x509_build::profile::cabf::tls::{CertificateType, Subscriber, Tls12Options};
use x509_build::profile::devid::{DevId, TpmVersion, tcgtpm};
use x509_build::request::RequestBuilder;
use x509_build::{Builder, CertificateBuilder, CrlBuilder, Error, KeyError, Result, SignError};
use x509_cert::certificate::Certificate;
use x509_cert::request::attributes::ChallengePassword;
use x509_der::{Decode, Encode};
use x509_ext::pkix::CrlNumber;
use x509_ext::pkix::crl::dp::Reasons;
use x509_name::name::{DirectoryString, Name};
use x509_prim::{OctetString, Utf8String};

/// From 2010-01-01T08:30:00Z to 2030-12-31T08:30:00Z.
const DATES: &[u8] = b"\x30\x1E\x17\x0D100101083000Z\x17\x0D301231083000Z";

/// The key `abc`.
const ABC_KEY: &[u8] = b"\x30\x0D\x30\x05\x06\x03\x2A\x03\x04\x03\x04\x00\x61\x62\x63";

/// A certificate with an empty subject, for an empty key.
const ISSUER: &[u8] = b"\x30\x46\x30\x3A\x02\x01\x01\x30\x05\x06\x03\x2A\x03\x04\x30\x00\
      \x30\x1E\x17\x0D100101083000Z\x17\x0D301231083000Z\x30\x00\x30\x0A\x30\x05\x06\x03\x2A\x03\x04\x03\x01\x00\
      \x30\x05\x06\x03\x2A\x03\x04\x03\x01\x00";

/// 9999-12-31T23:59:59Z, the last second that a GeneralizedTime can say, in seconds since 1970-01-01T00:00:00Z.
const LAST: u64 = 253_402_300_799;

/// The signer with that key.
const ABC: Echo = Echo::Signs;

/// A builder of the certificate with the number 42 for the key with these bytes.
pub(crate) fn builder<P: BuilderProfile>(
    rt: &HostRuntime,
    profile: P,
    key: &[u8],
) -> Result<CertificateBuilder<P>> {
    let alloc = rt.alloc();
    CertificateBuilder::new(
        alloc,
        profile,
        SerialNumber::from_u8(alloc, 42)?,
        Validity::from_der(alloc, DATES)?,
        SubjectPublicKeyInfo::from_der(alloc, key)?,
    )
}

/// A root's certificate.
fn root(rt: &HostRuntime) -> Result<Vec<u8>> {
    let alloc = rt.alloc();
    let profile = Root::new(true, Name::from_str(alloc, "CN=R,O=T,C=US")?)?;
    let certificate = builder(rt, profile, ABC_KEY)?.build(alloc, &ABC)?;
    Ok(certificate.to_der(alloc)?)
}

/// A builder of a certificate with one extension, by a profile that takes it or refuses.
fn certificate(rt: &HostRuntime, takes_extensions: bool) -> Result<CertificateBuilder<Bare>> {
    let mut made = builder(rt, Bare { takes_extensions }, ABC_KEY)?;
    made.add_extension(rt.alloc(), (ECHO, false, &Reasons::KEY_COMPROMISE))?;
    Ok(made)
}

/// A builder of the certificate of a server, with a kind that no profile has.
fn server(rt: &HostRuntime) -> Result<CertificateBuilder<Subscriber>> {
    let profile = Subscriber {
        certificate_type: CertificateType::ExtendedValidation,
        issuer: Name::new(rt.alloc()),
        client_auth: false,
        tls12_options: Tls12Options {
            enable_key_encipherment: false,
            enable_key_agreement: false,
        },
        enable_data_encipherment: false,
    };
    builder(rt, profile, ABC_KEY)
}

/// A device that is named by its module alone.
fn device(rt: &HostRuntime) -> Result<DevId> {
    let alloc = rt.alloc();
    let number = OctetString::new(alloc, &[1])?;
    let (issuer, subject) = (Name::new(alloc), Name::new(alloc));
    DevId::idevid_tpm(alloc, issuer, subject, TpmVersion::Other(ECHO), number)
}

/// Adds the password `pw`.
fn add_password(rt: &HostRuntime, builder: &mut RequestBuilder) -> Result<()> {
    let text = Utf8String::new(rt.alloc(), "pw")?;
    let password = ChallengePassword(DirectoryString::Utf8String(text));
    builder.add_attribute(rt.alloc(), &password)
}

/// A builder of a CSR with that password, which asks for an extension.
fn request(rt: &HostRuntime) -> Result<RequestBuilder> {
    let mut builder = RequestBuilder::new(rt.alloc(), Name::new(rt.alloc()))?;
    add_password(rt, &mut builder)?;
    builder.add_extension(rt.alloc(), (ECHO, false, &Reasons::KEY_COMPROMISE))?;
    Ok(builder)
}

/// A builder of the CRL with the number 42 of that second, with one more extension.
fn list(rt: &HostRuntime, second: u64) -> Result<CrlBuilder> {
    let alloc = rt.alloc();
    let issuer = Certificate::from_der(alloc, ISSUER)?;
    let number = CrlNumber::from_u8(alloc, 42)?;
    let mut builder: CrlBuilder = CrlBuilder::new(
        alloc,
        &issuer,
        number,
        Duration::from_secs(second),
    )?;
    builder.add_extension(alloc, (ECHO, false, &Reasons::KEY_COMPROMISE))?;
    Ok(builder)
}

/// Whether the builder builds with the signer, or is refused with this text.
fn is_built<T: Drop, B: Builder<Output = T>>(
    rt: &HostRuntime,
    builder: Result<B>,
    signer: &Echo,
    with_rng: bool,
    text: &str,
) -> bool {
    let Ok(builder) = builder else {
        return false;
    };
    let made = if with_rng {
        builder.build_with_rng(rt.alloc(), signer, &mut Zeros)
    } else {
        builder.build(rt.alloc(), signer)
    };
    is_refused(rt, made, text)
}

/// A CRL doesn't hold the signer's key, so the signer isn't asked for that.
#[test]
fn with_each_signer(rt: HostRuntime) {
    assert!(rt; is_refused(&rt, root(&rt), ""));
    let no_key = "public key error: Refused";
    let unsigned = "signature error: Refused";
    for (signer, with_rng, text, of_list) in [
        (Echo::Signs, false, "", ""),
        (Echo::Signs, true, "", ""),
        (Echo::RefusesAlgorithm, false, no_key, no_key),
        (Echo::RefusesKey, false, no_key, ""),
        (Echo::RefusesKey, true, no_key, ""),
        (Echo::RefusesMessage, false, unsigned, unsigned),
        (Echo::RefusesMessage, true, unsigned, unsigned),
    ] {
        assert!(rt; is_built(&rt, certificate(&rt, true), &signer, with_rng, text));
        assert!(rt; is_built(&rt, request(&rt), &signer, with_rng, text));
        assert!(rt; is_built(&rt, list(&rt, LAST), &signer, with_rng, of_list));
    }
}

/// A signer without memory; an extension that can't be made, since its payload has a bit without a name; an attribute twice; a CRL of the
/// year 10000; and certificates that their profiles refuse.
#[test]
fn refusals(rt: HostRuntime) -> std::result::Result<(), Fail> {
    let no_key: Result<()> = Err(Error::PublicKey(KeyError::Memory));
    assert!(rt; is_refused(&rt, no_key, "public key error: Memory"));
    let unsigned: Result<()> = Err(Error::Signature(SignError::Memory));
    assert!(rt; is_refused(&rt, unsigned, "signature error: Memory"));
    let unnamed = Reasons::from_bits_retain(512);
    let mut bare = certificate(&rt, true)?;
    let added = bare.add_extension(rt.alloc(), (ECHO, false, &unnamed));
    assert!(rt; is_refused(&rt, added, "ASN.1 error: Value"));
    let mut request = request(&rt)?;
    let added = request.add_extension(rt.alloc(), (ECHO, false, &unnamed));
    assert!(rt; is_refused(&rt, added, "ASN.1 error: Value"));
    let added = add_password(&rt, &mut request);
    assert!(rt; is_refused(&rt, added, "ASN.1 error: SetDuplicate"));
    assert!(rt; is_refused(&rt, list(&rt, LAST + 1), "ASN.1 error: Value"));
    assert!(rt; is_refused(&rt, server(&rt), "unsupported certificate kind"));
    let refused = certificate(&rt, false);
    assert!(rt; is_built(&rt, refused, &ABC, false, "ASN.1 error: Failed"));
    Ok(())
}

/// The identifiers of modules by their versions (Trusted Computing Group): 2.23.133.1.0 and 2.23.133.1.2.
#[test]
fn modules(rt: HostRuntime) {
    assert!(rt; is_refused(&rt, device(&rt), ""));
    assert!(rt; tcgtpm::TCG_SV_TPM_12.as_bytes() == b"\x67\x81\x05\x01\x00".as_slice());
    assert!(rt; tcgtpm::TCG_SV_TPM_20.as_bytes() == b"\x67\x81\x05\x01\x02".as_slice());
}
