//! An authority at work: CSRs come in, certificates and CRLs go out, over a signer that costs nothing.

use crate::digest::Report;
use crate::objects::{authority_shape, certificate, requests};
use crate::revoked::revoked;
use crate::signers::Still;
use crate::template::{Filler, Kind, Template};
use crate::texts::{fill_any, text};
use crate::writer::Writer;
use std::alloc::Global;
use x509_base::{DateTime, SerialNumber, SubjectPublicKeyInfo, Time, UtcTime, Validity};
use x509_build::profile::BuilderProfile;
use x509_build::profile::cabf::Root;
use x509_build::profile::cabf::tls::{CertificateType, Subordinate, Subscriber, Tls12Options};
use x509_build::request::RequestBuilder;
use x509_build::{Builder, CertificateBuilder, CrlBuilder, Result};
use x509_cert::Certificate;
use x509_cert::crl::RevokedCert;
use x509_cert::ext::pkix::name::GeneralNames;
use x509_cert::ext::pkix::{CrlNumber, SubjectAltName};
use x509_cert::request::CertReq;
use x509_der::{Decode, Encode, Error, TryClone};
use x509_name::name::Name;

/// How many entries a CRL has.
const ENTRIES: usize = 4_000;

/// Octets that vary.
fn octets(alloc: Global, kind: Kind, len: usize) -> std::result::Result<Template, Error> {
    let mut w = Writer::new(alloc);
    w.hole(kind, len)?;
    Ok(w.finish())
}

/// What the authority has.
#[derive(Drop)]
struct Office {
    name: Name,
    certificate: Certificate,
    key: Vec<u8>,
    serials: Template,
    signatures: Template,
    roots: Template,
    requests: Vec<Template>,
}

/// The authority.
fn authority(alloc: Global, filler: &mut Filler) -> std::result::Result<Office, Error> {
    let mut shape = authority_shape(1);
    shape.rdns = 3;
    let bytes = certificate(alloc, shape)?.object(alloc, filler)?;
    let certificate = Certificate::from_der(alloc, bytes.as_slice())?;
    Ok(Office {
        name: certificate.tbs_certificate().subject().try_clone(alloc)?,
        certificate,
        key: octets(alloc, Kind::Octets, 65)?.object(alloc, filler)?,
        serials: octets(alloc, Kind::Serial, 16)?,
        signatures: octets(alloc, Kind::Octets, 71)?,
        roots: text(alloc, "CN=******** Root R%%%,O=************,C=US")?,
        requests: requests(alloc, 24)?,
    })
}

/// What a certificate is made with besides its profile.
#[derive(Drop)]
struct Facts {
    serial: SerialNumber,
    validity: Validity,
}

/// A moment of that year and month.
fn moment(year: u16, month: u8, filler: &mut Filler) -> std::result::Result<Time, Error> {
    let random = filler.random.next().to_le_bytes();
    let date = DateTime::new(
        year,
        month,
        1 + random[0] % 28,
        random[1] % 24,
        random[2] % 60,
        random[3] % 60,
    )?;
    Ok(Time::UtcTime(UtcTime::from_date_time(date)?))
}

/// The next serial number and validity.
fn next_facts(
    alloc: Global,
    authority: &Office,
    buffer: &mut Vec<u8>,
    filler: &mut Filler,
) -> std::result::Result<Facts, Error> {
    authority.serials.fill(filler, buffer)?;
    Ok(Facts {
        serial: SerialNumber::new(alloc, buffer.as_slice())?,
        validity: Validity::new(moment(2024, 5, filler)?, moment(2025, 6, filler)?),
    })
}

/// The builder of a certificate.
fn builder<P: BuilderProfile>(
    alloc: Global,
    profile: P,
    facts: Facts,
    key: &SubjectPublicKeyInfo,
) -> Result<CertificateBuilder<P>> {
    let key = key.try_clone(alloc)?;
    let Facts { serial, validity } = facts;
    CertificateBuilder::new(alloc, profile, serial, validity, key)
}

/// The encoding of what the builder makes.
fn built<T: Encode + Drop, B: Builder<Output = T>>(
    alloc: Global,
    builder: B,
    signer: &Still<'_>,
) -> Result<Vec<u8>> {
    let made = builder.build(alloc, signer)?;
    Ok(made.to_der(alloc)?)
}

/// The profile of a server that asks for a certificate.
fn server(
    alloc: Global,
    request: &CertReq,
    issuer: &Name,
    client_auth: bool,
) -> Result<Subscriber> {
    let subject = request.info.subject.try_clone(alloc)?;
    Ok(Subscriber {
        certificate_type: CertificateType::domain_validated(
            alloc,
            subject,
            GeneralNames::new(alloc),
        )?,
        issuer: issuer.try_clone(alloc)?,
        client_auth,
        tls12_options: Tls12Options {
            enable_key_encipherment: true,
            enable_key_agreement: client_auth,
        },
        enable_data_encipherment: false,
    })
}

/// The profile of a subordinate authority that asks for a certificate.
fn subordinate_profile(alloc: Global, request: &CertReq, issuer: &Name) -> Result<Subordinate> {
    Ok(Subordinate {
        issuer: issuer.try_clone(alloc)?,
        subject: request.info.subject.try_clone(alloc)?,
        path_len_constraint: Some(0),
        emits_ocsp_response: true,
        client_auth: true,
    })
}

/// The SAN that is asked for.
fn asked(alloc: Global, request: &CertReq) -> Option<SubjectAltName> {
    match request.extension_req(alloc) {
        Ok(Some(asked)) => match asked.get_extension::<SubjectAltName>(alloc) {
            Ok(Some((_, names))) => Some(names),
            _ => None,
        },
        _ => None,
    }
}

/// The certificate of a server.
fn certify_server(
    alloc: Global,
    profile: Subscriber,
    facts: Facts,
    request: &CertReq,
    signer: &Still<'_>,
) -> Result<Vec<u8>> {
    let mut builder = builder(alloc, profile, facts, &request.info.public_key)?;
    if let Some(names) = asked(alloc, request) {
        builder.add_extension(alloc, &names)?;
    }
    built(alloc, builder, signer)
}

/// The certificate of another authority.
fn certify_authority<P: BuilderProfile>(
    alloc: Global,
    profile: P,
    facts: Facts,
    request: &CertReq,
    signer: &Still<'_>,
) -> Result<Vec<u8>> {
    let builder = builder(alloc, profile, facts, &request.info.public_key)?;
    built(alloc, builder, signer)
}

/// The profile of a root with the name of the text.
fn root_profile(alloc: Global, bytes: &[u8]) -> Result<Root> {
    match std::str::from_utf8(bytes) {
        Ok(text) => Root::new(true, Name::from_str(alloc, text)?),
        Err(_) => Root::new(true, Name::new(alloc)),
    }
}

/// A CSR for the same subject and SAN.
fn ask(alloc: Global, request: &CertReq, signer: &Still<'_>) -> Result<Vec<u8>> {
    let mut builder = RequestBuilder::new(alloc, request.info.subject.try_clone(alloc)?)?;
    if let Some(names) = asked(alloc, request) {
        builder.add_extension(alloc, &names)?;
    }
    built(alloc, builder, signer)
}

/// Takes what was built in, and counts it.
fn take(made: Result<Vec<u8>>, report: &mut Report) {
    match made {
        Ok(bytes) => {
            report.digest.octets(bytes.as_slice());
            report.count(true);
        }
        Err(_) => report.count(false),
    }
}

/// What is asked of the authority.
#[derive(Clone, Copy)]
enum Task {
    Server,
    Subordinate,
    Root,
    Request,
}

/// The task of a number.
fn task_of(number: usize) -> Task {
    match number % 16 {
        6 => Task::Subordinate,
        7 => Task::Request,
        14 => Task::Root,
        15 => Task::Request,
        _ => Task::Server,
    }
}

/// Whether the key may be that of a client too.
fn is_client(bits: &[u8]) -> bool {
    match bits.first() {
        Some(octet) => *octet < 128,
        None => false,
    }
}

/// Does a task for a CSR.
fn serve(
    alloc: Global,
    authority: &Office,
    request: &CertReq,
    task: Task,
    facts: Facts,
    bits: &[u8],
    text: &[u8],
) -> Result<Vec<u8>> {
    let signer = Still {
        bits,
        key: authority.key.as_slice(),
    };
    match task {
        Task::Server => {
            let profile = server(alloc, request, &authority.name, is_client(bits))?;
            certify_server(alloc, profile, facts, request, &signer)
        }
        Task::Subordinate => {
            let profile = subordinate_profile(alloc, request, &authority.name)?;
            certify_authority(alloc, profile, facts, request, &signer)
        }
        Task::Root => {
            let profile = root_profile(alloc, text)?;
            certify_authority(alloc, profile, facts, request, &signer)
        }
        Task::Request => ask(alloc, request, &signer),
    }
}

/// The buffers of a run.
#[derive(Drop)]
struct Buffers {
    request: Vec<u8>,
    serial: Vec<u8>,
    bits: Vec<u8>,
    text: Vec<u8>,
}

/// Decodes the next CSR and does a task for it.
fn step(
    alloc: Global,
    authority: &Office,
    task: Task,
    buffers: &mut Buffers,
    filler: &mut Filler,
    report: &mut Report,
) -> std::result::Result<(), Error> {
    fill_any(authority.requests.as_slice(), filler, &mut buffers.request)?;
    authority.signatures.fill(filler, &mut buffers.bits)?;
    if let Task::Root = task {
        authority.roots.fill(filler, &mut buffers.text)?;
    }
    let facts = next_facts(alloc, authority, &mut buffers.serial, filler)?;
    let request = CertReq::from_der(alloc, buffers.request.as_slice())?;
    let bits = buffers.bits.as_slice();
    let text = buffers.text.as_slice();
    take(
        serve(alloc, authority, &request, task, facts, bits, text),
        report,
    );
    Ok(())
}

/// The builder of a CRL with that number and these entries.
fn list_builder(
    alloc: Global,
    issuer: &Certificate,
    number: usize,
    now: Time,
    entries: Vec<RevokedCert>,
) -> Result<CrlBuilder> {
    let number = CrlNumber::from_u64(alloc, number as u64)?;
    let builder = CrlBuilder::new_with_this_update(alloc, issuer, number, now)?;
    builder.with_certificates(alloc, entries.into_iter())
}

/// Builds a CRL.
fn build_list(
    alloc: Global,
    authority: &Office,
    number: usize,
    bits: &[u8],
    filler: &mut Filler,
) -> Result<Vec<u8>> {
    let now = moment(2024, 8, filler)?;
    let entries = revoked(alloc, &authority.serials, ENTRIES, filler)?;
    let builder = list_builder(alloc, &authority.certificate, number, now, entries)?;
    let signer = Still {
        bits,
        key: authority.key.as_slice(),
    };
    built(alloc, builder, &signer)
}

/// Serves so many CSRs, and issues a CRL after each 2,000.
pub(crate) fn run(alloc: Global, count: usize, seed: u64) -> std::result::Result<Report, Error> {
    let mut filler = Filler::new(seed);
    let authority = authority(alloc, &mut filler)?;
    let mut report = Report::new();
    let mut buffers = Buffers {
        request: Vec::new(alloc),
        serial: Vec::new(alloc),
        bits: Vec::new(alloc),
        text: Vec::new(alloc),
    };
    for number in 0..count {
        step(
            alloc,
            &authority,
            task_of(number),
            &mut buffers,
            &mut filler,
            &mut report,
        )?;
        if number % 2_000 == 10 {
            let bits = buffers.bits.as_slice();
            take(
                build_list(alloc, &authority, number, bits, &mut filler),
                &mut report,
            );
        }
    }
    Ok(report)
}
