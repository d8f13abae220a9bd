//! What a log gives beside an entry: chains of certificates.

ghost use Rattle.std.specs.Prelude.{◌≡◌, ◌<◌, ◌≤◌, ◌++◌, length, IfOk, IfErr, OnOk};
ghost use Rattle.x509_sct.specs.Items.{AreGood, items_reading, joined};
ghost use Rattle.x509_sct.specs.Numbers.{vector24};
ghost use Rattle.x509_sct.specs.Outcome.{GivesBy};
ghost use Rattle.x509_sct.specs.declared.tls.error.TlsError.TheVariants.{InvalidVectorLength};

use crate::vector::{TlsByteVecU24, take_counted};
use std::alloc::{AllocError, Global};
use std::marker::Model;
use x509_sct::tls::{Tls, TlsError, TlsItem};

/// The most bytes that the certificates of a chain have, with their lengths.
const MOST: usize = 16_777_215;

/// A chain of certificates, `ASN.1Cert<0..2^24-1>` (RFC 6962 section 3.1), each by its DER: of an X.509 entry its `extra_data` (section 4.6).
/// Contracts see the list of the certificates' octets.
#[derive(Drop)]
pub struct CertificateChain {
    certificates: Vec<TlsByteVecU24>,
}

impl Model for CertificateChain {
    ghost use Rattle.std.specs.Prelude.{List, ℕ, ◌≤◌, length};
    ghost use Rattle.x509_sct.specs.Items.{joined};
    ghost use Rattle.x509_sct.specs.Numbers.{vector24};

    ghost Value = { List (List ℕ) };

    ghost view = { λ chain. chain.certificates.items };

    ghost invariant = { λ chain. length (joined vector24 chain.certificates.items) ≤ 16777215 };
}

/// How many bytes the certificates have, with their lengths; `InvalidVectorLength` exactly where they are more than 16,777,215.
fn certificates_len(certificates: &[TlsByteVecU24]) -> Result<usize, TlsError>
    ensures ok { IfOk result (λ len. (len ≡ length (joined vector24 certificates.now)) × (len ≤ 16777215)) }
    ensures err { IfErr result (λ e. (e ≡ InvalidVectorLength) × (16777215 < length (joined vector24 certificates.now))) }
{
    let mut total = 0;
    for certificate in certificates {
        let len = certificate.tls_len();
        if len > MOST - total {
            return Err(TlsError::InvalidVectorLength);
        }
        total += len;
    }
    Ok(total)
}

impl CertificateChain {
    /// The chain of these certificates, without a copy.
    ///
    /// # Errors
    ///
    /// `InvalidVectorLength` exactly where they have, with their lengths, more than 16,777,215 bytes.
    pub fn new(certificates: Vec<TlsByteVecU24>) -> Result<CertificateChain, TlsError>
        ensures ok { IfOk result (λ chain. (chain ≡ certificates.items) × (length (joined vector24 certificates.items) ≤ 16777215)) }
        ensures err { IfErr result (λ e. (e ≡ InvalidVectorLength) × (16777215 < length (joined vector24 certificates.items))) }
    {
        certificates_len(certificates.as_slice())?;
        Ok(CertificateChain { certificates })
    }

    /// How many bytes the certificates have, with their lengths.
    fn octets_len(&self) -> usize
        ensures exact { result ≡ length (joined vector24 self.now) }
        ensures short { result ≤ 16777215 }
    {
        let Ok(len) = certificates_len(self.certificates.as_slice()) else {
            unreachable!()
        };
        len
    }

    /// The certificates, the issuer of the entry first.
    pub fn certificates(&self) -> &[TlsByteVecU24]
        ensures { result.now ≡ self.now }
    {
        self.certificates.as_slice()
    }
}

/// The items whose bytes these are, one after the other.
fn take_items<T: TlsItem + Drop>(alloc: Global, bytes: &[u8]) -> Result<Vec<T>, TlsError>
    ensures { GivesBy (λ v. v.items) result (items_reading T.form.reading bytes.now) }
{
    let mut items = Vec::new(alloc);
    let mut rest = bytes;
    while !rest.is_empty() {
        let (item, after) = T::take(alloc, rest)?;
        items.push(item)?;
        rest = after;
    }
    Ok(items)
}

/// Puts the items behind what stands, one after the other.
fn put_items<T: Tls>(items: &[T], out: &mut Vec<u8>) -> Result<(), AllocError>
    ensures good { OnOk result (AreGood T.form items.now) }
    ensures bytes { OnOk result (out.new.items ≡ out.old.items ++ joined T.form items.now) }
{
    for item in items {
        item.put(out)?;
    }
    Ok(())
}

#[tactic(auto, unfolding(crate::specs::Listed::listed_at))]
impl Tls for CertificateChain {
    ghost use Rattle.std.specs.Prelude.{◌≡◌, ◌≤◌, length};
    ghost use Rattle.x509_log.specs.Entries as grammar;

    ghost form = { grammar.certificate_chain };

    fn take(alloc: Global, bytes: &[u8]) -> Result<(CertificateChain, &[u8]), TlsError> {
        let (octets, rest) = take_counted(bytes)?;
        let certificates = take_items::<TlsByteVecU24>(alloc, octets)?;
        Ok((CertificateChain { certificates }, rest))
    }

    fn tls_len(&self) -> usize
        ensures exact { result ≡ length (grammar.certificate_chain.bytes self.now) }
        ensures short { result ≤ 16777218 }
    {
        3 + self.octets_len()
    }

    fn put(&self, out: &mut Vec<u8>) -> Result<(), AllocError> {
        let [_, a, b, c] = (self.octets_len() as u32).to_be_bytes();
        out.extend_from_slice(&[a, b, c])?;
        put_items(self.certificates.as_slice(), out)
    }

    ghost lawful = { grammar.certificate_chain_lawful };
}

/// What a log gives beside a precertificate's entry, its `extra_data` (RFC 6962 sections 3.1, 4.6).
#[derive(Drop)]
pub struct PrecertChainEntry {
    /// The precertificate that was submitted.
    pub pre_certificate: TlsByteVecU24,

    /// Its chain: the issuer of the precertificate first.
    pub precertificate_chain: CertificateChain,
}

#[tactic(auto, unfolding(x509_sct::specs::FieldReading::struct_at))]
impl Tls for PrecertChainEntry {
    ghost use Rattle.x509_log.specs.Entries as grammar;

    ghost form = { grammar.precert_chain_entry };

    fn take(alloc: Global, bytes: &[u8]) -> Result<(PrecertChainEntry, &[u8]), TlsError> {
        let (pre_certificate, rest) = TlsByteVecU24::take(alloc, bytes)?;
        let (precertificate_chain, rest) = CertificateChain::take(alloc, rest)?;
        let entry = PrecertChainEntry {
            pre_certificate,
            precertificate_chain,
        };
        Ok((entry, rest))
    }

    fn tls_len(&self) -> usize {
        self.pre_certificate.tls_len() + self.precertificate_chain.tls_len()
    }

    fn put(&self, out: &mut Vec<u8>) -> Result<(), AllocError> {
        self.pre_certificate.put(out)?;
        self.precertificate_chain.put(out)
    }

    ghost lawful = { grammar.precert_chain_entry_lawful };
}
