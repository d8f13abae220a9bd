//! What a log signs.

ghost use Rattle.std.specs.Prelude.{◌≡◌, ◌⊎◌, ◌++◌, IfOk, IfErr, OnOk};
ghost use Rattle.x509_sct.specs.SignedInput.{certificate_of, entry_of, signed_entry, signed_input, signed_of};
ghost use Rattle.x509_sct.specs.declared.tls.error.TlsError.TheVariants.{InvalidVectorLength, Memory};
ghost use Rattle.x509_sct.specs.Form.{Spells};
ghost use Rattle.x509_sct.specs.Numbers.{vector24};

use crate::timestamp::SignedCertificateTimestamp;
use crate::tls::{NamedByte, Tls, TlsError, put_vector24, vector24_len};
use std::alloc::{AllocError, Global};

/// What a log signs (RFC 6962 section 3.2).
#[derive(Clone, Copy, Debug, PartialEq, Eq)]
pub enum SignatureType {
    /// A promise of a certificate's timestamp, 0.
    CertificateTimestamp,

    /// The hash of the log's tree, 1.
    TreeHash,
}

impl NamedByte for SignatureType {
    ghost use Rattle.x509_sct.specs.SignedInput as grammar;

    ghost byte_of = { grammar.signature_type_byte };

    ghost values = { grammar.signature_types };

    fn from_byte(byte: u8) -> Option<SignatureType> {
        match byte {
            0 => Some(SignatureType::CertificateTimestamp),
            1 => Some(SignatureType::TreeHash),
            _ => None,
        }
    }

    fn byte(&self) -> u8 {
        match self {
            SignatureType::CertificateTimestamp => 0,
            SignatureType::TreeHash => 1,
        }
    }

    ghost are_named = { grammar.signature_types_named };
}

/// A precertificate as a log signs it (RFC 6962 section 3.2): for which issuer, and what the certificate will say.
#[derive(Clone, Copy, Debug)]
pub struct PreCert<'a> {
    /// The SHA-256 digest of the public key, a SubjectPublicKeyInfo in DER, of the issuer of the certificate.
    pub issuer_key_hash: [u8; 32],

    /// The DER of the TBSCertificate, without the poison and without timestamps.
    pub tbs_certificate: &'a [u8],
}

/// What a timestamp is of (RFC 6962 section 3.2).
#[derive(Clone, Copy, Debug)]
pub enum SignedEntry<'a> {
    /// A certificate, by its DER: `x509_entry`, 0.
    X509(&'a [u8]),

    /// A precertificate: `precert_entry`, 1. The timestamps within a certificate are of its precertificate.
    Precert(PreCert<'a>),
}

impl SignedEntry<'_> {
    /// The DER of the certificate, or of the precertificate's TBSCertificate.
    pub fn as_bytes(&self) -> &[u8]
        ensures { result.now ≡ certificate_of self.now }
    {
        match self {
            SignedEntry::X509(certificate) => certificate,
            SignedEntry::Precert(pre_cert) => pre_cert.tbs_certificate,
        }
    }

    /// Puts the type of the entry, and the entry, behind what stands.
    fn put(&self, out: &mut Vec<u8>) -> Result<(), AllocError>
        requires { vector24.good (certificate_of self.now) }
        ensures good { OnOk result (signed_entry.good (entry_of self.now)) }
        ensures bytes { OnOk result (out.new.items ≡ out.old.items ++ signed_entry.bytes (entry_of self.now)) }
    {
        match self {
            SignedEntry::X509(certificate) => {
                0u16.put(out)?;
                put_vector24(certificate, out)
            }
            SignedEntry::Precert(pre_cert) => {
                1u16.put(out)?;
                pre_cert.issuer_key_hash.put(out)?;
                put_vector24(pre_cert.tbs_certificate, out)
            }
        }
    }
}

impl SignedCertificateTimestamp {
    /// The bytes that the log's signature of that entry is over (RFC 6962 section 3.2): version, type of signature, time,
    /// entry and extensions.
    ///
    /// # Errors
    ///
    /// `InvalidVectorLength` exactly where the certificate, or the precertificate's TBSCertificate, has no bytes or more
    /// than 16,777,215. Else memory may be refused.
    #[tactic(auto, unfolding(crate::specs::SignedInput::signed_input))]
    pub fn signed_input(&self, alloc: Global, entry: &SignedEntry<'_>) -> Result<Vec<u8>, TlsError>
        ensures ok { IfOk result (λ bytes. Spells signed_input (signed_of self.now entry.now) bytes.items) }
        ensures err { IfErr result (λ e. ((e ≡ InvalidVectorLength) × (vector24.good (certificate_of entry.now) → ⊥))
            ⊎ ((e ≡ Memory) × vector24.good (certificate_of entry.now))) }
    {
        let len = vector24_len(entry.as_bytes())?;
        // Beside the certificate and the extensions there are 12 bytes, and 32 of a hash.
        let mut out = Vec::with_capacity(alloc, 44 + len + self.extensions.tls_len())?;
        self.version.put(&mut out)?;
        SignatureType::CertificateTimestamp.put(&mut out)?;
        self.timestamp.put(&mut out)?;
        entry.put(&mut out)?;
        self.extensions.put(&mut out)?;
        Ok(out)
    }
}
