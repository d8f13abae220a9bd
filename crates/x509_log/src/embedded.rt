//! The SCTs within a certificate, and what they are signatures of.

ghost use Rattle.std.specs.Prelude.{◌≡◌, ◌⊎◌, IfOk, IfErr};
ghost use Rattle.x509_cert.specs.declared.certificate.certificate.CertificateInner as whole;
ghost use Rattle.x509_der.specs.Form.{Spells};
ghost use Rattle.x509_log.specs.Embedded.{AreTimestamps, IsSigned, IsUnsigned, LacksTimestamps};
ghost use Rattle.x509_log.specs.Errors.{IsMemory};
ghost use Rattle.x509_log.specs.Logged.{HasOne};
ghost use Rattle.x509_log.specs.declared.error.LogError.TheVariants.{Tls};
ghost use Rattle.x509_sct.specs.Identifier.{embedded_timestamps};
ghost use Rattle.x509_sct.specs.Lists.{ListFault};
ghost use Rattle.x509_sct.specs.Numbers.{uint16};
ghost use Rattle.x509_sct.specs.SignedInput.{certificate_of, entry_of};
ghost use Rattle.x509_sct.specs.TimestampList.{IsTimestampList, serialized as item};
ghost use Rattle.x509_sct.specs.declared.tls.error.TlsError.{TlsError as Fault};

use crate::error::LogError;
use crate::key_hash::issuer_key_hash;
use crate::part::LoggedPart;
use std::alloc::Global;
use x509_base::Profile;
use x509_cert::certificate::{CertificateInner, TbsCertificateInner};
use x509_check::CertificateRef;
use x509_der::{AssociatedOid, Decode, Grammar};
use x509_sct::{
    PreCert, SerializedSct, SignedCertificateTimestamp, SignedCertificateTimestampList, SignedEntry,
};

/// A timestamp, and the octets that its signature is over: what a caller hands to the verifier of its choice, with the log's key, by the
/// timestamp's log ID.
#[derive(Debug, Drop)]
pub struct SignedTimestamp {
    /// The timestamp: its log, its time, its algorithms and its signature.
    pub timestamp: SignedCertificateTimestamp,

    /// The octets that are signed (RFC 6962 3.2).
    pub octets: Vec<u8>,
}

/// The SCTs of a certificate, and the entry that a log has of its precertificate (RFC 6962 3.2, 3.3). The certificate is cut and its
/// issuer's key hashed once, for all SCTs.
#[derive(Debug)]
pub struct EmbeddedTimestamps {
    tbs_certificate: Vec<u8>,
    issuer_key_hash: [u8; 32],
    timestamps: Vec<SerializedSct>,
}

impl Drop for EmbeddedTimestamps {
    fn drop(self) {
        let EmbeddedTimestamps {
            tbs_certificate: _,
            issuer_key_hash: _,
            timestamps: _,
        } = self;
    }
}

/// The timestamps that the octets of the list are.
fn timestamps_of(
    alloc: Global,
    list: &SignedCertificateTimestampList,
) -> Result<Vec<SerializedSct>, LogError>
    ensures found { IfOk result (λ timestamps. IsTimestampList timestamps.items list.now.0) }
    ensures refused { IfErr result (λ e. IsMemory e ⊎ ((fault : Fault) × ListFault uint16 item list.now.0 fault × (e ≡ Tls fault))) }
{
    Ok(list.parse_timestamps(alloc)?)
}

/// The timestamps in the certificate's list.
fn embedded_in<P: Profile>(
    alloc: Global,
    certificate: &CertificateRef<'_, P>,
) -> Result<Vec<SerializedSct>, LogError>
    ensures found { IfOk result (λ timestamps. (value : whole.CertificateInner P) → Spells ⟦<CertificateInner<P> as Grammar>⟧.form value certificate.now.bytes.now
        → AreTimestamps value.tbs_certificate timestamps.items) }
    ensures refused { IfErr result (λ e. (value : whole.CertificateInner P) → Spells ⟦<CertificateInner<P> as Grammar>⟧.form value certificate.now.bytes.now
        → HasOne embedded_timestamps value.tbs_certificate → LacksTimestamps value.tbs_certificate e) }
{
    let extensions = certificate.extensions();
    match extensions.find_extension(SignedCertificateTimestampList::OID) {
        Ok(Some(extension)) => {
            let list = SignedCertificateTimestampList::from_der(alloc, extension.extn_value)?;
            let timestamps = timestamps_of(alloc, &list)?;
            Ok(timestamps)
        }
        Ok(None) => Err(LogError::Absent),
        Err(e) => Err(LogError::Der(e)),
    }
}

/// The timestamp of these bytes, and the octets that its signature of the entry is over.
fn signed_of(
    alloc: Global,
    serialized: &SerializedSct,
    entry: &SignedEntry<'_>,
) -> Result<SignedTimestamp, LogError>
    ensures found { IfOk result (λ signed. IsSigned (entry_of entry.now) serialized.now signed) }
    ensures refused { IfErr result (λ e. IsUnsigned (certificate_of entry.now) serialized.now e) }
{
    let timestamp = serialized.parse_timestamp(alloc)?;
    let octets = timestamp.signed_input(alloc, entry)?;
    Ok(SignedTimestamp { timestamp, octets })
}

impl EmbeddedTimestamps {
    ghost use Rattle.std.specs.Prelude.{◌≡◌, ◌≤◌, ◌⊎◌, length, slice_get, Some, IfOk, IfErr, MatchOption};
    ghost use Rattle.x509_log.specs.Embedded.{IsEmbedded, IsUnsigned, LacksTimestamps, entry_of_embedded};
    ghost use Rattle.x509_log.specs.Logged.{Refuses};
    ghost use Rattle.x509_sct.specs.Identifier.{embedded_timestamps};
    ghost use Rattle.x509_sct.specs.SignedInput.{certificate_of};
    ghost use Rattle.x509_sct.specs.declared.serialized.SerializedSct as serialized;

    /// The SCTs of a certificate, and the entry that they are of. Whether the issuer issued the certificate isn't looked at.
    ///
    /// # Errors
    ///
    /// `Absent` exactly where the certificate has no list of SCTs, `Repeated` exactly where it has two or more. `Malformed` of DER exactly
    /// where the extension doesn't hold an OCTET STRING, an error of TLS, the first from the left, exactly where that is no list. `Memory`
    /// when out of memory.
    pub fn from_certificate<P: Profile>(
        alloc: Global,
        certificate: &CertificateRef<'_, P>,
        issuer: &CertificateRef<'_, P>,
    ) -> Result<EmbeddedTimestamps, LogError>
        ensures found { IfOk result (λ embedded. (value above : whole.CertificateInner P)
            → Spells ⟦<CertificateInner<P> as Grammar>⟧.form value certificate.now.bytes.now
            → Spells ⟦<CertificateInner<P> as Grammar>⟧.form above issuer.now.bytes.now
            → IsEmbedded ⟦<TbsCertificateInner<P> as Grammar>⟧.form value.tbs_certificate above.tbs_certificate embedded) }
        ensures refused { IfErr result (λ e. (value : whole.CertificateInner P) → Spells ⟦<CertificateInner<P> as Grammar>⟧.form value certificate.now.bytes.now
            → Refuses embedded_timestamps value.tbs_certificate e ⊎ LacksTimestamps value.tbs_certificate e) }
    {
        let part = LoggedPart::from_certificate(certificate)?;
        let tbs_certificate = part.to_der(alloc)?;
        let timestamps = embedded_in(alloc, certificate)?;
        Ok(EmbeddedTimestamps {
            tbs_certificate,
            issuer_key_hash: issuer_key_hash(issuer),
            timestamps,
        })
    }

    /// The entry that a log has of the precertificate.
    pub fn entry(&self) -> SignedEntry<'_>
        ensures is { entry_of result ≡ entry_of_embedded self.now }
        ensures octets { certificate_of result ≡ self.now.tbs_certificate.items }
    {
        SignedEntry::Precert(PreCert {
            issuer_key_hash: self.issuer_key_hash,
            tbs_certificate: self.tbs_certificate.as_slice(),
        })
    }

    /// The SCTs, as the certificate has them.
    pub fn timestamps(&self) -> &[SerializedSct]
        ensures { result.now ≡ self.now.timestamps.items }
    {
        self.timestamps.as_slice()
    }

    /// The SCT at that place of the list, from 0 on, and the octets that its signature is over; `None` exactly where there are not so many.
    ///
    /// # Errors
    ///
    /// An error of TLS, the first from the left, exactly where the SCT is of no known version or algorithm, or its bytes are none of an SCT;
    /// else `InvalidVectorLength` exactly where the TBSCertificate has more than 16,777,215 octets. `Memory` when out of memory.
    pub fn signed(&self, alloc: Global, place: usize) -> Result<Option<SignedTimestamp>, LogError>
        ensures found { IfOk result (λ found. MatchOption found (length self.now.timestamps.items ≤ place)
            (λ signed. (sct : serialized.SerializedSct) × (slice_get self.now.timestamps.items place ≡ Some sct) × IsSigned (entry_of_embedded self.now) sct signed)) }
        ensures refused { IfErr result (λ e. (sct : serialized.SerializedSct) × (slice_get self.now.timestamps.items place ≡ Some sct)
            × IsUnsigned self.now.tbs_certificate.items sct e) }
    {
        match self.timestamps.get(place) {
            None => Ok(None),
            Some(serialized) => {
                let signed = signed_of(alloc, serialized, &self.entry())?;
                Ok(Some(signed))
            }
        }
    }
}
