//! The status of a certificate.

ghost use Rattle.std.specs.Prelude.{◌≡◌, [], List, IfOk, IsOk, MatchResult};
ghost use Rattle.x509_der.specs.declared.error.ErrorKind.TheVariants as errors;
ghost use Rattle.x509_path.specs.Certificates.{Certificate};
ghost use Rattle.x509_path.specs.Lent.{Lends};
ghost use Rattle.x509_revocation.specs.Lent.{LendsAll, question};
ghost use Rattle.x509_revocation.specs.Points.{HasPoints};
ghost use Rattle.x509_revocation.specs.Says.{GivenCrl};
ghost use Rattle.x509_revocation.specs.Status.{Answers, last_status};

use crate::points::points_of;
use crate::reasons::{all_reasons, are_none};
use crate::settings::RevocationSettings;
use crate::signed_crl::SignedCrl;
use crate::status::RevocationStatus;
use crate::steps::{Asked, Step};
use bitflags::Flags;
use std::alloc::{AllocError, Global};
use x509_check::CertificateRef;
use x509_der::Error;
use x509_ext::pkix::crl::dp::ReasonFlags;
use x509_path::SliceVerifier;

/// The status where no CRL is left.
fn last_status(left: ReasonFlags) -> RevocationStatus
    ensures { result ≡ last_status left }
{
    if left.bits() == 0 {
        RevocationStatus::Unrevoked
    } else {
        RevocationStatus::Undetermined { reasons: left }
    }
}

/// The status by the CRLs, asked in their order.
fn ask_all<V: SliceVerifier>(
    asked: &Asked<'_, '_, '_, '_, V>,
) -> Result<RevocationStatus, AllocError>
    ensures { IfOk result (λ status. (c : Certificate) (given : List GivenCrl) → Lends asked.now.certificate.now.bytes.now c
        → HasPoints c asked.now.points.now → LendsAll asked.now.crls.now given
        → Answers (question (V.accepts asked.now.verifier.now) asked.now.settings.now c) given status) }
{
    let mut left = all_reasons();
    let crls = asked.crls;
    for (place, given) in crls.iter().enumerate() {
        if are_none(left) {
            return Ok(RevocationStatus::Unrevoked);
        }
        match asked.steps_a_to_l(left, place, given)? {
            Step::Left(rest) => left = rest,
            Step::Revoked(revocation) => {
                return Ok(RevocationStatus::Revoked {
                    crl: revocation.crl,
                    date: revocation.date,
                    reason: revocation.reason,
                });
            }
        }
    }
    Ok(last_status(left))
}

/// Whether the CRLs say that the certificate is revoked at the time (RFC 5280 6.3.3). They are asked in their order, up to
/// the first that revokes it, or until no reason is left. One that covers no reason that those before it left isn't used
/// (6.3.3 (e)). Of several for one scope the newest counts, wherever it stands (6.3.3 (a)). Each is verified over its own
/// bytes, and its entries are gone over once; those of a delta CRL once for each complete CRL that it fits, and those of a
/// complete one once for each older one for its scope.
///
/// A CRL is used where all of this holds, by the letters of 6.3.3, and says nothing where it doesn't:
///
/// - (a) It is in date, and has one algorithm in its signed part and outside. It has no critical extension but an
///   [`IssuingDistributionPoint`](x509_ext::pkix::IssuingDistributionPoint) that can be decoded, and no delta CRL indicator.
/// - (f), (g) The signer's name and key are the encodings of a name and of a key, and the name is its issuer; names match as
///   [`names_match`] says. The verifier accepts its signature for the signer's key.
/// - (b) (1), (b) (2) (i) It is that of a distribution point of the certificate, or its issuer is that of the certificate and
///   it is under no name, or under that of this issuer. It is that of a point where its issuer is in the point's cRLIssuer (and
///   it is an indirect CRL, or the issuer is that of the certificate), or where there is none is that of the certificate; and
///   where it is under a name, one of its names matches one of the point's. Directory names match as said, other names where
///   they are equal.
/// - (b) (2) (ii) to (iv) It has no IssuingDistributionPoint, or one that can be decoded, in whose scope the certificate is.
/// - (a) None of the others takes its place: one that could be used, under the same key, of the same issuer and with the same
///   IssuingDistributionPoint, or none, that is newer. Newer is the one with the higher CRL number; where both have the same, or
///   none, the one with the later this update; and a CRL with a number than one without (5.2.3).
/// - Each critical extension of its entries is a [`CrlReason`](x509_ext::pkix::CrlReason) or a
///   [`CertificateIssuer`](x509_ext::pkix::CertificateIssuer) that can be decoded. A CertificateIssuer stands in entries of an
///   indirect CRL alone, no entry has two, and each can be decoded and has a directory name.
///
/// The entry of the certificate (i), (j) is the first with its serial number that is one of its issuer. The CertificateIssuer
/// of an entry is in force for it and those behind it up to the next, and before the first one the issuer of the CRL (5.3.3);
/// the certificate's issuer is that of an entry where it matches that name, or one of the directory names in force.
///
/// Where the settings say so, a complete CRL is used with a delta CRL to it: the entry is looked for in that one, and only
/// where it isn't there in the complete one. The reason removeFromCRL says that the certificate isn't revoked (k). The newest
/// of all given CRLs counts that is a delta CRL to the complete one, wherever it stands, and of several as new the first:
///
/// - (a) It is in date, has one algorithm, and has no critical extension but an IssuingDistributionPoint and a
///   [`BaseCrlNumber`](x509_ext::pkix::BaseCrlNumber) that can be decoded.
/// - (c) Both have one issuer. Both have the same IssuingDistributionPoint, or none, and the same
///   [`AuthorityKeyIdentifier`](x509_ext::pkix::AuthorityKeyIdentifier), or none (5.2.4).
/// - The number of the complete CRL is that of the base or a later one, and before that of the delta CRL (5.2.4).
/// - (h) The verifier accepts its signature for the key of the complete CRL's signer; its own signer isn't asked.
/// - Its entries can be used, as said of a complete one's.
///
/// Memory is taken only where there is a CRL: for the distribution points of the certificate and the names of a CRL's, for a CRL
/// number of more than 24 octets, and where names that differ have a BMPString, a UTF8String beyond ASCII, or an RDN of more
/// than 16 attributes.
///
/// [`names_match`]: x509_match::names_match
///
/// # Errors
///
/// `Memory` when out of memory, and nothing else; nothing where there is no CRL.
pub fn revocation_status<V: SliceVerifier>(
    alloc: Global,
    certificate: &CertificateRef<'_>,
    crls: &[SignedCrl<'_, '_>],
    settings: &RevocationSettings,
    verifier: &V,
) -> Result<RevocationStatus, Error>
    ensures answers { (c : Certificate) (given : List GivenCrl) → Lends certificate.now.bytes.now c → LendsAll crls.now given
        → MatchResult result (Answers (question (V.accepts verifier.now) settings.now c) given) (λ e. e.kind ≡ errors.Memory) }
    ensures memory { crls.now ≡ [] → IsOk result }
{
    if crls.is_empty() {
        return Ok(last_status(all_reasons()));
    }
    let points = points_of(alloc, certificate)?;
    let asked = Asked {
        alloc,
        certificate,
        points: points.as_slice(),
        settings,
        verifier,
        crls,
    };
    let status = ask_all(&asked)?;
    Ok(status)
}
