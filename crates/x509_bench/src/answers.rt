//! What is taken into the digest of values of extensions.

use crate::digest::Digest;
use std::alloc::Global;
use x509_cert::certificate::TbsCertificate;
use x509_cert::ext::pkix::crl::dp::DistributionPoint;
use x509_cert::ext::pkix::name::{DistributionPointName, GeneralName};
use x509_cert::ext::pkix::{
    AuthorityInfoAccessSyntax, AuthorityKeyIdentifier, BasicConstraints, CertificatePolicies,
    CrlDistributionPoints, ExtendedKeyUsage, KeyUsage, SignedCertificateTimestampList,
    SubjectAltName, SubjectKeyIdentifier,
};
use x509_der::{AssociatedOid, Decode, Error};

/// A value of which a digest can take in what it holds.
pub(crate) trait Answer {
    /// Takes it in.
    fn answer(&self, alloc: Global, digest: &mut Digest);
}

impl Answer for KeyUsage {
    fn answer(&self, _alloc: Global, digest: &mut Digest) {
        digest.number(u64::from(self.digital_signature()));
        digest.number(u64::from(self.key_cert_sign()));
    }
}

impl Answer for ExtendedKeyUsage {
    fn answer(&self, _alloc: Global, digest: &mut Digest) {
        for purpose in self.0.iter() {
            digest.octets(purpose.as_bytes());
        }
    }
}

impl Answer for BasicConstraints {
    fn answer(&self, _alloc: Global, digest: &mut Digest) {
        digest.number(u64::from(self.ca));
        digest.number(
            self.path_len_constraint
                .map_or(256, |length| u64::from(length)),
        );
    }
}

/// Takes a general name in.
fn take_name(name: &GeneralName, digest: &mut Digest) {
    match name {
        GeneralName::DnsName(name) => digest.text(name.as_str()),
        GeneralName::UniformResourceIdentifier(uri) => digest.text(uri.as_str()),
        _ => digest.number(0),
    }
}

/// Takes general names in.
fn take_names(names: &[GeneralName], digest: &mut Digest) {
    for name in names {
        take_name(name, digest);
    }
}

impl Answer for SubjectAltName {
    fn answer(&self, _alloc: Global, digest: &mut Digest) {
        take_names(self.0.as_slice(), digest);
    }
}

impl Answer for AuthorityKeyIdentifier {
    fn answer(&self, _alloc: Global, digest: &mut Digest) {
        if let Some(identifier) = &self.key_identifier {
            digest.octets(identifier.as_bytes());
        }
    }
}

impl Answer for SubjectKeyIdentifier {
    fn answer(&self, _alloc: Global, digest: &mut Digest) {
        digest.octets(self.0.as_bytes());
    }
}

impl Answer for CertificatePolicies {
    fn answer(&self, _alloc: Global, digest: &mut Digest) {
        for policy in self.0.iter() {
            digest.octets(policy.policy_identifier.as_bytes());
        }
    }
}

impl Answer for AuthorityInfoAccessSyntax {
    fn answer(&self, _alloc: Global, digest: &mut Digest) {
        for access in self.0.iter() {
            digest.octets(access.access_method.as_bytes());
            take_name(&access.access_location, digest);
        }
    }
}

/// Takes a distribution point in.
fn take_point(point: &DistributionPoint, digest: &mut Digest) {
    if let Some(DistributionPointName::FullName(names)) = &point.distribution_point {
        take_names(names.as_slice(), digest);
    }
}

impl Answer for CrlDistributionPoints {
    fn answer(&self, _alloc: Global, digest: &mut Digest) {
        for point in self.0.iter() {
            take_point(point, digest);
        }
    }
}

impl Answer for SignedCertificateTimestampList {
    fn answer(&self, alloc: Global, digest: &mut Digest) {
        if let Ok(timestamps) = self.parse_timestamps(alloc) {
            for serialized in timestamps.iter() {
                if let Ok(timestamp) = serialized.parse_timestamp(alloc) {
                    digest.octets(timestamp.log_id.key_id.as_slice());
                    digest.number(timestamp.timestamp);
                }
            }
        }
    }
}

/// Takes in what is found of that extension.
fn take_found<T: Answer + Drop>(
    alloc: Global,
    found: Result<Option<(bool, T)>, Error>,
    digest: &mut Digest,
) {
    match found {
        Ok(Some((critical, value))) => {
            digest.number(if critical { 2 } else { 1 });
            value.answer(alloc, digest);
        }
        Ok(None) => digest.number(0),
        Err(e) => digest.number((e.kind() as u64).wrapping_add(16)),
    }
}

/// Looks that extension up.
fn look_up<T: Answer + AssociatedOid + Decode + Drop>(
    alloc: Global,
    part: &TbsCertificate,
    digest: &mut Digest,
) {
    take_found::<T>(alloc, part.get_extension::<T>(alloc), digest);
}

/// Looks up each of the usual extensions.
pub(crate) fn look_ups(alloc: Global, part: &TbsCertificate, digest: &mut Digest) {
    look_up::<KeyUsage>(alloc, part, digest);
    look_up::<ExtendedKeyUsage>(alloc, part, digest);
    look_up::<BasicConstraints>(alloc, part, digest);
    look_up::<SubjectAltName>(alloc, part, digest);
    look_up::<AuthorityKeyIdentifier>(alloc, part, digest);
    look_up::<SubjectKeyIdentifier>(alloc, part, digest);
    look_up::<CertificatePolicies>(alloc, part, digest);
    look_up::<AuthorityInfoAccessSyntax>(alloc, part, digest);
    look_up::<CrlDistributionPoints>(alloc, part, digest);
    look_up::<SignedCertificateTimestampList>(alloc, part, digest);
}
