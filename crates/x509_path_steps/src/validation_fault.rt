//! Why a path isn't valid.

ghost use Rattle.std.specs.Prelude.{Some};
ghost use Rattle.x509_path_steps.specs.ValidationFault.{fault_text, reason_text};

use std::alloc::AllocError;
use std::error::Error;
use std::fmt;

/// What is wrong with a certificate of a path, in the order of the checks. It is printed as the variant's name.
#[derive(Clone, Copy, Debug, PartialEq, Eq)]
pub enum ValidationReason {
    /// The bytes are not the encoding of a certificate.
    Decode,

    /// The algorithm in the signed part isn't the one outside it (RFC 5280 4.1.1.2).
    Algorithm,

    /// The issuer doesn't match the subject of the certificate above, or, for the first, the name that is trusted (RFC
    /// 5280 6.1.3 (a) (4), 7.1).
    Issuer,

    /// The time is before the first or after the last second of the validity (RFC 5280 6.1.3 (a) (2)).
    Moment,

    /// The verifier doesn't accept the signature of the signed part, as it stands in the input, for the key above
    /// (RFC 5280 6.1.3 (a) (1)).
    Signature,

    /// There are extensions, and the version isn't 3 (RFC 5280 4.1.2.9).
    Version,

    /// Two extensions have one OID (RFC 5280 4.2).
    Repeated,

    /// A BasicConstraints, KeyUsage, ExtendedKeyUsage, SAN, NameConstraints, CertificatePolicies, PolicyMappings,
    /// PolicyConstraints or InhibitAnyPolicy can't be decoded, whether it is critical or not.
    Extension,

    /// A critical extension is of none of those types, or is an ExtendedKeyUsage, and no purpose is asked for (RFC 5280
    /// 6.1.4 (o), 6.1.5 (f)).
    Critical,

    /// There is no BasicConstraints that can be decoded and has cA set, or the version isn't 3 (RFC 5280 6.1.4 (k)); one of
    /// version 1 is an authority where the caller allows these. It is asked of all certificates but the last.
    NotCa,

    /// There is a KeyUsage, and it can't be decoded, or hasn't keyCertSign (RFC 5280 6.1.4 (n)). It is asked of all
    /// certificates but the last.
    KeyUsage,

    /// More certificates that aren't self-issued follow one of those above, or what is trusted, than its path length
    /// constraint allows (RFC 5280 6.1.4 (l), (m)). It is asked of all certificates but the last.
    PathLen,

    /// There is a KeyUsage without all bits that are asked for (RFC 5280 4.2.1.3). It is asked of the last certificate.
    Usage,

    /// Each purpose that is asked for is one that this certificate doesn't allow, or one above: an ExtendedKeyUsage is there,
    /// and has neither it nor anyExtendedKeyUsage (RFC 5280 4.2.1.12). It is asked of the last certificate, and where purposes
    /// are chained of all.
    Purpose,

    /// A name isn't within what the name constraints above permit, or is within what they exclude (RFC 5280 6.1.3 (b),
    /// (c)), or they have a subtree of its form with a minimum other than 0, a maximum, or a base that is none. It is asked
    /// of the last certificate and of those that aren't self-issued.
    Names,

    /// There is a NameConstraints that can't be used (RFC 5280 4.2.1.10): a list of its subtrees is there and empty. It is
    /// asked of all certificates but the last.
    Constraints,

    /// A policy is twice in the CertificatePolicies (RFC 5280 4.2.1.4).
    RepeatedPolicy,

    /// No acceptable policy is left, and one is asked for (RFC 5280 6.1.3 (f), 6.1.5 (g)).
    Policy,

    /// A PolicyMappings maps any-policy, or another policy to it (RFC 5280 6.1.4 (a)). It is asked of all certificates but
    /// the last.
    PolicyMapping,
}

/// Why a path isn't valid. It is printed as the variant's name, and a fault as its place and its reason, as `1 PathLen`.
#[derive(Clone, Copy, Debug, PartialEq, Eq)]
pub enum ValidationFault {
    /// Out of memory.
    Memory,

    /// The path is empty.
    Empty,

    /// The path isn't empty, and what it is validated by can't be read or used: the name or the public key that is trusted
    /// isn't the encoding of one; name constraints, of what is trusted or of the settings, aren't the encoding of a
    /// NameConstraints, or can't be used (RFC 5280 4.2.1.10); the policies of what is trusted aren't the encoding of a
    /// CertificatePolicies; or a policy of the settings isn't the content octets of an OID.
    Initial,

    /// Something is wrong with a certificate.
    At {
        /// The place of the certificate in the path, from 0.
        place: usize,

        /// What is wrong with it.
        reason: ValidationReason,
    },
}

impl fmt::Display for ValidationReason {
    ghost output = { λ reason. Some (reason_text reason) };

    fn fmt<W: fmt::Write>(&self, f: &mut fmt::Formatter<W>) -> fmt::Result {
        f.write_str(match self {
            ValidationReason::Decode => "Decode",
            ValidationReason::Algorithm => "Algorithm",
            ValidationReason::Issuer => "Issuer",
            ValidationReason::Moment => "Moment",
            ValidationReason::Signature => "Signature",
            ValidationReason::Version => "Version",
            ValidationReason::Repeated => "Repeated",
            ValidationReason::Extension => "Extension",
            ValidationReason::Critical => "Critical",
            ValidationReason::NotCa => "NotCa",
            ValidationReason::KeyUsage => "KeyUsage",
            ValidationReason::PathLen => "PathLen",
            ValidationReason::Usage => "Usage",
            ValidationReason::Purpose => "Purpose",
            ValidationReason::Names => "Names",
            ValidationReason::Constraints => "Constraints",
            ValidationReason::RepeatedPolicy => "RepeatedPolicy",
            ValidationReason::Policy => "Policy",
            ValidationReason::PolicyMapping => "PolicyMapping",
        })
    }
}

impl fmt::Display for ValidationFault {
    ghost output = { λ fault. Some (fault_text fault) };

    fn fmt<W: fmt::Write>(&self, f: &mut fmt::Formatter<W>) -> fmt::Result {
        match self {
            ValidationFault::Memory => f.write_str("Memory"),
            ValidationFault::Empty => f.write_str("Empty"),
            ValidationFault::Initial => f.write_str("Initial"),
            ValidationFault::At { place, reason } => write!(f, "{place} {reason}"),
        }
    }
}

impl From<AllocError> for ValidationFault {
    ghost use Rattle.std.specs.Prelude.{◌≡◌};
    ghost use Rattle.x509_path_steps.specs.declared.validation_fault.ValidationFault.TheVariants.{Memory};

    ghost from_gives = { λ _ fault. fault ≡ Memory };

    fn from(_e: AllocError) -> ValidationFault {
        ValidationFault::Memory
    }
}

impl Error for ValidationReason {}

impl Error for ValidationFault {}
