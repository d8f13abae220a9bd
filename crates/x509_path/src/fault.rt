//! Why a path is refused.

ghost use Rattle.std.specs.Prelude.{Some};
ghost use Rattle.x509_path.specs.Fault.{fault_text, reason_text};

use std::alloc::AllocError;
use std::error::Error;
use std::fmt;

/// What is wrong with a certificate of a path, in the order of the checks. The last three are asked of all certificates
/// but the last. It is printed as the variant's name.
#[derive(Clone, Copy, Debug, PartialEq, Eq)]
pub enum PathReason {
    /// The bytes are not the encoding of a certificate.
    Decode,

    /// The algorithm in the signed part isn't the one outside it (RFC 5280 4.1.1.2).
    Algorithm,

    /// The issuer isn't the subject of the certificate above, or, for the first, the anchor's name (RFC 5280 6.1.3 (a)
    /// (4)).
    Issuer,

    /// The time is before the first or after the last second of the validity (RFC 5280 6.1.3 (a) (2)).
    Moment,

    /// The verifier doesn't accept the signature of the signed part, as it stands in the input, for the key above
    /// (RFC 5280 6.1.3 (a) (1)).
    Signature,

    /// Two extensions have one OID (RFC 5280 4.2).
    Repeated,

    /// A critical extension isn't a BasicConstraints, KeyUsage, ExtendedKeyUsage or SAN, or can't be decoded (RFC 5280
    /// 6.1.4 (o), 6.1.5 (f)).
    Critical,

    /// There is no BasicConstraints that can be decoded and has cA set (RFC 5280 6.1.4 (k)).
    NotCa,

    /// There is a KeyUsage, and it can't be decoded, or hasn't keyCertSign (RFC 5280 6.1.4 (n)).
    KeyUsage,

    /// More certificates that aren't self-issued follow one of those above than its path length constraint allows (RFC
    /// 5280 6.1.4 (l), (m)).
    PathLen,
}

/// Why a path is refused. It is printed as the variant's name, and a fault as its place and its reason, as `1 PathLen`.
#[derive(Clone, Copy, Debug, PartialEq, Eq)]
pub enum PathFault {
    /// Out of memory.
    Memory,

    /// The path is empty.
    Empty,

    /// Something is wrong with a certificate.
    At {
        /// The place of the certificate in the path, from 0.
        place: usize,

        /// What is wrong with it.
        reason: PathReason,
    },
}

impl fmt::Display for PathReason {
    ghost output = { λ reason. Some (reason_text reason) };

    fn fmt<W: fmt::Write>(&self, f: &mut fmt::Formatter<W>) -> fmt::Result {
        f.write_str(match self {
            PathReason::Decode => "Decode",
            PathReason::Algorithm => "Algorithm",
            PathReason::Issuer => "Issuer",
            PathReason::Moment => "Moment",
            PathReason::Signature => "Signature",
            PathReason::Repeated => "Repeated",
            PathReason::Critical => "Critical",
            PathReason::NotCa => "NotCa",
            PathReason::KeyUsage => "KeyUsage",
            PathReason::PathLen => "PathLen",
        })
    }
}

impl fmt::Display for PathFault {
    ghost output = { λ fault. Some (fault_text fault) };

    fn fmt<W: fmt::Write>(&self, f: &mut fmt::Formatter<W>) -> fmt::Result {
        match self {
            PathFault::Memory => f.write_str("Memory"),
            PathFault::Empty => f.write_str("Empty"),
            PathFault::At { place, reason } => write!(f, "{place} {reason}"),
        }
    }
}

impl From<AllocError> for PathFault {
    ghost use Rattle.std.specs.Prelude.{◌≡◌};
    ghost use Rattle.x509_path.specs.declared.fault.PathFault.TheVariants.{Memory};

    ghost from_gives = { λ _ fault. fault ≡ Memory };

    fn from(_e: AllocError) -> PathFault {
        PathFault::Memory
    }
}

impl Error for PathReason {}

impl Error for PathFault {}
