//! What is answered to a path.

ghost use Rattle.std.specs.Prelude.{◌≡◌, ◌≢◌, [], map};
ghost use Rattle.x509_c_calls.specs.PathValidation.{IsFault, IsSubjectOfLast, validation_code};

use crate::Span;
use crate::path::views::certificate_of;
use x509_check::CertificateRef;
use x509_validation::ValidationReason;

/// What is answered to a path: what is wrong with it, or what it gives where it is valid. Of the other all numbers are 0.
#[derive(Clone, Copy)]
#[repr(C)]
pub struct PathAnswer {
    /// The number of the certificate in the path, from 0.
    pub place: usize,

    /// The number of what is wrong with it: for a [`ValidationReason`] that is a [`PathReason`](x509_path::PathReason) too the
    /// number of that, from 11 on the others in their order.
    pub reason: u32,

    /// The subject of the last certificate, whose bytes begin at 0.
    pub name: Span,

    /// The public key of the last certificate.
    pub key: Span,

    /// How many octets the policies take under which the path is valid, as the encoding of a CertificatePolicies.
    pub policies_len: usize,
}

const NOWHERE: Span = Span { place: 0, len: 0 };

/// The number of a reason.
pub(crate) fn number_of(reason: ValidationReason) -> u32
    ensures { result ≡ validation_code reason }
{
    match reason {
        ValidationReason::Decode => 1,
        ValidationReason::Algorithm => 2,
        ValidationReason::Issuer => 3,
        ValidationReason::Moment => 4,
        ValidationReason::Signature => 5,
        ValidationReason::Repeated => 6,
        ValidationReason::Critical => 7,
        ValidationReason::NotCa => 8,
        ValidationReason::KeyUsage => 9,
        ValidationReason::PathLen => 10,
        ValidationReason::Extension => 11,
        ValidationReason::Names => 12,
        ValidationReason::Constraints => 13,
        ValidationReason::RepeatedPolicy => 14,
        ValidationReason::Policy => 15,
        ValidationReason::PolicyMapping => 16,
        ValidationReason::Purpose => 17,
        ValidationReason::Usage => 18,
        ValidationReason::Version => 19,
    }
}

/// What is wrong at a place.
pub(crate) fn fault_at(place: usize, reason: ValidationReason) -> PathAnswer
    ensures { IsFault place reason result }
{
    PathAnswer {
        place,
        reason: number_of(reason),
        name: NOWHERE,
        key: NOWHERE,
        policies_len: 0,
    }
}

/// Where the subject and the key of the last of these certificates stand, and how many octets the policies take.
pub(crate) fn subject_of(path: &[CertificateRef<'_>], policies_len: usize) -> PathAnswer
    ensures subject { path.now ≢ [] → IsSubjectOfLast (map (λ certificate. certificate.bytes.now) path.now) result }
    ensures policies { result.policies_len ≡ policies_len }
{
    let [.., last] = path else {
        return PathAnswer {
            place: 0,
            reason: 0,
            name: NOWHERE,
            key: NOWHERE,
            policies_len,
        };
    };
    let view = certificate_of(last).view;
    PathAnswer {
        place: 0,
        reason: 0,
        name: view.subject,
        key: view.subject_public_key_info,
        policies_len,
    }
}
