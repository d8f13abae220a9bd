//! What is asked of a certificate of a path, by the caller and by those above.

ghost use Rattle.std.specs.Option.{option_map};
ghost use Rattle.std.specs.Prelude.{◌≡◌, ◌↔◌, IfOk, IsTrue};
ghost use Rattle.x509_path.specs.Certificates as certificates;
ghost use Rattle.x509_path.specs.Lent.{Lends};
ghost use Rattle.x509_path.specs.PathLength.{HasConstraints};
ghost use Rattle.x509_path_steps.specs.Inputs.{purposes_of};
ghost use Rattle.x509_path_steps.specs.Validation.{IsAuthority};
ghost use Rattle.x509_policy.specs.Views.{octets_of};

use crate::applied::Applied;
use crate::settings::PathSettings;
use std::alloc::{AllocError, Global};
use x509_cert::certificate::Version;
use x509_check::CertificateRef;
use x509_ext::pkix::{BasicConstraints, KeyUsage};
use x509_path::extensions::is_ca;

/// What the caller asks of the uses of keys, and of common names.
#[derive(Clone, Copy)]
pub struct Uses {
    /// Whether a purpose is asked of all certificates, and not of the last one alone.
    pub is_chained: bool,

    /// What the last certificate's key has to be for.
    pub key_usage: KeyUsage,

    /// Whether certificates of version 1 are authorities.
    pub allows_version_1: bool,

    /// Whether the last certificate's common names are asked under name constraints.
    pub constrain_common_names: bool,
}

/// What is asked of a certificate.
pub struct Asked<'a> {
    /// The name constraints that apply.
    pub names: Applied,

    /// The purposes that are left of those of which one is asked for, where one is.
    pub purposes: Option<Vec<&'a [u8]>>,

    /// What is asked of the uses of keys, and of common names.
    pub uses: Uses,
}

impl Drop for Asked<'_> {
    fn drop(self) {
        let Asked {
            names: _,
            purposes: _,
            uses: _,
        } = self;
    }
}

/// The purposes of which one is asked for, where one is.
///
/// # Errors
///
/// Out of memory.
pub fn purposes_at_start<'a>(
    alloc: Global,
    settings: &PathSettings<'a>,
) -> Result<Option<Vec<&'a [u8]>>, AllocError>
    ensures { IfOk result (λ found. option_map (λ v. octets_of v.items) found ≡ purposes_of settings.now) }
{
    match settings.purposes {
        Some(purposes) => Ok(Some(Vec::from_slice(alloc, purposes)?)),
        None => Ok(None),
    }
}

/// Whether others may stand below the certificate, which has those BasicConstraints.
pub fn is_authority(
    uses: Uses,
    certificate: &CertificateRef<'_>,
    constraints: Option<BasicConstraints>,
) -> bool
    ensures { (c : certificates.Certificate) → Lends certificate.now.bytes.now c → HasConstraints (certificates.extensions_of c) constraints
        → IsTrue result ↔ IsAuthority uses.allows_version_1 c }
{
    match certificate.version() {
        Version::V1 => uses.allows_version_1,
        Version::V2 => false,
        Version::V3 => is_ca(constraints),
    }
}
