//! What a caller asks of a path.

use crate::asked::Uses;
use bitflags::Flags;
use x509_base::DateTime;
use x509_ext::pkix::{KeyUsage, KeyUsages};

/// What a caller asks of a path (RFC 5280 6.1.1 (b), (c), (e) to (i)), and of the last certificate's key (6.1.5 (f)).
#[derive(Clone, Copy, Debug)]
pub struct PathSettings<'a> {
    /// The time at which the path is to be valid.
    pub moment: DateTime,

    /// The initial permitted and excluded subtrees, as the encoding of a NameConstraints; none where absent.
    pub name_constraints: Option<&'a [u8]>,

    /// The policies that the caller accepts, each as the content octets of its OID; any where absent.
    pub user_initial_policy_set: Option<&'a [&'a [u8]]>,

    /// Whether policies may not be mapped.
    pub initial_policy_mapping_inhibit: bool,

    /// Whether the path has to be valid under one of the policies at least.
    pub initial_explicit_policy: bool,

    /// Whether the any-policy of a certificate counts for nothing.
    pub initial_any_policy_inhibit: bool,

    /// The purposes of which one is asked for, any of them, each as the content octets of its OID (RFC 5280 4.2.1.12). Where
    /// absent none is asked for, and a critical ExtendedKeyUsage isn't processed.
    pub purposes: Option<&'a [&'a [u8]]>,

    /// Whether one purpose has to be allowed by all certificates of the path, and not by the last one alone.
    pub is_chained: bool,

    /// The bits that the last certificate's KeyUsage has to have, where it has that extension (RFC 5280 4.2.1.3).
    pub key_usage: KeyUsage,

    /// Whether certificates of version 1, which have no extensions, are authorities (RFC 5280 6.1.4 (k)): of those in the path
    /// the caller then knows that they are, or trusts that none below was made by another.
    pub allows_version_1: bool,

    /// Whether names of servers in the last certificate's common names are asked under name constraints, as those of its SAN
    /// are (RFC 5280 4.2.1.10): hosts, wildcards and IP addresses, each where the SAN has no name of that form (RFC 6125
    /// 6.4.4). RFC 5280 asks none.
    pub constrain_common_names: bool,
}

impl<'a> PathSettings<'a> {
    ghost use Rattle.std.specs.Prelude.{◌≡◌, None, false, true};
    ghost use Rattle.x509_path_steps.specs.Inputs.{uses_of};

    /// Validity at that time, and nothing else: under any policy or none, and for no purpose. Where purposes are set, they are
    /// asked of all certificates; none of version 1 is an authority; no common name is asked under name constraints.
    pub fn new(moment: DateTime) -> PathSettings<'a>
        ensures moment { result.moment ≡ moment }
        ensures constraints { result.name_constraints ≡ None }
        ensures policies { result.user_initial_policy_set ≡ None }
        ensures mapping { result.initial_policy_mapping_inhibit ≡ false }
        ensures explicit { result.initial_explicit_policy ≡ false }
        ensures any_policy { result.initial_any_policy_inhibit ≡ false }
        ensures purposes { result.purposes ≡ None }
        ensures chained { result.is_chained ≡ true }
        ensures usage { result.key_usage.0.0 ≡ 0 }
        ensures version_1 { result.allows_version_1 ≡ false }
        ensures common_names { result.constrain_common_names ≡ false }
    {
        PathSettings {
            moment,
            name_constraints: None,
            user_initial_policy_set: None,
            initial_policy_mapping_inhibit: false,
            initial_explicit_policy: false,
            initial_any_policy_inhibit: false,
            purposes: None,
            is_chained: true,
            key_usage: KeyUsage(KeyUsages::empty()),
            allows_version_1: false,
            constrain_common_names: false,
        }
    }

    /// What is asked of the uses of keys, and of common names.
    pub fn uses(&self) -> Uses
        ensures { result ≡ uses_of self.now }
    {
        Uses {
            is_chained: self.is_chained,
            key_usage: self.key_usage,
            allows_version_1: self.allows_version_1,
            constrain_common_names: self.constrain_common_names,
        }
    }
}
