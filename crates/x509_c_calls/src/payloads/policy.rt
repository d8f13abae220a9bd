//! Policies of certificates, and what is asked of them.

use crate::payloads::calls::View;
use crate::payloads::number::optional_number;
use crate::payloads::walk::{step_content, step_optional};
use crate::{Span, enter};
use x509_ext::pkix::certpolicy::{PolicyInformation, PolicyQualifierInfo};
use x509_ext::pkix::{PolicyConstraints, PolicyMapping};

/// A policy of a certificate (RFC 5280 4.2.1.4).
#[derive(Clone, Copy)]
#[repr(C)]
pub struct PolicyView {
    /// Where the content octets of its identifier stand.
    pub identifier: Span,

    /// Where what qualifies it stands, a whole SEQUENCE; both numbers are 0 where nothing does.
    pub qualifiers: Span,
}

impl View for PolicyView {
    ghost use Rattle.x509_c_calls.specs.Policies.{IsPolicy};

    type Value = PolicyInformation;

    ghost shows = { IsPolicy };

    fn view(input: &[u8], place: usize, value: &PolicyInformation) -> PolicyView {
        let mut at = place;
        enter(input, &mut at);
        PolicyView {
            identifier: step_content(input, &mut at),
            qualifiers: step_optional(input, &mut at, value.policy_qualifiers.is_some()),
        }
    }
}

/// A policy qualifier (RFC 5280 4.2.1.4).
#[derive(Clone, Copy)]
#[repr(C)]
pub struct QualifierView {
    /// Where the content octets of its identifier stand.
    pub identifier: Span,

    /// Where the qualifier stands, a whole element; both numbers are 0 where it is left out.
    pub qualifier: Span,
}

impl View for QualifierView {
    ghost use Rattle.x509_c_calls.specs.Policies.{IsQualifier};

    type Value = PolicyQualifierInfo;

    ghost shows = { IsQualifier };

    fn view(input: &[u8], place: usize, value: &PolicyQualifierInfo) -> QualifierView {
        let mut at = place;
        enter(input, &mut at);
        QualifierView {
            identifier: step_content(input, &mut at),
            qualifier: step_optional(input, &mut at, value.qualifier.is_some()),
        }
    }
}

/// A policy of the issuer's domain that the subject's domain has by another identifier (RFC 5280 4.2.1.5).
#[derive(Clone, Copy)]
#[repr(C)]
pub struct MappingView {
    /// Where the content octets of the identifier in the issuer's domain stand.
    pub issuer_policy: Span,

    /// Where the content octets of that in the subject's domain stand.
    pub subject_policy: Span,
}

impl View for MappingView {
    ghost use Rattle.x509_c_calls.specs.Policies.{IsMapping};

    type Value = PolicyMapping;

    ghost shows = { IsMapping };

    fn view(input: &[u8], place: usize, _value: &PolicyMapping) -> MappingView {
        let mut at = place;
        enter(input, &mut at);
        MappingView {
            issuer_policy: step_content(input, &mut at),
            subject_policy: step_content(input, &mut at),
        }
    }
}

/// The policy constraints (RFC 5280 4.2.1.11): after how many more certificates each of both holds.
#[derive(Clone, Copy)]
#[repr(C)]
pub struct PolicyConstraintsView {
    /// 1 where an explicit policy is asked for, else 0.
    pub has_require_explicit_policy: u32,

    /// After how many certificates; 0 where it isn't asked for.
    pub require_explicit_policy: u32,

    /// 1 where policies aren't to be mapped, else 0.
    pub has_inhibit_policy_mapping: u32,

    /// After how many certificates; 0 where they may be mapped.
    pub inhibit_policy_mapping: u32,
}

impl View for PolicyConstraintsView {
    ghost use Rattle.x509_c_calls.specs.Policies.{IsPolicyConstraints};

    type Value = PolicyConstraints;

    ghost shows = { λ bytes constraints behind view. IsPolicyConstraints constraints view };

    fn view(_input: &[u8], _place: usize, value: &PolicyConstraints) -> PolicyConstraintsView {
        let (has_require_explicit_policy, require_explicit_policy) = optional_number(
            value.require_explicit_policy,
        );
        let (has_inhibit_policy_mapping, inhibit_policy_mapping) = optional_number(
            value.inhibit_policy_mapping,
        );
        PolicyConstraintsView {
            has_require_explicit_policy,
            require_explicit_policy,
            has_inhibit_policy_mapping,
            inhibit_policy_mapping,
        }
    }
}
