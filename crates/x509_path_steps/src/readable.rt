//! Whether what a path is validated by can be read.

ghost use Rattle.std.specs.Prelude.{◌≡◌, ◌↔◌, IsTrue, Option, true};
ghost use Rattle.x509_der.specs.Form.{Spells};
ghost use Rattle.x509_der.specs.ObjectIdentifier.{is_object_identifier};
ghost use Rattle.x509_path.specs.Lent.{LendsAnchor};
ghost use Rattle.x509_path.specs.declared.anchor.Anchor.{Anchor};
ghost use Rattle.x509_path_steps.specs.Inputs.{AreOids, Inputs, LendsInputs, LendsTrust, SpellsOption, Trust, user_set};
ghost use Rattle.x509_policy.specs.Views.{octets_of};

use crate::settings::PathSettings;
use crate::trusted::Trusted;
use x509_base::SubjectPublicKeyInfo;
use x509_check::Check;
use x509_der::ObjectIdentifier;
use x509_ext::pkix::{CertificatePolicies, NameConstraints};
use x509_name::name::Name;
use x509_path::AnchorRef;

/// Whether the octets are the encoding of a value.
fn is_encoding<T: Check>(octets: &[u8]) -> bool
    ensures { IsTrue result ↔ ((value : T) × Spells T.form value octets.now) }
{
    T::check(octets).is_ok()
}

/// Whether the octets are the encoding of a value, if there are any.
fn is_encoding_if_any<T: Check>(octets: Option<&[u8]>) -> bool
    ensures { IsTrue result ↔ ((value : Option T) × SpellsOption (λ lent. lent.now) T.form octets.entry value) }
{
    match octets {
        Some(octets) => is_encoding::<T>(octets),
        None => true,
    }
}

/// Whether they are the content octets of an OID.
fn is_oid(octets: &[u8]) -> bool
    ensures { IsTrue result ↔ (is_object_identifier octets.now ≡ true) }
{
    ObjectIdentifier::from_bytes(octets).is_ok()
}

/// Whether they are the content octets of an OID each.
fn are_all_oids(policies: &[&[u8]]) -> bool
    ensures { IsTrue result ↔ AreOids (octets_of policies.now) }
{
    for policy in policies {
        if !is_oid(policy) {
            return false;
        }
    }
    true
}

/// Whether they are the content octets of an OID each, if there are any.
fn are_oids(policies: Option<&[&[u8]]>) -> bool
    ensures { IsTrue result ↔ AreOids (user_set policies.entry) }
{
    match policies {
        Some(policies) => are_all_oids(policies),
        None => true,
    }
}

/// Whether the name and the key can be read.
fn is_anchor(anchor: AnchorRef<'_>) -> bool
    ensures { IsTrue result ↔ ((above : Anchor) × LendsAnchor anchor.entry above) }
{
    if !is_encoding::<Name>(anchor.name) {
        return false;
    }
    is_encoding::<SubjectPublicKeyInfo>(anchor.key)
}

/// Whether all that is trusted can be read.
fn is_readable(trusted: &Trusted<'_>) -> bool
    ensures { IsTrue result ↔ ((trust : Trust) × LendsTrust trusted.now trust) }
{
    if !is_anchor(trusted.anchor) {
        return false;
    }
    if !is_encoding_if_any::<NameConstraints>(trusted.name_constraints) {
        return false;
    }
    is_encoding_if_any::<CertificatePolicies>(trusted.policies)
}

/// Whether all that is trusted and that the caller asks can be read. It takes no memory.
pub fn are_readable(trusted: &Trusted<'_>, settings: &PathSettings<'_>) -> bool
    ensures { IsTrue result ↔ ((inputs : Inputs) × LendsInputs trusted.now settings.now inputs) }
{
    if !is_readable(trusted) {
        return false;
    }
    if !is_encoding_if_any::<NameConstraints>(settings.name_constraints) {
        return false;
    }
    are_oids(settings.user_initial_policy_set)
}
