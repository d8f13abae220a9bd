//! What stands above a certificate: a name, and a public key with its parameters.

ghost use Rattle.std.specs.Prelude.{◌≡◌, ◌≤◌, MatchResult, Option, Some, bytes_eq, length};
ghost use Rattle.x509_base.specs.SubjectPublicKeyInfo.{subject_public_key_info};
ghost use Rattle.x509_base.specs.declared.subject_public_key_info.SubjectPublicKeyInfo as keys;
ghost use Rattle.x509_der.specs.Any.{any};
ghost use Rattle.x509_der.specs.Element.{limit};
ghost use Rattle.x509_der.specs.Form.{Spells, spelling};
ghost use Rattle.x509_der.specs.Frames.{optional_octets};
ghost use Rattle.x509_der.specs.declared.any.Any as elements;
ghost use Rattle.x509_path_steps.specs.Inputs.{SpellsOption};
ghost use Rattle.x509_path_steps.specs.Keys as keyed;
ghost use Rattle.x509_path_steps.specs.Trusts.{RefusesEncoding};

use crate::oids::{content_of, first_content};
use crate::trusted_buf::encoded;
use std::alloc::Global;
use x509_base::SubjectPublicKeyInfo;
use x509_check::CertificateRef;
use x509_der::{Any, Error};
use x509_path::AnchorRef;
use x509_path::trust::known_value;

/// The encoding of NULL.
const NULL: &[u8] = &[0x05, 0x00];

/// What stands above a certificate. Its key is used with parameters from a key above, where it has none (RFC 5280 6.1.4 (d) to
/// (f)).
#[derive(Clone, Copy)]
pub struct Above<'a> {
    /// The name and the key, as it stands in its certificate.
    pub anchor: AnchorRef<'a>,

    /// The parameters from a key above, as their element.
    pub inherited: Option<&'a [u8]>,
}

/// Whether the octets are the encoding of NULL.
fn is_null(octets: &[u8]) -> bool
    ensures { result ≡ bytes_eq octets.now keyed.null }
{
    octets == NULL
}

/// The parameters of which these are the octets, none where they are left out or NULL.
fn given(octets: &[u8]) -> Option<&[u8]>
    ensures { (parameters : Option elements.Any) → length octets.now ≤ limit → octets.now ≡ optional_octets (spelling any) parameters
        → SpellsOption (λ lent. lent.now) any result (keyed.given parameters) }
{
    if octets.is_empty() {
        return None;
    }
    if is_null(octets) {
        return None;
    }
    Some(octets)
}

/// The OID of a key's algorithm, and the parameters, if it has any.
fn algorithm_of(key: &[u8]) -> (&[u8], Option<&[u8]>)
    ensures { (k : keys.SubjectPublicKeyInfo) → Spells subject_public_key_info k key.now
        → (result.0.now ≡ k.algorithm.oid) × SpellsOption (λ lent. lent.now) any result.1 (keyed.parameters_of k) }
{
    let (oid, parameters) = first_content(content_of(content_of(key)));
    (oid, given(parameters))
}

/// The encoding of the key with these parameters, where both can be decoded.
///
/// # Errors
///
/// `Overlength` where it would be too long. `Memory` when out of memory.
pub fn filled_in(alloc: Global, key: &[u8], parameters: &[u8]) -> Result<Vec<u8>, Error>
    ensures { (k : keys.SubjectPublicKeyInfo) (p : elements.Any) → Spells subject_public_key_info k key.now → Spells any p parameters.now → MatchResult result
        (λ octets. Spells subject_public_key_info (keyed.with_parameters k (Some p)) octets.items)
        (λ e. RefusesEncoding subject_public_key_info (keyed.with_parameters k (Some p)) e.kind) }
{
    let mut filled = known_value::<SubjectPublicKeyInfo>(alloc, key)?;
    filled.algorithm.parameters = Some(known_value::<Any>(alloc, parameters)?);
    encoded(alloc, &filled)
}

impl<'a> Above<'a> {
    ghost use Rattle.std.specs.Prelude.{◌≡◌, None};
    ghost use Rattle.x509_base.specs.SubjectPublicKeyInfo.{subject_public_key_info};
    ghost use Rattle.x509_base.specs.declared.subject_public_key_info.SubjectPublicKeyInfo as keys;
    ghost use Rattle.x509_der.specs.Any.{any};
    ghost use Rattle.x509_der.specs.Form.{Spells};
    ghost use Rattle.x509_path.specs.Certificates as certificates;
    ghost use Rattle.x509_path.specs.Lent.{Lends, LendsAnchor};
    ghost use Rattle.x509_path.specs.Path.{subject_of};
    ghost use Rattle.x509_path_steps.specs.Inputs.{SpellsOption};
    ghost use Rattle.x509_path_steps.specs.Keys.{inherited, parameters_of, working_key};
    ghost use Rattle.x509_path_steps.specs.Steps.{HoldsKey};

    /// What is trusted.
    pub fn new(anchor: AnchorRef<'a>) -> Above<'a>
        ensures anchor { result.anchor ≡ anchor.entry }
        ensures key { (key : keys.SubjectPublicKeyInfo) → Spells subject_public_key_info key anchor.entry.key.now → HoldsKey result key }
    {
        Above {
            anchor,
            inherited: None,
        }
    }

    /// The parameters with which the key is used.
    pub fn parameters(&self) -> Option<&'a [u8]>
        ensures { (key : keys.SubjectPublicKeyInfo) → HoldsKey self.now key → SpellsOption (λ lent. lent.now) any result (parameters_of key) }
    {
        match self.inherited {
            Some(parameters) => Some(parameters),
            None => algorithm_of(self.anchor.key).1,
        }
    }

    /// The parameters that a key below has from this one.
    pub(crate) fn left_to(&self, below: &[u8]) -> Option<&'a [u8]>
        ensures { (above key : keys.SubjectPublicKeyInfo) → HoldsKey self.now above → Spells subject_public_key_info key below.now
            → SpellsOption (λ lent. lent.now) any result (inherited above key (parameters_of key)) }
    {
        let (oid, own) = algorithm_of(below);
        if own.is_some() {
            return None;
        }
        if oid != algorithm_of(self.anchor.key).0 {
            return None;
        }
        self.parameters()
    }

    /// What stands above the certificates below this one.
    pub fn below(&self, certificate: &CertificateRef<'a>) -> Above<'a>
        ensures anchor { (c : certificates.Certificate) → Lends certificate.now.bytes.now c → LendsAnchor result.anchor (subject_of c) }
        ensures key { (c : certificates.Certificate) (above : keys.SubjectPublicKeyInfo) → Lends certificate.now.bytes.now c → HoldsKey self.now above
            → HoldsKey result (working_key above c.tbs_certificate.subject_public_key_info) }
    {
        let anchor = AnchorRef::from_certificate(certificate);
        Above {
            anchor,
            inherited: self.left_to(anchor.key),
        }
    }
}
