//! Trust anchors with verifiers of signatures.

ghost use Rattle.std.specs.Prelude.{◌≡◌, ◌↔◌, IfOk, IfErr, IsTrue};
ghost use Rattle.x509_der.specs.Form.{Spells};
ghost use Rattle.x509_path.specs.Certificates as certificates;
ghost use Rattle.x509_path.specs.Lent.{Lends, StandsAbove};
ghost use Rattle.x509_path.specs.declared.anchor.Anchor as anchors;

use crate::anchor::Anchor;
use crate::anchor_ref::AnchorRef;
use crate::certificate::{Signed, signed_of};
use crate::verifier::{SliceVerifier, Verifier};
use std::alloc::{AllocError, Global};
use x509_base::{AlgorithmIdentifier, SubjectPublicKeyInfo};
use x509_cert::laws::one_signed_part;
use x509_check::CertificateRef;
use x509_der::Decode;
use x509_name::laws::equal_names_are_one_value;
use x509_name::name::Name;
use x509_prim::BitString;

/// A trust anchor, with a verifier of signatures.
pub trait Trust {
    ghost use Rattle.std.specs.Prelude.{◌≡◌, ◌↔◌, List, IfOk, IfErr, IsTrue};
    ghost use Rattle.x509_base.specs.AlgorithmIdentifier.{algorithm_identifier};
    ghost use Rattle.x509_base.specs.declared.algorithm_identifier.AlgorithmIdentifier as algorithms;
    ghost use Rattle.x509_der.specs.Form.{Spells};
    ghost use Rattle.x509_name.specs.Names.{name};
    ghost use Rattle.x509_name.specs.declared.attr.type_and_value.AttributeTypeAndValue as attributes;
    ghost use Rattle.x509_path.specs.Certificates.{Accepting};
    ghost use Rattle.x509_path.specs.Lent.{StandsAbove};
    ghost use Rattle.x509_path.specs.declared.anchor.Anchor as anchors;
    ghost use Rattle.x509_prim.specs.BitString.{BitParts, bit_string};

    /// Whether it is the anchor.
    ghost is_anchor: { Self → anchors.Anchor → Type 0 };

    /// What the verifier answers.
    ghost accepts: { Self → Accepting };

    /// Whether a call may take memory.
    ghost takes_memory: { Type 0 };

    /// Whether the bytes, which are a name's, are that of the anchor's name.
    fn is_name(&self, alloc: Global, bytes: &[u8]) -> Result<bool, AllocError>
        ensures ok { IfOk result (λ b. (value : List (List attributes.AttributeTypeAndValue)) (above : anchors.Anchor) → Spells name value bytes.now
            → is_anchor self.now above → IsTrue b ↔ (value ≡ above.name)) }
        ensures err { IfErr result (λ e. takes_memory) };

    /// Whether the verifier accepts the signature for the key of what stands above.
    fn verify(
        &self,
        alloc: Global,
        above: &Option<AnchorRef<'_>>,
        signed: &Signed<'_>,
    ) -> Result<bool, AllocError>
        ensures ok { IfOk result (λ b. (over : anchors.Anchor) (algorithm : algorithms.AlgorithmIdentifier) (bits : BitParts)
            → StandsAbove (is_anchor self.now) above.now over → Spells algorithm_identifier algorithm signed.now.algorithm.now
            → Spells bit_string bits signed.now.signature.now → b ≡ accepts self.now algorithm over.key signed.now.message.now bits) }
        ensures err { IfErr result (λ e. takes_memory) };
}

/// An anchor, if it isn't lent, and a verifier, which are handed values.
#[derive(Drop)]
pub struct Values<'a, V> {
    /// The anchor.
    pub anchor: Option<&'a Anchor>,

    /// The verifier.
    pub verifier: &'a V,
}

/// The value of which the bytes are the encoding, as is known.
pub fn known_value<T: Decode>(alloc: Global, bytes: &[u8]) -> Result<T, AllocError>
    ensures { IfOk result (λ found. (value : T) → Spells T.form value bytes.now → found ≡ value) }
{
    match T::from_der(alloc, bytes) {
        Ok(value) => Ok(value),
        Err(_) => Err(AllocError),
    }
}

impl<V: Verifier> Trust for Values<'_, V> {
    ghost use Rattle.std.specs.Option.{option_copied};
    ghost use Rattle.std.specs.Prelude.{◌≡◌, Some};

    ghost is_anchor = { λ trust anchor. option_copied trust.anchor ≡ Some anchor };

    ghost accepts = { λ trust. V.accepts trust.verifier.now };

    ghost takes_memory = { Unit };

    fn is_name(&self, alloc: Global, bytes: &[u8]) -> Result<bool, AllocError> {
        equal_names_are_one_value();
        let Some(anchor) = self.anchor else {
            return Ok(false);
        };
        let name = known_value::<Name>(alloc, bytes)?;
        Ok(name == anchor.name)
    }

    fn verify(
        &self,
        alloc: Global,
        above: &Option<AnchorRef<'_>>,
        signed: &Signed<'_>,
    ) -> Result<bool, AllocError> {
        let algorithm = known_value::<AlgorithmIdentifier>(alloc, signed.algorithm)?;
        let signature = known_value::<BitString>(alloc, signed.signature)?;
        if let Some(above) = above {
            let key = known_value::<SubjectPublicKeyInfo>(alloc, above.key)?;
            return Ok(
                self.verifier
                    .verify(&algorithm, &key, signed.message, &signature),
            );
        }
        let Some(anchor) = self.anchor else {
            return Ok(false);
        };
        Ok(
            self.verifier
                .verify(&algorithm, &anchor.key, signed.message, &signature),
        )
    }
}

/// An anchor and a verifier, which are handed encodings.
#[derive(Drop)]
pub struct Slices<'a, V> {
    /// The anchor.
    pub anchor: &'a AnchorRef<'a>,

    /// The verifier.
    pub verifier: &'a V,
}

impl<V: SliceVerifier> Trust for Slices<'_, V> {
    ghost use Rattle.x509_path.specs.Lent.{LendsAnchor};

    ghost is_anchor = { λ trust anchor. LendsAnchor trust.anchor.now anchor };

    ghost accepts = { λ trust. V.accepts trust.verifier.now };

    ghost takes_memory = { ⊥ };

    fn is_name(&self, _alloc: Global, bytes: &[u8]) -> Result<bool, AllocError> {
        Ok(bytes == self.anchor.name)
    }

    fn verify(
        &self,
        _alloc: Global,
        above: &Option<AnchorRef<'_>>,
        signed: &Signed<'_>,
    ) -> Result<bool, AllocError> {
        let key = match above {
            Some(above) => above.key,
            None => self.anchor.key,
        };
        Ok(
            self.verifier
                .verify(signed.algorithm, key, signed.message, signed.signature),
        )
    }
}

/// Whether the verifier accepts the signature of the signed part, as it stands in the bytes, for the key of what stands above.
pub fn is_signed<T: Trust>(
    alloc: Global,
    trust: &T,
    above: &Option<AnchorRef<'_>>,
    certificate: &CertificateRef<'_>,
) -> Result<bool, AllocError>
    ensures ok { IfOk result (λ b. (c : certificates.Certificate) (over : anchors.Anchor) → Lends certificate.now.bytes.now c
        → StandsAbove (T.is_anchor trust.now) above.now over
        → IsTrue b ↔ certificates.IsSigned (T.accepts trust.now) over.key certificate.now.bytes.now c) }
    ensures err { IfErr result (λ e. T.takes_memory) }
{
    one_signed_part();
    let signed = signed_of(certificate);
    let accepted = trust.verify(alloc, above, &signed)?;
    Ok(accepted)
}
