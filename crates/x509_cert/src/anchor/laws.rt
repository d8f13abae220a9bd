//! What is encoded of trust anchors. Each law is a function with an empty body, or one that cites others, whose
//! contract is the law. Bytes spell a value where they are its encoding; it is respelled where a profile encodes its
//! dates otherwise than they were decoded (`docs/MAP.md` has these words).

ghost use Rattle.std.specs.Prelude.{length, true, ◌↔◌, ◌≡◌, ◌≤◌};
ghost use Rattle.x509_base.specs.Validity.{validity};
ghost use Rattle.x509_cert.specs.CertPathControls.{cert_path_controls};
ghost use Rattle.x509_cert.specs.AnchorMade.{MadeAnchor};
ghost use Rattle.x509_cert.specs.AnchorRespelling.{GoodStay, any_cert_path_controls, any_trust_anchor_choice, any_trust_anchor_info};
ghost use Rattle.x509_cert.specs.TrustAnchorChoice.{trust_anchor_choice};
ghost use Rattle.x509_cert.specs.TrustAnchorInfo.{trust_anchor_info};
ghost use Rattle.x509_cert.specs.declared.anchor.cert_path_controls.CertPathControls.{CertPathControls};
ghost use Rattle.x509_cert.specs.declared.anchor.cert_policies.CertPolicies.{CertPolicies};
ghost use Rattle.x509_cert.specs.declared.anchor.trust_anchor_choice.TrustAnchorChoice.{TrustAnchorChoice};
ghost use Rattle.x509_cert.specs.declared.anchor.trust_anchor_info.TrustAnchorInfo.{TrustAnchorInfo};
ghost use Rattle.x509_cert.specs.declared.anchor.version.Version.{Version};
ghost use Rattle.x509_der.specs.Element.{limit};
ghost use Rattle.x509_der.specs.Form.{Spells, spelling};
ghost use Rattle.x509_der.specs.Writing.{IsStable, IsWritable, RespellsAlike, writes, written_spelling};

use crate::anchor::cert_path_controls::CertPathControls;
use crate::anchor::cert_policies::CertPolicies;
use crate::anchor::trust_anchor_choice::TrustAnchorChoice;
use crate::anchor::trust_anchor_info::TrustAnchorInfo;
use crate::anchor::version::Version;
use x509_base::{Profile, Raw, Rfc5280, Validity};
use x509_der::{Encode, Grammar, Spelled};

/// Where what is encoded of a validity is encoded again as it is, so is what is encoded of a trust anchor that holds
/// one, at whatever depth: decoding and encoding twice gives the bytes of once.
pub fn dates_are_written_once<P: Profile>()
    ensures controls { IsStable validity.good ⟦<Validity<P> as Encode>⟧.writing
        → IsStable (cert_path_controls P.serial_check).good ⟦<CertPathControls<P> as Encode>⟧.writing }
    ensures info { IsStable validity.good ⟦<Validity<P> as Encode>⟧.writing
        → IsStable (trust_anchor_info P.serial_check).good ⟦<TrustAnchorInfo<P> as Encode>⟧.writing }
    ensures anchor { IsStable validity.good ⟦<Validity<P> as Encode>⟧.writing
        → IsStable (trust_anchor_choice P.serial_check).good ⟦<TrustAnchorChoice<P> as Encode>⟧.writing }
{}

/// Under [`Rfc5280`] decoding and encoding twice gives the bytes of once.
pub fn rfc5280_dates_are_written_once()
    ensures controls { IsStable (cert_path_controls ⟦<Rfc5280 as Profile>⟧.serial_check).good ⟦<CertPathControls<Rfc5280> as Encode>⟧.writing }
    ensures info { IsStable (trust_anchor_info ⟦<Rfc5280 as Profile>⟧.serial_check).good ⟦<TrustAnchorInfo<Rfc5280> as Encode>⟧.writing }
    ensures anchor { IsStable (trust_anchor_choice ⟦<Rfc5280 as Profile>⟧.serial_check).good ⟦<TrustAnchorChoice<Rfc5280> as Encode>⟧.writing }
{
    x509_base::laws::rfc5280_dates_are_written_once();
    dates_are_written_once::<Rfc5280>();
}

/// Under [`Raw`] too, decoding and encoding twice gives the bytes of once.
pub fn raw_dates_are_written_once()
    ensures controls { IsStable (cert_path_controls ⟦<Raw as Profile>⟧.serial_check).good ⟦<CertPathControls<Raw> as Encode>⟧.writing }
    ensures info { IsStable (trust_anchor_info ⟦<Raw as Profile>⟧.serial_check).good ⟦<TrustAnchorInfo<Raw> as Encode>⟧.writing }
    ensures anchor { IsStable (trust_anchor_choice ⟦<Raw as Profile>⟧.serial_check).good ⟦<TrustAnchorChoice<Raw> as Encode>⟧.writing }
{
    x509_base::laws::raw_dates_are_written_once();
    dates_are_written_once::<Raw>();
}

/// Under [`Raw`] what is encoded of a trust anchor is what is spelled, of each that has a spelling.
pub fn raw_anchors_stay()
    ensures controls { GoodStay (cert_path_controls ⟦<Raw as Profile>⟧.serial_check).good ⟦<CertPathControls<Raw> as Encode>⟧.writing }
    ensures info { GoodStay (trust_anchor_info ⟦<Raw as Profile>⟧.serial_check).good ⟦<TrustAnchorInfo<Raw> as Encode>⟧.writing }
    ensures anchor { GoodStay (trust_anchor_choice ⟦<Raw as Profile>⟧.serial_check).good ⟦<TrustAnchorChoice<Raw> as Encode>⟧.writing }
{}

/// Where what is encoded of a validity is encoded again as it is, of two trust anchors with the same encoding the same
/// value is spelled, also of those with a certificate whose serial number the profile refuses in decoding.
pub fn anchors_written_alike_are_respelled_alike<P: Profile>()
    ensures controls { IsStable validity.good ⟦<Validity<P> as Encode>⟧.writing
        → RespellsAlike (cert_path_controls P.serial_check) any_cert_path_controls.good ⟦<CertPathControls<P> as Encode>⟧.writing }
    ensures info { IsStable validity.good ⟦<Validity<P> as Encode>⟧.writing
        → RespellsAlike (trust_anchor_info P.serial_check) any_trust_anchor_info.good ⟦<TrustAnchorInfo<P> as Encode>⟧.writing }
    ensures anchor { IsStable validity.good ⟦<Validity<P> as Encode>⟧.writing
        → RespellsAlike (trust_anchor_choice P.serial_check) any_trust_anchor_choice.good ⟦<TrustAnchorChoice<P> as Encode>⟧.writing }
{}

/// What is encoded of policy flags is encoded again as it is: decoding and encoding twice gives the bytes of once.
pub fn policy_flags_are_written_once()
    ensures { IsStable ⟦<CertPolicies as Grammar>⟧.form.good ⟦<CertPolicies as Encode>⟧.writing }
{}

/// Under [`Rfc5280`] what is encoded of a trust anchor that a program made is decoded as what was meant, with its dates
/// as they are spelled there, where the serial number of each certificate in it has at most 21 octets, and each bit of
/// the policy flags has a name.
#[tactic(auto, using(crate::proofs::AnchorMade::made_for_rfc5280))]
pub fn rfc5280_anchors_are_read_as_meant(anchor: &TrustAnchorChoice<Rfc5280>)
    ensures { MadeAnchor (λ serial. length serial ≤ 21) anchor.now
        → IsWritable ⟦<TrustAnchorChoice<Rfc5280> as Grammar>⟧.form (writes ⟦<TrustAnchorChoice<Rfc5280> as Encode>⟧.writing anchor.now) limit
        → Spells ⟦<TrustAnchorChoice<Rfc5280> as Grammar>⟧.form (writes ⟦<TrustAnchorChoice<Rfc5280> as Encode>⟧.writing anchor.now).value
        (written_spelling ⟦<TrustAnchorChoice<Rfc5280> as Grammar>⟧.form (writes ⟦<TrustAnchorChoice<Rfc5280> as Encode>⟧.writing anchor.now)) }
{
    rfc5280_dates_are_written_once();
    x509_der::laws::what_is_written_of_a_value_is_read_as_meant(anchor);
}

/// Under [`Raw`] it is decoded as the very anchor, whatever the serial numbers, where each bit of the policy flags has
/// a name.
pub fn raw_anchors_are_read_as_meant(anchor: &TrustAnchorChoice<Raw>)
    ensures { MadeAnchor (λ serial. Unit) anchor.now → length (spelling ⟦<TrustAnchorChoice<Raw> as Grammar>⟧.form anchor.now) ≤ limit
        → Spells ⟦<TrustAnchorChoice<Raw> as Grammar>⟧.form anchor.now (spelling ⟦<TrustAnchorChoice<Raw> as Grammar>⟧.form anchor.now) }
{
    anchor.has_spelling();
}

/// `==` of policy flags, and of versions, holds exactly of equal values: of flags, where they have the same bits.
#[tactic(auto, using(crate::specs::AnchorEquality::exact_version, crate::specs::AnchorEquality::exact_cert_policies))]
pub fn equality_of_policy_flags_is_exact()
    ensures versions { (a b : Version) → (⟦<Version as PartialEq>⟧.eq a b ≡ true) ↔ (a ≡ b) }
    ensures flags { (a b : CertPolicies) → (⟦<CertPolicies as PartialEq>⟧.eq a b ≡ true) ↔ (a ≡ b) }
{}

/// Under every profile `==` of trust anchors, of their descriptions and of the constraints on paths from them holds
/// exactly of equal values. Dates in two spellings differ, and so do serial numbers with other octets.
pub fn equality_of_anchors_is_exact<P: Profile>()
    ensures controls { (a b : CertPathControls P) → (⟦<CertPathControls<P> as PartialEq>⟧.eq a b ≡ true) ↔ (a ≡ b) }
    ensures info { (a b : TrustAnchorInfo P) → (⟦<TrustAnchorInfo<P> as PartialEq>⟧.eq a b ≡ true) ↔ (a ≡ b) }
    ensures anchor { (a b : TrustAnchorChoice P) → (⟦<TrustAnchorChoice<P> as PartialEq>⟧.eq a b ≡ true) ↔ (a ≡ b) }
{}
