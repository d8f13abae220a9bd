//! Where the parts of a TrustAnchorInfo stand.

ghost use Rattle.std.specs.Prelude.{◌≡◌, ◌≤◌, ◌++◌, drop, length, List, ℕ};
ghost use Rattle.x509_c_calls.specs.Infos.{IsControlled, controls_text};
ghost use Rattle.x509_base.specs.declared.profile.Rfc5280.{Rfc5280};

use crate::{NOWHERE, Span, View, enter, step, step_content, step_optional, step_optional_content};
use x509_base::Rfc5280;
use x509_cert::anchor::{CertPathControls, TrustAnchorInfo};

/// A description of a trust anchor (RFC 5914 2), by its places. An absent part has offset 0 and length 0.
#[derive(Clone, Copy)]
pub struct InfoView {
    /// The public key, with its algorithm.
    pub subject_public_key_info: Span,

    /// The octets of the key identifier.
    pub key_identifier: Span,

    /// The octets of the title, in UTF-8.
    pub title: Span,

    /// The name, as the constraints on paths have it.
    pub name: Span,

    /// The constraints on paths, a whole CertPathControls.
    pub controls: Span,

    /// The extensions, a SEQUENCE.
    pub extensions: Span,

    /// The octets of the language of the title.
    pub title_language: Span,
}

/// Steps over the constraints on paths, and answers where they stand, and where the name stands that they begin with.
fn step_controls(
    input: &[u8],
    at: &mut usize,
    controls: &Option<CertPathControls<Rfc5280>>,
) -> (Span, Span)
    requires { at.old ≤ length input.now }
    ensures within { at.new ≤ length input.now }
    ensures stands { (more : List ℕ) → drop at.old input.now ≡ controls_text controls.now ++ more
        → IsControlled controls.now more input.now result.0 result.1 × (drop at.new input.now ≡ more) }
{
    match controls {
        None => (NOWHERE, NOWHERE),
        Some(_controls) => {
            let mut inside = *at;
            enter(input, &mut inside);
            (step(input, at, true), step(input, &mut inside, true))
        }
    }
}

impl View for InfoView {
    ghost use Rattle.x509_c_calls.specs.Infos.{IsInfo};

    type Value = TrustAnchorInfo<Rfc5280>;

    ghost shows = { IsInfo };

    fn view(input: &[u8], place: usize, value: &TrustAnchorInfo<Rfc5280>) -> InfoView {
        let mut at = place;
        enter(input, &mut at);
        let subject_public_key_info = step(input, &mut at, true);
        let key_identifier = step_content(input, &mut at);
        let title = step_optional_content(input, &mut at, value.ta_title.is_some());
        let (controls, name) = step_controls(input, &mut at, &value.cert_path);
        InfoView {
            subject_public_key_info,
            key_identifier,
            title,
            name,
            controls,
            extensions: step_optional_content(input, &mut at, value.extensions.is_some()),
            title_language: step_optional_content(
                input,
                &mut at,
                value.ta_title_lang_tag.is_some(),
            ),
        }
    }
}
