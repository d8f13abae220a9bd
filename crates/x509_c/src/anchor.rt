//! What trust anchors say.

ghost use Rattle.std.specs.Prelude.{◌≡◌, []};
ghost use Rattle.x509_c_calls.specs.Anchors.{IsAnchor};
ghost use Rattle.x509_c_calls.specs.Controls.{IsControls};
ghost use Rattle.x509_c_calls.specs.Calls.{Reads};
ghost use Rattle.x509_c_calls.specs.Status.{Tells};

use std::alloc::Global;
use x509_base::Rfc5280;
use x509_c_calls::{AnchorView, PathControlsView, payload};
use x509_cert::anchor::{CertPathControls, TrustAnchorChoice};
use x509_der::Grammar;

/// Decodes a trust anchor under the rules of RFC 5280, and fills in what it says and where its parts stand.
#[unsafe(no_mangle)]
pub extern "C" fn x509_anchor_view(alloc: Global, input: &[u8], view: &mut AnchorView) -> i32
    ensures { Tells (λ status. Reads ⟦<TrustAnchorChoice<Rfc5280> as Grammar>⟧.form ⟦<TrustAnchorChoice<Rfc5280> as Grammar>⟧.refuses input.now
        (λ anchor. IsAnchor input.now anchor [] view.new) (view.new ≡ view.old) status) result }
{
    payload::<AnchorView>(alloc, input, view).code()
}

/// Decodes the constraints on the paths from an anchor, and fills in what they say and where their parts stand.
#[unsafe(no_mangle)]
pub extern "C" fn x509_path_controls_view(
    alloc: Global,
    input: &[u8],
    view: &mut PathControlsView,
) -> i32
    ensures { Tells (λ status. Reads ⟦<CertPathControls<Rfc5280> as Grammar>⟧.form ⟦<CertPathControls<Rfc5280> as Grammar>⟧.refuses input.now
        (λ controls. IsControls input.now controls [] view.new) (view.new ≡ view.old) status) result }
{
    payload::<PathControlsView>(alloc, input, view).code()
}
