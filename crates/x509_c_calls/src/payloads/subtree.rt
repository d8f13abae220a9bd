//! Constraints on names.

use crate::payloads::calls::View;
use crate::payloads::general_name::GeneralNameView;
use crate::payloads::number::optional_number;
use crate::payloads::walk::step_optional;
use crate::{Span, enter};
use x509_ext::pkix::NameConstraints;
use x509_ext::pkix::constraints::name::GeneralSubtree;

/// Which names are permitted below an authority, and which are excluded (RFC 5280 4.2.1.10). An absent part has offset 0 and length 0.
#[derive(Clone, Copy)]
#[repr(C)]
pub struct NameConstraintsView {
    /// Where the permitted subtrees stand, a whole element under the tag \[0\].
    pub permitted: Span,

    /// Where the excluded subtrees stand, a whole element under the tag \[1\].
    pub excluded: Span,
}

impl View for NameConstraintsView {
    ghost use Rattle.x509_c_calls.specs.Subtrees.{AreNameConstraints};

    type Value = NameConstraints;

    ghost shows = { AreNameConstraints };

    fn view(input: &[u8], place: usize, value: &NameConstraints) -> NameConstraintsView {
        let mut at = place;
        enter(input, &mut at);
        NameConstraintsView {
            permitted: step_optional(input, &mut at, value.permitted_subtrees.is_some()),
            excluded: step_optional(input, &mut at, value.excluded_subtrees.is_some()),
        }
    }
}

/// A subtree of names (RFC 5280 4.2.1.10).
#[derive(Clone, Copy)]
#[repr(C)]
pub struct SubtreeView {
    /// The name at its root.
    pub base: GeneralNameView,

    /// How far below the root it begins.
    pub minimum: u32,

    /// 1 where it ends somewhere, else 0.
    pub has_maximum: u32,

    /// How far below the root it ends; 0 where it doesn't.
    pub maximum: u32,
}

impl View for SubtreeView {
    ghost use Rattle.x509_c_calls.specs.Subtrees.{IsSubtree};

    type Value = GeneralSubtree;

    ghost shows = { IsSubtree };

    fn view(input: &[u8], place: usize, value: &GeneralSubtree) -> SubtreeView {
        let mut at = place;
        enter(input, &mut at);
        let (has_maximum, maximum) = optional_number(value.maximum);
        SubtreeView {
            base: GeneralNameView::view(input, at, &value.base),
            minimum: value.minimum,
            has_maximum,
            maximum,
        }
    }
}
