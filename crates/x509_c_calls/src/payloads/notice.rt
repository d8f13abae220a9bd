//! User notices, which qualify policies.

ghost use Rattle.std.specs.Prelude.{◌≡◌, ◌≤◌, ◌++◌, drop, length, List, ℕ};
ghost use Rattle.x509_c_calls.specs.Notices.{IsReference, reference_text};

use crate::payloads::calls::View;
use crate::payloads::walk::{NOWHERE, step_optional};
use crate::{Span, enter, step};
use x509_ext::pkix::certpolicy::{NoticeReference, UserNotice};

/// A user notice (RFC 5280 4.2.1.4). An absent part has offset 0 and length 0.
#[derive(Clone, Copy)]
#[repr(C)]
pub struct UserNoticeView {
    /// Where the organization of its reference stands, the whole element of a text.
    pub organization: Span,

    /// Where the numbers of its reference stand, a whole SEQUENCE.
    pub notice_numbers: Span,

    /// Where its text stands, a whole element.
    pub explicit_text: Span,
}

/// Steps over the reference of a notice, and answers where its organization and its numbers stand.
fn step_reference(input: &[u8], at: &mut usize, reference: &Option<NoticeReference>) -> (Span, Span)
    requires { at.old ≤ length input.now }
    ensures within { at.new ≤ length input.now }
    ensures stands { (more : List ℕ) → drop at.old input.now ≡ reference_text reference.now ++ more
        → IsReference reference.now more input.now result.0 result.1 × (drop at.new input.now ≡ more) }
{
    match reference {
        None => (NOWHERE, NOWHERE),
        Some(reference) => {
            let mut inside = *at;
            enter(input, &mut inside);
            step(input, at, true);
            let organization = step(input, &mut inside, true);
            let numbers = step_optional(input, &mut inside, reference.notice_numbers.is_some());
            (organization, numbers)
        }
    }
}

impl View for UserNoticeView {
    ghost use Rattle.x509_c_calls.specs.Notices.{IsUserNotice};

    type Value = UserNotice;

    ghost shows = { IsUserNotice };

    fn view(input: &[u8], place: usize, value: &UserNotice) -> UserNoticeView {
        let mut at = place;
        enter(input, &mut at);
        let (organization, notice_numbers) = step_reference(input, &mut at, &value.notice_ref);
        UserNoticeView {
            organization,
            notice_numbers,
            explicit_text: step_optional(input, &mut at, value.explicit_text.is_some()),
        }
    }
}
