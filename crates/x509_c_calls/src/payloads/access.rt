//! Where more is found out about the issuer and the subject.

use crate::payloads::calls::View;
use crate::payloads::general_name::GeneralNameView;
use crate::payloads::walk::step_content;
use crate::{Span, enter};
use x509_ext::pkix::AccessDescription;

/// By which means something is found out, and where (RFC 5280 4.2.2.1).
#[derive(Clone, Copy)]
#[repr(C)]
pub struct AccessView {
    /// Where the content octets of the identifier of the means stand.
    pub method: Span,

    /// Where it is found out.
    pub location: GeneralNameView,
}

impl View for AccessView {
    ghost use Rattle.x509_c_calls.specs.Access.{IsAccess};

    type Value = AccessDescription;

    ghost shows = { IsAccess };

    fn view(input: &[u8], place: usize, value: &AccessDescription) -> AccessView {
        let mut at = place;
        enter(input, &mut at);
        AccessView {
            method: step_content(input, &mut at),
            location: GeneralNameView::view(input, at, &value.access_location),
        }
    }
}
