//! Where the parts of a TBSCertificate stand that an anchor is told by.

use crate::{Span, View, enter, is_written, step, step_optional_content};
use x509_base::Rfc5280;
use x509_cert::certificate::TbsCertificateInner;

/// The name and the key of a TBSCertificate, and its extensions (RFC 5280 4.1.2), by their places.
#[derive(Clone, Copy)]
pub struct PartView {
    /// The name of the subject.
    pub subject: Span,

    /// The public key, with its algorithm.
    pub subject_public_key_info: Span,

    /// The extensions, a SEQUENCE; both numbers are 0 where they are left out.
    pub extensions: Span,
}

impl View for PartView {
    ghost use Rattle.x509_c_calls.specs.AnchorParts.{IsPart};

    type Value = TbsCertificateInner<Rfc5280>;

    ghost shows = { IsPart };

    fn view(input: &[u8], place: usize, value: &TbsCertificateInner<Rfc5280>) -> PartView {
        let mut at = place;
        enter(input, &mut at);
        step(input, &mut at, is_written(value.version()));
        step(input, &mut at, true);
        step(input, &mut at, true);
        step(input, &mut at, true);
        step(input, &mut at, true);
        let subject = step(input, &mut at, true);
        let subject_public_key_info = step(input, &mut at, true);
        step(input, &mut at, value.issuer_unique_id().is_some());
        step(input, &mut at, value.subject_unique_id().is_some());
        PartView {
            subject,
            subject_public_key_info,
            extensions: step_optional_content(input, &mut at, value.extensions().is_some()),
        }
    }
}
