//! The AKI: which key of the issuer signed.

use crate::payloads::calls::View;
use crate::payloads::walk::{step_optional, step_optional_content};
use crate::{Span, enter};
use x509_ext::pkix::AuthorityKeyIdentifier;

/// The AKI (RFC 5280 4.2.1.1): which key of the issuer signed. An absent part has offset 0 and length 0.
#[derive(Clone, Copy)]
#[repr(C)]
pub struct AuthorityKeyIdentifierView {
    /// Where the octets of the key's identifier stand.
    pub key_identifier: Span,

    /// Where the names of the issuer of a certificate of that key stand, a whole element under the tag \[1\].
    pub issuer: Span,

    /// Where the content octets of the serial number of that certificate stand.
    pub serial_number: Span,
}

impl View for AuthorityKeyIdentifierView {
    ghost use Rattle.x509_c_calls.specs.KeyIdentifiers.{IsAuthorityKeyIdentifier};

    type Value = AuthorityKeyIdentifier;

    ghost shows = { IsAuthorityKeyIdentifier };

    fn view(
        input: &[u8],
        place: usize,
        value: &AuthorityKeyIdentifier,
    ) -> AuthorityKeyIdentifierView {
        let mut at = place;
        enter(input, &mut at);
        AuthorityKeyIdentifierView {
            key_identifier: step_optional_content(input, &mut at, value.key_identifier.is_some()),
            issuer: step_optional(input, &mut at, value.authority_cert_issuer.is_some()),
            serial_number: step_optional_content(
                input,
                &mut at,
                value.authority_cert_serial_number.is_some(),
            ),
        }
    }
}
