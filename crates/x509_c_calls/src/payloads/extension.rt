//! The extensions of a certificate, of a CRL or of a CSR, one after the other.

ghost use Rattle.std.specs.Prelude.{◌≡◌};
ghost use Rattle.x509_c_calls.specs.PayloadExtensions.{flag};

use crate::payloads::calls::View;
use crate::payloads::walk::step_content;
use crate::{Span, enter, step};
use x509_ext::Extension;

/// An extension (RFC 5280 4.2), by its place in the bytes of a list of extensions.
#[derive(Clone, Copy)]
#[repr(C)]
pub struct ExtensionEntry {
    /// Where the content octets of its OID stand.
    pub oid: Span,

    /// 1 where it is critical, else 0.
    pub critical: u32,

    /// Where its value stands: what the OCTET STRING holds.
    pub value: Span,
}

/// 1 for true.
pub(crate) fn flag(is_set: bool) -> u32
    ensures { result ≡ flag is_set }
{
    if is_set { 1 } else { 0 }
}

impl View for ExtensionEntry {
    ghost use Rattle.x509_c_calls.specs.PayloadExtensions.{IsExtensionEntry};

    type Value = Extension;

    ghost shows = { IsExtensionEntry };

    fn view(input: &[u8], place: usize, value: &Extension) -> ExtensionEntry {
        let mut at = place;
        enter(input, &mut at);
        let oid = step_content(input, &mut at);
        step(input, &mut at, value.critical);
        ExtensionEntry {
            oid,
            critical: flag(value.critical),
            value: enter(input, &mut at),
        }
    }
}
