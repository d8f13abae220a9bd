//! What is asked of the certificates of OCSP responders.

ghost use Rattle.std.specs.Prelude.{◌≡◌};
ghost use Rattle.x509_lint_web.specs.Responder as grammar;

use crate::usages::{has_bit_not_of_ec, signs_as_authority};
use x509_der::{AssociatedOid, ObjectIdentifier, oid};
use x509_ext::pkix::KeyUsage;

/// The type of id-pkix-ocsp-nocheck (RFC 6960 4.2.2.2.1).
pub(crate) struct OcspNoCheck;

impl AssociatedOid for OcspNoCheck {
    ghost use Rattle.x509_lint.specs.OtherTypes.{ocsp_no_check};

    ghost OID = { ocsp_no_check };

    const OID: ObjectIdentifier = oid!(0x2B, 0x06, 0x01, 0x05, 0x05, 0x07, 0x30, 0x01, 0x05);
}

/// Whether digitalSignature isn't set, or another bit is.
pub(crate) fn has_bit_not_of_responder(usage: &KeyUsage) -> bool
    ensures { result ≡ grammar.is_not_of_responder usage.now }
{
    !usage.digital_signature()
        || (has_bit_not_of_ec(usage) || (usage.key_agreement() || signs_as_authority(usage)))
}
