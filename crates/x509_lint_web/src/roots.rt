//! What is asked of the extensions of a root's certificate.

ghost use Rattle.std.specs.Prelude.{◌≡◌};
ghost use Rattle.x509_lint_web.specs.Root as grammar;

use x509_der::{ObjectIdentifier, oid};
use x509_ext::Extension;
use x509_lint::lists::Test;

/// The extensions that a root's certificate may have, or that have a rule of their own: SKI, KeyUsage, basic constraints,
/// CRLDistributionPoints, certificate policies, AKI, EKU and SCTs (TLS BR 7.1.2.1.2; RFC 6962 3.3).
const ROOT_EXTENSIONS: [ObjectIdentifier; 8] = [
    oid!(0x55, 0x1D, 14),
    oid!(0x55, 0x1D, 15),
    oid!(0x55, 0x1D, 19),
    oid!(0x55, 0x1D, 31),
    oid!(0x55, 0x1D, 32),
    oid!(0x55, 0x1D, 35),
    oid!(0x55, 0x1D, 37),
    oid!(0x2B, 0x06, 0x01, 0x04, 0x01, 0xD6, 0x79, 0x02, 0x04, 0x02),
];

fn is_of_roots(extension: ObjectIdentifier) -> bool
    ensures { result ≡ grammar.is_of_roots extension }
{
    ROOT_EXTENSIONS.contains(&extension)
}

/// That an extension is none of those that a root's certificate may have.
pub(crate) struct OtherExtension;

impl Test<Extension> for OtherExtension {
    ghost use Rattle.x509_lint_web.specs.Root.{is_other_extension};

    ghost holds_of = { λ test. is_other_extension };

    fn holds_of(&self, extension: &Extension) -> bool {
        !is_of_roots(extension.extn_id)
    }
}
