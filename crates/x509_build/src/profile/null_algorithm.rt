//! What stands in place of an algorithm that isn't known yet.

ghost use Rattle.std.specs.Prelude.{◌≡◌};
ghost use Rattle.x509_build.specs.Parts.{no_algorithm};

use x509_base::AlgorithmIdentifier;
use x509_der::{ObjectIdentifier, oid};

/// 0.0.0, which names no algorithm.
const NULL_OID: ObjectIdentifier = oid!(0, 0);

/// 0.0.0 without parameters, which stands in a part until a signer's algorithm is known. It takes no memory.
pub fn no_algorithm() -> AlgorithmIdentifier
    ensures { result ≡ no_algorithm }
{
    AlgorithmIdentifier {
        oid: NULL_OID,
        parameters: None,
    }
}
