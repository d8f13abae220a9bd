//! What is asked of precertificates, and of authorities that sign them.

ghost use Rattle.std.specs.Prelude.{◌≡◌};
ghost use Rattle.x509_lint_web.specs.Precertificate as grammar;

use crate::scope::{has_purpose, is_authority};
use crate::usages::PRECERTIFICATE_SIGNING;
use crate::values::WebValues;
use x509_der::{AssociatedOid, ObjectIdentifier, oid};

/// The type of the poison of a precertificate (RFC 6962 3.1).
pub(crate) struct PrecertificatePoison;

impl AssociatedOid for PrecertificatePoison {
    ghost use Rattle.x509_lint.specs.OtherTypes.{precertificate_poison};

    ghost OID = { precertificate_poison };

    const OID: ObjectIdentifier = oid!(0x2B, 0x06, 0x01, 0x04, 0x01, 0xD6, 0x79, 0x02, 0x04, 0x03);
}

/// The type of lists of SCTs (RFC 6962 3.3).
pub(crate) struct TimestampList;

impl AssociatedOid for TimestampList {
    ghost use Rattle.x509_lint_web.specs.Precertificate.{timestamp_list};

    ghost OID = { timestamp_list };

    const OID: ObjectIdentifier = oid!(0x2B, 0x06, 0x01, 0x04, 0x01, 0xD6, 0x79, 0x02, 0x04, 0x02);
}

/// Whether cA is set, and the EKU is read and has the purpose of those who sign precertificates.
pub(crate) fn is_signer(values: &WebValues) -> bool
    ensures { result ≡ grammar.is_signer values.now }
{
    is_authority(values) && has_purpose(PRECERTIFICATE_SIGNING, &values.extended_key_usage)
}
