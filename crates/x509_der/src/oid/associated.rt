//! Types that have an OID.

ghost use Rattle.x509_der.specs.declared.oid.identifier.ObjectIdentifier.{ObjectIdentifier};

use crate::oid::identifier::ObjectIdentifier;

/// A type that has an object identifier (OID), as a certificate's extension or an algorithm's parameters have.
pub trait AssociatedOid {
    /// The OID of the type, as clauses see it.
    ghost OID: { ObjectIdentifier };

    /// The OID of the type.
    const OID: ObjectIdentifier;
}
