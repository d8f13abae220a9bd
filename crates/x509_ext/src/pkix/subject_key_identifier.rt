//! The subject key identifier, SKI.

ghost use Rattle.sha1.specs.Sha1.{sha1};
ghost use Rattle.std.specs.Prelude.{◌≡◌, IsOkAnd};

use crate::{FixedCriticality, Never};
use sha1::Sha1;
use std::alloc::Global;
use x509_base::SubjectPublicKeyInfoRef;
use x509_der::{
    AssociatedOid, EncodingOrd, Error, Newtype, NewtypeOrd, ObjectIdentifier, SetMember, SetOrd,
    oid,
};
use x509_prim::OctetString;

/// The OID of [`SubjectKeyIdentifier`], 2.5.29.14.
pub const ID_CE_SUBJECT_KEY_IDENTIFIER: ObjectIdentifier = oid!(0x55, 0x1D, 14);

/// The subject key identifier, SKI: it tells which key the certificate has (RFC 5280 4.2.1.2). Its OID is 2.5.29.14,
/// and it isn't critical.
///
/// ```text
/// SubjectKeyIdentifier ::= OCTET STRING
/// ```
#[derive(Debug, Drop, PartialEq, Eq)]
pub struct SubjectKeyIdentifier(pub OctetString);

/// The SHA-1 digest of the octets that hold the key's bits (RFC 5280 4.2.1.2, method 1). It takes no memory.
///
/// # Errors
///
/// None: it is never refused.
pub fn key_identifier(alloc: Global, key: SubjectPublicKeyInfoRef<'_>) -> Result<OctetString, Error>
    ensures { IsOkAnd result (λ identifier. identifier ≡ sha1 key.entry.subject_public_key.now.octets) }
{
    let digest = Sha1::digest(key.subject_public_key.raw_bytes());
    OctetString::new(alloc, &digest)
}

impl SubjectKeyIdentifier {
    /// The SKI of a key: the SHA-1 digest of the octets that hold its bits (RFC 5280 4.2.1.2, method 1). It takes no
    /// memory.
    ///
    /// # Errors
    ///
    /// None: it is never refused.
    pub fn from_key(
        alloc: Global,
        key: SubjectPublicKeyInfoRef<'_>,
    ) -> Result<SubjectKeyIdentifier, Error>
        ensures { IsOkAnd result (λ identifier. identifier.0 ≡ sha1 key.entry.subject_public_key.now.octets) }
    {
        Ok(SubjectKeyIdentifier(key_identifier(alloc, key)?))
    }
}

impl AssociatedOid for SubjectKeyIdentifier {
    ghost use Rattle.x509_ext.specs.Identifiers.{id_ce};

    ghost OID = { id_ce 14 };

    const OID: ObjectIdentifier = ID_CE_SUBJECT_KEY_IDENTIFIER;
}

impl FixedCriticality for SubjectKeyIdentifier {
    type Critical = Never;
}

impl Newtype for SubjectKeyIdentifier {
    ghost use Rattle.x509_ext.specs.SubjectKeyIdentifier.{subject_key_identifier_round};

    type Inner = OctetString;

    ghost round = { subject_key_identifier_round };

    fn inner(&self) -> &OctetString {
        &self.0
    }

    fn from_inner(inner: OctetString) -> SubjectKeyIdentifier {
        SubjectKeyIdentifier(inner)
    }
}

impl NewtypeOrd for SubjectKeyIdentifier {}

impl SetOrd for SubjectKeyIdentifier {
    ghost set_order = { ⟦<SubjectKeyIdentifier as EncodingOrd>⟧.encoding_order };
}

impl SetMember for SubjectKeyIdentifier {
    ghost use Rattle.std.specs.Prelude.{refl};

    ghost in_der_order = { refl };
}

impl From<OctetString> for SubjectKeyIdentifier {
    ghost from_gives = { λ octets identifier. identifier.0 ≡ octets };

    fn from(octets: OctetString) -> SubjectKeyIdentifier {
        SubjectKeyIdentifier(octets)
    }
}

impl From<SubjectKeyIdentifier> for OctetString {
    ghost from_gives = { λ identifier octets. octets ≡ identifier.0 };

    fn from(identifier: SubjectKeyIdentifier) -> OctetString {
        let SubjectKeyIdentifier(octets) = identifier;
        octets
    }
}

impl AsRef<OctetString> for SubjectKeyIdentifier {
    fn as_ref(&self) -> &OctetString
        ensures { result.now ≡ self.now.0 }
    {
        &self.0
    }
}

impl AsMut<OctetString> for SubjectKeyIdentifier {
    ghost use Rattle.std.specs.Borrow.{Lends, sem};
    ghost use Rattle.x509_ext.specs.contracts.pkix.subject_key_identifier.SubjectKeyIdentifier.{the_row};
    ghost use Rattle.x509_prim.specs.contracts.octet_string.OctetString as octet_string;

    fn as_mut(&mut self) -> &mut OctetString
        ensures* writes_back { sem 𝓛 (Lends the_row octet_string.the_row self.entry result (λ w. record { 0 = w })) }
        ensures value { result.now ≡ self.old.0 }
    {
        &mut self.0
    }
}
