//! The authority key identifier, AKI.

ghost use Rattle.sha1.specs.Sha1.{sha1};
ghost use Rattle.std.specs.Prelude.{◌≡◌, Some, None, IsOkAnd};

use crate::pkix::key_identifier;
use crate::pkix::name::GeneralNames;
use crate::{FixedCriticality, Never};
use std::alloc::Global;
use x509_base::{SerialNumber, SubjectPublicKeyInfoRef};
use x509_der::{
    AssociatedOid, Content, Error, ObjectIdentifier, PutPart, Room, Spelled, Tag, TryClone, end,
    oid, option_has_spelling, optional_implicit, read_optional_implicit,
};
use x509_prim::OctetString;

/// The authority key identifier, AKI: it tells which key signed the certificate (RFC 5280 4.2.1.1). Its OID is
/// 2.5.29.35, and it isn't critical.
///
/// ```text
/// AuthorityKeyIdentifier ::= SEQUENCE {
///     keyIdentifier              [0] IMPLICIT OCTET STRING OPTIONAL,
///     authorityCertIssuer        [1] IMPLICIT GeneralNames OPTIONAL,
///     authorityCertSerialNumber  [2] IMPLICIT CertificateSerialNumber OPTIONAL }
/// ```
#[derive(Debug, PartialEq, Eq)]
pub struct AuthorityKeyIdentifier {
    /// The key identifier, as in the SKI of the issuer's certificate.
    pub key_identifier: Option<OctetString>,

    /// The issuer of a certificate for that key.
    pub authority_cert_issuer: Option<GeneralNames>,

    /// The serial number of that certificate.
    pub authority_cert_serial_number: Option<SerialNumber>,
}

impl Drop for AuthorityKeyIdentifier {
    fn drop(self) {
        let AuthorityKeyIdentifier {
            key_identifier: _,
            authority_cert_issuer: _,
            authority_cert_serial_number: _,
        } = self;
    }
}

impl AuthorityKeyIdentifier {
    /// The key identifier alone: the SHA-1 digest of the octets that hold the key's bits (RFC 5280 4.2.1.2, method 1).
    /// It takes no memory.
    ///
    /// # Errors
    ///
    /// None: it is never refused.
    pub fn from_key(
        alloc: Global,
        key: SubjectPublicKeyInfoRef<'_>,
    ) -> Result<AuthorityKeyIdentifier, Error>
        ensures { IsOkAnd result (λ identifier. identifier ≡ record {
          key_identifier = Some
              (sha1 key.entry.subject_public_key.now.octets);
          authority_cert_issuer = None;
          authority_cert_serial_number = None;
        }) }
    {
        Ok(AuthorityKeyIdentifier {
            key_identifier: Some(key_identifier(alloc, key)?),
            authority_cert_issuer: None,
            authority_cert_serial_number: None,
        })
    }
}

/// All fields are absent.
impl Default for AuthorityKeyIdentifier {
    ghost is_default = { λ identifier. identifier ≡ record { key_identifier = None; authority_cert_issuer = None; authority_cert_serial_number = None } };

    fn default() -> AuthorityKeyIdentifier {
        AuthorityKeyIdentifier {
            key_identifier: None,
            authority_cert_issuer: None,
            authority_cert_serial_number: None,
        }
    }
}

impl AssociatedOid for AuthorityKeyIdentifier {
    ghost use Rattle.x509_ext.specs.Identifiers.{id_ce};

    ghost OID = { id_ce 35 };

    const OID: ObjectIdentifier = oid!(0x55, 0x1D, 35);
}

impl FixedCriticality for AuthorityKeyIdentifier {
    type Critical = Never;
}

impl TryClone for AuthorityKeyIdentifier {
    fn try_clone(&self, alloc: Global) -> Result<AuthorityKeyIdentifier, Error> {
        Ok(AuthorityKeyIdentifier {
            key_identifier: self.key_identifier.try_clone(alloc)?,
            authority_cert_issuer: self.authority_cert_issuer.try_clone(alloc)?,
            authority_cert_serial_number: self.authority_cert_serial_number.try_clone(alloc)?,
        })
    }
}

#[tactic(auto, unfolding(crate::specs::AuthorityKeyIdentifier::authority_key_identifier_fields, x509_der::specs::Frames::fields_reading, x509_der::specs::Frames::fields_octets))]
impl Content for AuthorityKeyIdentifier {
    ghost use Rattle.x509_der.specs.declared.tag.Tag.TheVariants.{Sequence};
    ghost use Rattle.x509_ext.specs.AuthorityKeyIdentifier as grammar;

    ghost contents = { grammar.authority_key_identifier_contents };

    ghost IDENTIFIER = { Sequence };

    const IDENTIFIER: Tag = Tag::Sequence;

    fn read_content(alloc: Global, octets: &[u8]) -> Result<AuthorityKeyIdentifier, Error> {
        let mut rest = octets;
        let key_identifier = read_optional_implicit::<OctetString>(alloc, 0, &mut rest)?;
        let authority_cert_issuer = read_optional_implicit::<GeneralNames>(alloc, 1, &mut rest)?;
        let authority_cert_serial_number = read_optional_implicit::<SerialNumber>(
            alloc, 2, &mut rest,
        )?;
        end(rest)?;
        Ok(AuthorityKeyIdentifier {
            key_identifier,
            authority_cert_issuer,
            authority_cert_serial_number,
        })
    }

    fn write_content<R: Room>(&self, room: &mut R) -> Result<(), Error> {
        let parts = (
            optional_implicit(0, &self.key_identifier),
            (
                optional_implicit(1, &self.authority_cert_issuer),
                optional_implicit(2, &self.authority_cert_serial_number),
            ),
        );
        parts.put_part(room)
    }

    ghost contents_lawful = { grammar.authority_key_identifier_contents_lawful };
}

#[tactic(auto, unfolding(crate::specs::AuthorityKeyIdentifier::authority_key_identifier_fields, x509_der::specs::Frames::fields_good))]
impl Spelled for AuthorityKeyIdentifier {
    ghost use Rattle.std.specs.Prelude.{◌≡◌, ℕ, List, Some, Ok};
    ghost use Rattle.x509_base.specs.Profiles.{rfc5280_serial_number};

    ghost premise = { λ key. (serial : List ℕ) → key.authority_cert_serial_number ≡ Some serial → rfc5280_serial_number serial ≡ Ok tt };

    fn has_spelling(&self) {
        option_has_spelling(&self.key_identifier);
        option_has_spelling(&self.authority_cert_issuer);
        option_has_spelling(&self.authority_cert_serial_number);
    }
}
