//! PKCS #10 requests (CSRs).

ghost use Rattle.std.specs.Prelude.{◌≡◌, ◌<◌, ◌≤◌, ◌⊎◌, length, IfOk, IfErr, IsErrAnd};
ghost use Rattle.x509_cert.specs.AttributeLookUp.{FindsValue, with_type};
ghost use Rattle.x509_cert.specs.CertReq.{cert_req};
ghost use Rattle.x509_cert.specs.Identifiers.{pkcs_9};
ghost use Rattle.x509_cert.specs.declared.request.cert_req.CertReq.{CertReq};
ghost use Rattle.x509_der.specs.Element.{limit};
ghost use Rattle.x509_der.specs.declared.error.ErrorKind.TheVariants as errors;
ghost use Rattle.x509_der.specs.Form.{Spells};

use crate::request::extension_req::ExtensionReq;
use crate::request::look_up::get_attribute;
use crate::request::version::Version;
use std::alloc::Global;
use std::cmp::Ordering;
use x509_base::{AlgorithmIdentifier, SubjectPublicKeyInfo};
use x509_der::{
    AssociatedOid, CmpPart, Content, Decode, EncodingOrd, Error, Grammar, PutPart, Room, SetMember,
    SetOrd, Spelled, Tag, TryClone, ValueOrd, both, both_implicit, end, implicit, read_field,
    read_implicit,
};
use x509_name::attr::Attributes;
use x509_name::name::Name;
use x509_prim::BitString;

/// The part of a CSR that is signed: the subject, its public key and attributes (RFC 2986 4.1).
///
/// ```text
/// CertificationRequestInfo ::= SEQUENCE {
///     version        INTEGER { v1(0) },
///     subject        Name,
///     subjectPKInfo  SubjectPublicKeyInfo,
///     attributes     [0] IMPLICIT Attributes }
/// ```
#[derive(Debug, PartialEq, Eq)]
pub struct CertReqInfo {
    /// The version of the CSR.
    pub version: Version,

    /// The subject of the certificate that is asked for.
    pub subject: Name,

    /// The key that is to be certified.
    pub public_key: SubjectPublicKeyInfo,

    /// The attributes, such as the extensions that are asked for. The set is encoded where it is empty too.
    pub attributes: Attributes,
}

impl Drop for CertReqInfo {
    fn drop(self) {
        let CertReqInfo {
            version: _,
            subject: _,
            public_key: _,
            attributes: _,
        } = self;
    }
}

impl TryClone for CertReqInfo {
    fn try_clone(&self, alloc: Global) -> Result<CertReqInfo, Error> {
        Ok(CertReqInfo {
            version: self.version,
            subject: self.subject.try_clone(alloc)?,
            public_key: self.public_key.try_clone(alloc)?,
            attributes: self.attributes.try_clone(alloc)?,
        })
    }
}

#[tactic(auto, unfolding(crate::specs::CertReq::cert_req_info_fields, x509_der::specs::Frames::fields_reading, x509_der::specs::Frames::fields_octets))]
impl Content for CertReqInfo {
    ghost use Rattle.x509_cert.specs.CertReq as grammar;
    ghost use Rattle.x509_der.specs.declared.tag.Tag.TheVariants.{Sequence};

    ghost contents = { grammar.cert_req_info_contents };

    ghost IDENTIFIER = { Sequence };

    const IDENTIFIER: Tag = Tag::Sequence;

    fn read_content(alloc: Global, octets: &[u8]) -> Result<CertReqInfo, Error> {
        let mut rest = octets;
        let version = read_field::<Version>(alloc, &mut rest)?;
        let subject = read_field::<Name>(alloc, &mut rest)?;
        let public_key = read_field::<SubjectPublicKeyInfo>(alloc, &mut rest)?;
        let attributes = read_implicit::<Attributes>(alloc, 0, &mut rest)?;
        end(rest)?;
        Ok(CertReqInfo {
            version,
            subject,
            public_key,
            attributes,
        })
    }

    fn write_content<R: Room>(&self, room: &mut R) -> Result<(), Error> {
        let parts = (
            &self.version,
            (
                &self.subject,
                (&self.public_key, implicit(0, &self.attributes)),
            ),
        );
        parts.put_part(room)
    }

    ghost contents_lawful = { grammar.cert_req_info_contents_lawful };
}

impl ValueOrd for CertReqInfo {
    ghost use Rattle.x509_cert.specs.CertReq as grammar;

    ghost order = { grammar.cert_req_info_order };

    #[tactic(auto, unfolding(x509_der::specs::Element::element))]
    fn value_cmp(&self, other: &CertReqInfo) -> Ordering {
        let parts = (
            both(&self.version, &other.version),
            (
                both(&self.subject, &other.subject),
                (
                    both(&self.public_key, &other.public_key),
                    both_implicit(0, &self.attributes, &other.attributes),
                ),
            ),
        );
        parts.cmp_part(None, None)
    }

    ghost ordered = { grammar.cert_req_info_ordered };
}

impl SetOrd for CertReqInfo {
    ghost set_order = { ⟦<CertReqInfo as EncodingOrd>⟧.encoding_order };
}

impl SetMember for CertReqInfo {
    ghost use Rattle.std.specs.Prelude.{refl};

    ghost in_der_order = { refl };
}

#[tactic(auto, unfolding(crate::specs::CertReq::cert_req_info_fields, x509_der::specs::Frames::fields_good))]
impl Spelled for CertReqInfo {
    fn has_spelling(&self) {
        self.version.has_spelling();
        self.subject.has_spelling();
        self.public_key.has_spelling();
        self.attributes.has_spelling();
    }
}

/// A PKCS #10 request (CSR): a request for a certificate, signed with the key that is to be certified (RFC 2986 4.2).
/// The signature isn't checked.
///
/// ```text
/// CertificationRequest ::= SEQUENCE {
///     certificationRequestInfo  CertificationRequestInfo,
///     signatureAlgorithm        AlgorithmIdentifier,
///     signature                 BIT STRING }
/// ```
///
/// Whether a CSR asks for an empty list of extensions, and has no challenge password:
///
/// ```rust
/// let request = CertReq::try_from_bytes(rt.alloc(), REQUEST)?;
///
/// let password = request.get_attribute::<ChallengePassword>(rt.alloc())?;
/// Ok(match request.extension_req(rt.alloc())? {
///     Some(asked) => asked.0.is_empty() && password.is_none(),
///     None => false,
/// })
/// ```
#[derive(Debug, PartialEq, Eq)]
pub struct CertReq {
    /// The part that is signed.
    pub info: CertReqInfo,

    /// The algorithm of the signature.
    pub algorithm: AlgorithmIdentifier,

    /// The signature.
    pub signature: BitString,
}

impl Drop for CertReq {
    fn drop(self) {
        let CertReq {
            info: _,
            algorithm: _,
            signature: _,
        } = self;
    }
}

impl CertReq {
    /// The CSR of which the bytes are the encoding, as [`Decode::from_der`] answers it.
    ///
    /// # Errors
    ///
    /// `Overlength` exactly where the bytes are more than [`Length::MAX`](x509_der::Length::MAX). Within that
    /// length `Malformed` exactly where they are the encoding of no CSR. `Memory` when out of memory.
    pub fn try_from_bytes(alloc: Global, bytes: &[u8]) -> Result<CertReq, Error>
        ensures found { IfOk result (λ request. Spells cert_req request bytes.now) }
        ensures value { (request : CertReq) → Spells cert_req request bytes.now → IfOk result (λ found. found ≡ request) }
        ensures only { (request : CertReq) → Spells cert_req request bytes.now → IfErr result (λ e. e.kind ≡ errors.Memory) }
        ensures overlength { limit < length bytes.now → IsErrAnd result (λ e. e.kind ≡ errors.Overlength) }
        ensures refused { length bytes.now ≤ limit → IfErr result (λ e. (e.kind ≡ errors.Memory) ⊎ (e.kind ≡ errors.Malformed)) }
    {
        CertReq::from_der(alloc, bytes)
    }

    /// The value of the attribute of type `T`, found by the OID of the type, such as
    /// [`ChallengePassword`](crate::request::attributes::ChallengePassword); `None` exactly where no attribute has the
    /// OID.
    ///
    /// # Errors
    ///
    /// Those of [`get_attribute`].
    pub fn get_attribute<T: AssociatedOid + Decode>(
        &self,
        alloc: Global,
    ) -> Result<Option<T>, Error>
        ensures { FindsValue T.form T.refuses T.wants_memory (with_type T.OID self.now.info.attributes) result }
    {
        get_attribute(alloc, &self.info.attributes)
    }

    /// The extensions that are asked for (RFC 2985 5.4.2); `None` exactly where no attribute asks for extensions.
    ///
    /// # Errors
    ///
    /// `Failed` exactly where two or more attributes ask for extensions, or where the only one has no value, or two or
    /// more. Else `Malformed` exactly where its only value is no [`ExtensionReq`]. `Memory` when out of memory.
    pub fn extension_req(&self, alloc: Global) -> Result<Option<ExtensionReq>, Error>
        ensures { FindsValue ⟦<ExtensionReq as Grammar>⟧.form ⟦<ExtensionReq as Grammar>⟧.refuses ⟦<ExtensionReq as Decode>⟧.wants_memory
            (with_type (pkcs_9 14) self.now.info.attributes) result }
    {
        get_attribute(alloc, &self.info.attributes)
    }
}

impl TryClone for CertReq {
    fn try_clone(&self, alloc: Global) -> Result<CertReq, Error> {
        Ok(CertReq {
            info: self.info.try_clone(alloc)?,
            algorithm: self.algorithm.try_clone(alloc)?,
            signature: self.signature.try_clone(alloc)?,
        })
    }
}

#[tactic(auto, unfolding(crate::specs::CertReq::cert_req_fields, x509_der::specs::Frames::fields_reading, x509_der::specs::Frames::fields_octets))]
impl Content for CertReq {
    ghost use Rattle.x509_cert.specs.CertReq as grammar;
    ghost use Rattle.x509_der.specs.declared.tag.Tag.TheVariants.{Sequence};

    ghost contents = { grammar.cert_req_contents };

    ghost IDENTIFIER = { Sequence };

    const IDENTIFIER: Tag = Tag::Sequence;

    fn read_content(alloc: Global, octets: &[u8]) -> Result<CertReq, Error> {
        let mut rest = octets;
        let info = read_field::<CertReqInfo>(alloc, &mut rest)?;
        let algorithm = read_field::<AlgorithmIdentifier>(alloc, &mut rest)?;
        let signature = read_field::<BitString>(alloc, &mut rest)?;
        end(rest)?;
        Ok(CertReq {
            info,
            algorithm,
            signature,
        })
    }

    fn write_content<R: Room>(&self, room: &mut R) -> Result<(), Error> {
        let parts = (&self.info, (&self.algorithm, &self.signature));
        parts.put_part(room)
    }

    ghost contents_lawful = { grammar.cert_req_contents_lawful };
}

impl ValueOrd for CertReq {
    ghost use Rattle.x509_cert.specs.CertReq as grammar;

    ghost order = { grammar.cert_req_order };

    fn value_cmp(&self, other: &CertReq) -> Ordering {
        let parts = (
            both(&self.info, &other.info),
            (
                both(&self.algorithm, &other.algorithm),
                both(&self.signature, &other.signature),
            ),
        );
        parts.cmp_part(None, None)
    }

    ghost ordered = { grammar.cert_req_ordered };
}

impl SetOrd for CertReq {
    ghost set_order = { ⟦<CertReq as EncodingOrd>⟧.encoding_order };
}

impl SetMember for CertReq {
    ghost use Rattle.std.specs.Prelude.{refl};

    ghost in_der_order = { refl };
}

#[tactic(auto, unfolding(crate::specs::CertReq::cert_req_fields, x509_der::specs::Frames::fields_good))]
impl Spelled for CertReq {
    fn has_spelling(&self) {
        self.info.has_spelling();
        self.algorithm.has_spelling();
        self.signature.has_spelling();
    }
}
