//! The part of a certificate that is signed.

ghost use Rattle.std.specs.Option.{option_copied};
ghost use Rattle.std.specs.Prelude.{◌≡◌, IfErr, IfOk, None};
ghost use Rattle.x509_cert.specs.TbsCertificate as grammar;
ghost use Rattle.x509_cert.specs.declared.certificate.version.Version.TheVariants.{V3};
ghost use Rattle.x509_cert.specs.Without.{where_any, without_oid};
ghost use Rattle.x509_der.specs.Frames.{fields_reading};
ghost use Rattle.x509_der.specs.Outcome.{Gives, GivesBefore};
ghost use Rattle.x509_der.specs.declared.error.ErrorKind.TheVariants.{Memory};
ghost use Rattle.x509_ext.specs.Filter.{extensions_left};
ghost use Rattle.x509_ext.specs.LookUp.{Finds, members, with_oid};

use crate::certificate::version::Version;
use std::alloc::Global;
use std::cmp::Ordering;
use x509_base::{
    AlgorithmIdentifier, Profile, Rfc5280, SerialNumber, SubjectPublicKeyInfo, Validity,
};
use x509_der::{
    AssociatedOid, CmpPart, Content, Decode, Encode, EncodingOrd, Error, ObjectIdentifier, PutPart,
    Room, SetMember, SetOrd, Spelled, Tag, TryClone, ValueOrd, both, both_defaulted_explicit,
    both_optional_explicit, both_optional_implicit, defaulted_explicit, end, option_has_spelling,
    optional_explicit, optional_implicit, read_defaulted_explicit, read_field,
    read_optional_explicit, read_optional_implicit,
};
use x509_ext::{
    Extension, Extensions, FilterExtensions, filter_extensions, get_extension, members,
};
use x509_name::name::Name;
use x509_prim::BitString;

/// The signed part of a certificate under the profile [`Rfc5280`].
pub type TbsCertificate = TbsCertificateInner<Rfc5280>;

/// The part of a certificate that is signed: the subject, its public key, and what the issuer says of them (RFC 5280
/// 4.1.2). The profile checks the serial number in decoding, and says how the validity is encoded. That the fields are
/// those which the version allows isn't checked.
///
/// ```text
/// TBSCertificate ::= SEQUENCE {
///     version               [0] EXPLICIT Version DEFAULT v1,
///     serialNumber          CertificateSerialNumber,
///     signature             AlgorithmIdentifier,
///     issuer                Name,
///     validity              Validity,
///     subject               Name,
///     subjectPublicKeyInfo  SubjectPublicKeyInfo,
///     issuerUniqueID        [1] IMPLICIT UniqueIdentifier OPTIONAL,
///     subjectUniqueID       [2] IMPLICIT UniqueIdentifier OPTIONAL,
///     extensions            [3] EXPLICIT Extensions OPTIONAL }
///
/// UniqueIdentifier ::= BIT STRING
/// ```
#[derive(Debug, PartialEq, Eq)]
pub struct TbsCertificateInner<P: Profile = Rfc5280> {
    version: Version,
    serial_number: SerialNumber<P>,
    signature: AlgorithmIdentifier,
    issuer: Name,
    validity: Validity<P>,
    subject: Name,
    subject_public_key_info: SubjectPublicKeyInfo,
    issuer_unique_id: Option<BitString>,
    subject_unique_id: Option<BitString>,
    extensions: Option<Extensions>,
}

impl<P: Profile> TbsCertificateInner<P> {
    /// The signed part with these fields. It takes no memory.
    pub fn from_parts(
        version: Version,
        serial_number: SerialNumber<P>,
        signature: AlgorithmIdentifier,
        issuer: Name,
        validity: Validity<P>,
        subject: Name,
        subject_public_key_info: SubjectPublicKeyInfo,
        issuer_unique_id: Option<BitString>,
        subject_unique_id: Option<BitString>,
        extensions: Option<Extensions>,
    ) -> TbsCertificateInner<P>
        ensures { result ≡ record {
          version = version;
          serial_number = serial_number;
          signature = signature;
          issuer = issuer;
          validity = validity;
          subject =
              subject;
          subject_public_key_info = subject_public_key_info;
          issuer_unique_id = issuer_unique_id;
          subject_unique_id = subject_unique_id;
          extensions = extensions;
        } }
    {
        TbsCertificateInner {
            version,
            serial_number,
            signature,
            issuer,
            validity,
            subject,
            subject_public_key_info,
            issuer_unique_id,
            subject_unique_id,
            extensions,
        }
    }

    /// The signed part under that algorithm, of version 3, without unique identifiers and extensions: what an authority
    /// adds its extensions to. It takes no memory.
    pub fn into_bare(self, signature: AlgorithmIdentifier) -> TbsCertificateInner<P>
        ensures { result ≡ record self {
          version = V3;
          signature = signature;
          issuer_unique_id = None;
          subject_unique_id = None;
          extensions = None;
        } }
    {
        let mut part = self;
        part.version = Version::V3;
        part.signature = signature;
        part.issuer_unique_id = None;
        part.subject_unique_id = None;
        part.extensions = None;
        part
    }

    /// The signed part with that version, and with these extensions in place of its own. It takes no memory.
    pub fn with_extensions(
        self,
        version: Version,
        extensions: Option<Extensions>,
    ) -> TbsCertificateInner<P>
        ensures { result ≡ record self { version = version; extensions = extensions } }
    {
        let mut part = self;
        part.version = version;
        part.extensions = extensions;
        part
    }

    /// The signed part without the extensions of type `T`, found by the OID of the type. The others stay in their
    /// order, and where none is left the list of extensions is absent (RFC 5280 4.1). It takes no memory.
    ///
    /// Without its list of SCTs, or for a precertificate without its poison extension, it is what a log signs (RFC 6962
    /// 3.2).
    pub fn without_extension<T: AssociatedOid>(self) -> TbsCertificateInner<P>
        ensures { result ≡ record self { extensions = where_any (without_oid T.OID (members self.extensions)) } }
    {
        let mut part = self;
        part.extensions = match part.extensions.take() {
            Some(extensions) => list_of(others(extensions.into_vec(), T::OID)),
            None => None,
        };
        part
    }

    /// The version.
    pub fn version(&self) -> Version
        ensures { result ≡ self.now.version }
    {
        self.version
    }

    /// The serial number that the issuer gave the certificate (RFC 5280 4.1.2.2).
    pub fn serial_number(&self) -> &SerialNumber<P>
        ensures { result.now ≡ self.now.serial_number }
    {
        &self.serial_number
    }

    /// The algorithm with which the certificate is signed. RFC 5280 4.1.2.3 wants it to be that of
    /// [`CertificateInner::signature_algorithm`](crate::certificate::CertificateInner::signature_algorithm), which isn't checked.
    pub fn signature(&self) -> &AlgorithmIdentifier
        ensures { result.now ≡ self.now.signature }
    {
        &self.signature
    }

    /// The issuer, who signed the certificate (RFC 5280 4.1.2.4).
    pub fn issuer(&self) -> &Name
        ensures { result.now ≡ self.now.issuer }
    {
        &self.issuer
    }

    /// The validity: from when and until when the certificate is valid (RFC 5280 4.1.2.5).
    pub fn validity(&self) -> &Validity<P>
        ensures { result.now ≡ self.now.validity }
    {
        &self.validity
    }

    /// The subject, whose public key it is (RFC 5280 4.1.2.6).
    pub fn subject(&self) -> &Name
        ensures { result.now ≡ self.now.subject }
    {
        &self.subject
    }

    /// The public key of the subject (RFC 5280 4.1.2.7).
    pub fn subject_public_key_info(&self) -> &SubjectPublicKeyInfo
        ensures { result.now ≡ self.now.subject_public_key_info }
    {
        &self.subject_public_key_info
    }

    /// The unique identifier of the issuer, which tells it from others of its name (RFC 5280 4.1.2.8).
    pub fn issuer_unique_id(&self) -> &Option<BitString>
        ensures { result.now ≡ self.now.issuer_unique_id }
    {
        &self.issuer_unique_id
    }

    /// The unique identifier of the subject, which tells it from others of its name (RFC 5280 4.1.2.8).
    pub fn subject_unique_id(&self) -> &Option<BitString>
        ensures { result.now ≡ self.now.subject_unique_id }
    {
        &self.subject_unique_id
    }

    /// The extensions (RFC 5280 4.1.2.9).
    pub fn extensions(&self) -> Option<&Extensions>
        ensures { option_copied result ≡ self.now.extensions }
    {
        self.extensions.as_ref()
    }

    /// The extension of type `T`, found by the OID of the type: whether it is critical, and its value; `None` exactly
    /// where no extension has the OID. An extension may appear once at most (RFC 5280 4.2).
    ///
    /// # Errors
    ///
    /// `Failed` where two or more extensions have the OID (a repeated extension), whatever they hold. Where one has it,
    /// the errors of [`Decode::from_der`] on the octets that it holds, `Memory` only where decoding the type may take
    /// memory.
    pub fn get_extension<T: AssociatedOid + Decode>(
        &self,
        alloc: Global,
    ) -> Result<Option<(bool, T)>, Error>
        ensures { Finds T.form T.refuses T.wants_memory (with_oid T.OID (members self.now.extensions)) result }
    {
        get_extension::<T>(alloc, members(self.extensions()))
    }

    /// The extensions of type `T`, found by the OID of the type, in their order: of each whether it is critical, and
    /// its value or the error of [`Decode::from_der`] on its octets. [`TbsCertificateInner::get_extension`] wants that
    /// there is one at most, as RFC 5280 4.2 does.
    pub fn filter_extensions<T: AssociatedOid + Decode>(
        &self,
        alloc: Global,
    ) -> FilterExtensions<'_, T>
        ensures { extensions_left T.OID result ≡ with_oid T.OID (members self.now.extensions) }
    {
        filter_extensions::<T>(alloc, members(self.extensions()))
    }
}

/// The extensions with another OID.
fn others(extensions: Vec<Extension>, oid: ObjectIdentifier) -> Vec<Extension>
    ensures { result.items ≡ without_oid oid extensions.items }
{
    let mut others = extensions;
    others.retain(|extension| extension.extn_id != oid);
    others
}

/// The list of the extensions; absent where there are none.
fn list_of(extensions: Vec<Extension>) -> Option<Extensions>
    ensures { result ≡ where_any extensions.items }
{
    if extensions.is_empty() {
        None
    } else {
        Some(Extensions::from(extensions))
    }
}

impl<P: Profile> Drop for TbsCertificateInner<P> {
    fn drop(self) {
        let TbsCertificateInner {
            version: _,
            serial_number: _,
            signature: _,
            issuer: _,
            validity: _,
            subject: _,
            subject_public_key_info: _,
            issuer_unique_id: _,
            subject_unique_id: _,
            extensions: _,
        } = self;
    }
}

/// The fields up to the validity. Each half of the fields is read and copied by itself: what these functions cost to prove grows with the square of the values
/// that they may have to let go.
type Front<P> = (
    Version,
    (SerialNumber<P>, (AlgorithmIdentifier, (Name, Validity<P>))),
);

/// The fields behind it.
type Behind = (
    Name,
    (
        SubjectPublicKeyInfo,
        (Option<BitString>, (Option<BitString>, Option<Extensions>)),
    ),
);

/// Copies of the fields up to the validity.
fn clone_front<P: Profile>(alloc: Global, part: &TbsCertificateInner<P>) -> Result<Front<P>, Error>
    ensures ok { IfOk result (λ copies. copies ≡ (part.now.version, (part.now.serial_number, (part.now.signature, (part.now.issuer, part.now.validity))))) }
    ensures err { IfErr result (λ e. e.kind ≡ Memory) }
{
    let serial_number = part.serial_number.try_clone(alloc)?;
    let signature = part.signature.try_clone(alloc)?;
    let issuer = part.issuer.try_clone(alloc)?;
    Ok((
        part.version,
        (serial_number, (signature, (issuer, part.validity))),
    ))
}

/// Copies of the fields behind it.
fn clone_behind<P: Profile>(alloc: Global, part: &TbsCertificateInner<P>) -> Result<Behind, Error>
    ensures ok { IfOk result (λ copies. copies ≡ (part.now.subject, (part.now.subject_public_key_info, (part.now.issuer_unique_id, (part.now.subject_unique_id, part.now.extensions))))) }
    ensures err { IfErr result (λ e. e.kind ≡ Memory) }
{
    let subject = part.subject.try_clone(alloc)?;
    let key = part.subject_public_key_info.try_clone(alloc)?;
    let issuer_unique_id = part.issuer_unique_id.try_clone(alloc)?;
    let subject_unique_id = part.subject_unique_id.try_clone(alloc)?;
    let extensions = part.extensions.try_clone(alloc)?;
    Ok((
        subject,
        (key, (issuer_unique_id, (subject_unique_id, extensions))),
    ))
}

impl<P: Profile> TryClone for TbsCertificateInner<P> {
    fn try_clone(&self, alloc: Global) -> Result<TbsCertificateInner<P>, Error> {
        let (version, (serial_number, (signature, (issuer, validity)))) = clone_front(alloc, self)?;
        let (subject, (key, (issuer_unique_id, (subject_unique_id, extensions)))) = clone_behind(
            alloc, self,
        )?;
        Ok(TbsCertificateInner {
            version,
            serial_number,
            signature,
            issuer,
            validity,
            subject,
            subject_public_key_info: key,
            issuer_unique_id,
            subject_unique_id,
            extensions,
        })
    }
}

/// Reads the fields up to the validity.
#[inline(always)]
fn read_front<P: Profile>(alloc: Global, rest: &mut &[u8]) -> Result<Front<P>, Error>
    ensures { GivesBefore result rest.new.now ((grammar.tbs_certificate_front P.serial_check).reading rest.old.now) }
{
    let version = read_defaulted_explicit::<Version>(alloc, 0, rest)?;
    let serial_number = read_field::<SerialNumber<P>>(alloc, rest)?;
    let signature = read_field::<AlgorithmIdentifier>(alloc, rest)?;
    let issuer = read_field::<Name>(alloc, rest)?;
    let validity = read_field::<Validity<P>>(alloc, rest)?;
    Ok((version, (serial_number, (signature, (issuer, validity)))))
}

/// Reads the fields behind the validity, which end the octets.
#[tactic(auto, unfolding(x509_der::specs::Frames::fields_reading))]
#[inline(always)]
fn read_behind(alloc: Global, octets: &[u8]) -> Result<Behind, Error>
    ensures { Gives result (fields_reading (λ behind. behind) grammar.tbs_certificate_behind octets.now) }
{
    let mut rest = octets;
    let subject = read_field::<Name>(alloc, &mut rest)?;
    let key = read_field::<SubjectPublicKeyInfo>(alloc, &mut rest)?;
    let issuer_unique_id = read_optional_implicit::<BitString>(alloc, 1, &mut rest)?;
    let subject_unique_id = read_optional_implicit::<BitString>(alloc, 2, &mut rest)?;
    let extensions = read_optional_explicit::<Extensions>(alloc, 3, &mut rest)?;
    end(rest)?;
    Ok((
        subject,
        (key, (issuer_unique_id, (subject_unique_id, extensions))),
    ))
}

#[tactic(auto, unfolding(crate::specs::TbsCertificate::tbs_certificate_fields, x509_der::specs::Frames::fields_reading, x509_der::specs::Frames::fields_octets))]
impl<P: Profile> Content for TbsCertificateInner<P> {
    ghost use Rattle.x509_base.specs.Checked.{CheckRefuses};
    ghost use Rattle.x509_der.specs.declared.tag.Tag.TheVariants.{Sequence};
    ghost use Rattle.x509_cert.specs.TbsCertificate as grammar;

    ghost contents = { grammar.tbs_certificate_contents P.serial_check };

    ghost refusals = { CheckRefuses P.serial_check };

    ghost written_as = { grammar.tbs_certificate_writing ⟦<Validity<P> as Encode>⟧.writing };

    ghost IDENTIFIER = { Sequence };

    const IDENTIFIER: Tag = Tag::Sequence;

    #[inline(never)]
    fn read_content(alloc: Global, octets: &[u8]) -> Result<TbsCertificateInner<P>, Error> {
        let mut rest = octets;
        let (version, (serial_number, (signature, (issuer, validity)))) = read_front::<P>(
            alloc, &mut rest,
        )?;
        let (subject, (key, (issuer_unique_id, (subject_unique_id, extensions)))) = read_behind(
            alloc, rest,
        )?;
        Ok(TbsCertificateInner {
            version,
            serial_number,
            signature,
            issuer,
            validity,
            subject,
            subject_public_key_info: key,
            issuer_unique_id,
            subject_unique_id,
            extensions,
        })
    }

    fn write_content<R: Room>(&self, room: &mut R) -> Result<(), Error> {
        let front = (
            defaulted_explicit(0, &self.version),
            (
                &self.serial_number,
                (&self.signature, (&self.issuer, &self.validity)),
            ),
        );
        let behind = (
            &self.subject,
            (
                &self.subject_public_key_info,
                (
                    optional_implicit(1, &self.issuer_unique_id),
                    (
                        optional_implicit(2, &self.subject_unique_id),
                        optional_explicit(3, &self.extensions),
                    ),
                ),
            ),
        );
        (front, behind).put_part(room)
    }

    ghost contents_lawful = { grammar.tbs_certificate_contents_lawful P.serial_check };
}

impl<P: Profile> ValueOrd for TbsCertificateInner<P> {
    ghost use Rattle.x509_cert.specs.TbsCertificate as grammar;

    ghost order = { grammar.tbs_certificate_order P.serial_check ⟦<Validity<P> as Encode>⟧.writing };

    fn value_cmp(&self, other: &TbsCertificateInner<P>) -> Ordering {
        let front = (
            both_defaulted_explicit(0, &self.version, &other.version),
            (
                both(&self.serial_number, &other.serial_number),
                (
                    both(&self.signature, &other.signature),
                    (
                        both(&self.issuer, &other.issuer),
                        both(&self.validity, &other.validity),
                    ),
                ),
            ),
        );
        let behind = (
            both(&self.subject, &other.subject),
            (
                both(
                    &self.subject_public_key_info,
                    &other.subject_public_key_info,
                ),
                (
                    both_optional_implicit(1, &self.issuer_unique_id, &other.issuer_unique_id),
                    (
                        both_optional_implicit(
                            2,
                            &self.subject_unique_id,
                            &other.subject_unique_id,
                        ),
                        both_optional_explicit(3, &self.extensions, &other.extensions),
                    ),
                ),
            ),
        );
        (front, behind).cmp_part(None, None)
    }

    ghost ordered = { grammar.tbs_certificate_ordered P.serial_check ⟦<Validity<P> as Encode>⟧.writing };
}

impl<P: Profile> SetOrd for TbsCertificateInner<P> {
    ghost set_order = { ⟦<TbsCertificateInner<P> as EncodingOrd>⟧.encoding_order };
}

impl<P: Profile> SetMember for TbsCertificateInner<P> {
    ghost use Rattle.std.specs.Prelude.{refl};

    ghost in_der_order = { refl };
}

#[tactic(auto, unfolding(crate::specs::TbsCertificate::tbs_certificate_fields, x509_der::specs::Frames::fields_good))]
impl<P: Profile> Spelled for TbsCertificateInner<P> {
    ghost use Rattle.std.specs.Prelude.{Ok};

    ghost premise = { λ signed. P.serial_check signed.serial_number ≡ Ok tt };

    fn has_spelling(&self) {
        self.version.has_spelling();
        self.serial_number.has_spelling();
        self.signature.has_spelling();
        self.issuer.has_spelling();
        self.validity.has_spelling();
        self.subject.has_spelling();
        self.subject_public_key_info.has_spelling();
        option_has_spelling(&self.issuer_unique_id);
        option_has_spelling(&self.subject_unique_id);
        option_has_spelling(&self.extensions);
    }
}
