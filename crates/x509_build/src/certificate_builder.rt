//! The builder of certificates.

ghost use Rattle.std.specs.Prelude.{◌≡◌, ◌⊎◌, [], ◌∷◌, ◌++◌, Ok, Err, IfOk, IfErr, OnOk, OnErr};
ghost use Rattle.x509_build.specs.CertificateParts.{new_builder, next_part, part_with};
ghost use Rattle.x509_build.specs.declared.error.Error.TheVariants.{Asn1};
ghost use Rattle.x509_build.specs.Answer.{Gives};
ghost use Rattle.x509_build.specs.Refusals.{LacksMemory};
ghost use Rattle.x509_der.specs.declared.error.Error.{Error};
ghost use Rattle.x509_der.specs.declared.error.ErrorKind.TheVariants.{Memory};
ghost use Rattle.x509_ext.specs.declared.extension.Extension.{Extension};

use crate::extensions::followed_by;
use crate::profile::BuilderProfile;
use crate::profile::null_algorithm::no_algorithm;
use crate::{Builder, Result, Signer};
use std::alloc::Global;
use x509_base::{
    AlgorithmIdentifier, Profile, Rfc5280, SerialNumber, SubjectPublicKeyInfo, Validity,
};
use x509_cert::certificate::{Certificate, TbsCertificate, Version};
use x509_der::{Encode, Error, TryClone};
use x509_ext::{Extension, Extensions, ToExtension};
use x509_prim::BitString;

/// A builder of a certificate (RFC 5280 4.1), made of what the caller hands in and of what a profile adds.
///
/// The profile says what the subject is and who the issuer is. A certificate without extensions is of version 1, else
/// of version 3; it has no unique identifiers (RFC 5280 4.1.2.8).
///
/// That no OID stands twice among the extensions, which RFC 5280 4.2 forbids, isn't checked: where one is added that the
/// profile makes too, the certificate has it twice, and readers refuse that. Who wants to know before a signature is
/// made asks [`has_repeated_extension`](x509_ext::has_repeated_extension) of the extensions of
/// [`current_part`](CertificateBuilder::current_part), between [`finalize`](Builder::finalize) and
/// [`assemble`](Builder::assemble).
///
/// A root, signed by a [`Signer`] that is `ABC`:
///
/// ```rust
/// pub(crate) fn builder<P: BuilderProfile>(
///     rt: &HostRuntime,
///     profile: P,
///     key: &[u8],
/// ) -> Result<CertificateBuilder<P>> {
///     let alloc = rt.alloc();
///     CertificateBuilder::new(
///         alloc,
///         profile,
///         SerialNumber::from_u8(alloc, 42)?,
///         Validity::from_der(alloc, DATES)?,
///         SubjectPublicKeyInfo::from_der(alloc, key)?,
///     )
/// }
///
/// let profile = Root::new(true, Name::from_str(alloc, "CN=R,O=T,C=US")?)?;
/// let certificate = builder(rt, profile, ABC_KEY)?.build(alloc, &ABC)?;
/// Ok(certificate.to_der(alloc)?)
/// ```
pub struct CertificateBuilder<P> {
    profile: P,
    tbs: TbsCertificate,
    extensions: Extensions,
}

impl<P: Drop> Drop for CertificateBuilder<P> {
    fn drop(self) {
        let CertificateBuilder {
            profile: _,
            tbs: _,
            extensions: _,
        } = self;
    }
}

impl<P: BuilderProfile> CertificateBuilder<P> {
    /// A builder of the certificate for that public key. The dates are encoded as RFC 5280 4.1.2.5 wants them. Until
    /// [`finalize`](Builder::finalize) the signed part is of version 3, with the algorithm 0.0.0 and no extensions.
    ///
    /// # Errors
    ///
    /// The profile's error for the subject, and else the one for the issuer. `Asn1` of `Memory` when out of memory.
    pub fn new(
        alloc: Global,
        profile: P,
        serial_number: SerialNumber,
        validity: Validity,
        subject_public_key_info: SubjectPublicKeyInfo,
    ) -> Result<CertificateBuilder<P>>
        ensures { Gives (λ builder. builder) (new_builder (P.subject_of profile)
            (P.issuer_of profile) profile serial_number validity subject_public_key_info) result }
    {
        let mut spelled = validity;
        spelled.not_before = Rfc5280::time_encoding(validity.not_before)?;
        spelled.not_after = Rfc5280::time_encoding(validity.not_after)?;
        let subject = profile.get_subject(alloc)?;
        let issuer = profile.get_issuer(alloc, &subject)?;
        let tbs = TbsCertificate::from_parts(
            Version::V3,
            serial_number,
            no_algorithm(),
            issuer,
            spelled,
            subject,
            subject_public_key_info,
            None,
            None,
            None,
        );
        Ok(CertificateBuilder {
            profile,
            tbs,
            extensions: Extensions::new(alloc),
        })
    }

    /// Adds an extension behind those that were added before; it is made for the subject and for those. The profile's
    /// extensions come behind all that are added. That none of these has its OID isn't checked.
    ///
    /// # Errors
    ///
    /// `Asn1` of the error of [`ToExtension::to_extension`]. `Asn1` of `Memory` when out of memory. On an error the
    /// builder is unchanged, and the extension is dropped.
    pub fn add_extension<E: ToExtension>(&mut self, alloc: Global, extension: E) -> Result<()>
        ensures ok { OnOk result ((made : Extension) × E.makes extension self.old.tbs.subject self.old.extensions (Ok made)
            × (self.new ≡ record self.old { extensions = self.old.extensions ++ made ∷ [] })) }
        ensures err { IfErr result (λ e. LacksMemory e ⊎ ((refusal : Error) × (e ≡ Asn1 refusal)
            × E.makes extension self.old.tbs.subject self.old.extensions (Err refusal))) }
        ensures unchanged { OnErr result (self.new ≡ self.old) }
    {
        let made = extension.to_extension(alloc, self.tbs.subject(), self.extensions.as_slice())?;
        self.extensions.push(made)?;
        Ok(())
    }

    /// The builder, with these extensions, as they are, behind those that were added before. The profile's extensions
    /// come behind all that are added. That no OID stands there twice isn't checked.
    ///
    /// # Errors
    ///
    /// `Asn1` of `Memory` when out of memory, and nothing else; then the builder is dropped.
    pub fn with_extensions(self, extensions: Extensions) -> Result<CertificateBuilder<P>>
        ensures ok { IfOk result (λ builder. builder ≡ record self { extensions = self.extensions ++ extensions }) }
        ensures err { IfErr result LacksMemory }
    {
        let CertificateBuilder {
            profile,
            tbs,
            extensions: added,
        } = self;
        let extensions = followed_by(added, extensions)?;
        Ok(CertificateBuilder {
            profile,
            tbs,
            extensions,
        })
    }

    /// The signed part as it stands: that of the last [`finalize`](Builder::finalize), and before any the part with which
    /// the builder was made.
    pub fn current_part(&self) -> &TbsCertificate
        ensures { result.now ≡ ⟦<CertificateBuilder<P> as Builder>⟧.current self.now }
    {
        &self.tbs
    }
}

/// The profile's extensions, for the key of that part and for the signer's.
fn of_profile<P: BuilderProfile>(
    alloc: Global,
    profile: &P,
    bare: &TbsCertificate,
    issuer_key: &SubjectPublicKeyInfo,
) -> Result<Vec<Extension>>
    ensures { Gives (λ extensions. extensions.items) (P.extensions_of profile.now bare.now.subject_public_key_info issuer_key.now bare.now) result }
{
    profile.build_extensions(
        alloc,
        bare.subject_public_key_info().owned_to_ref(),
        issuer_key.owned_to_ref(),
        bare,
    )
}

/// The signed part for a signer with that algorithm and that key, of what stands in the other part and of the added
/// extensions.
fn next_part<P: BuilderProfile>(
    alloc: Global,
    profile: &P,
    part: TbsCertificate,
    added: Extensions,
    algorithm: AlgorithmIdentifier,
    issuer_key: &SubjectPublicKeyInfo,
) -> Result<TbsCertificate>
    ensures { Gives (λ part. part) (next_part (P.extensions_of profile.now) part added algorithm issuer_key.now) result }
{
    let bare = part.into_bare(algorithm);
    let of_profile = of_profile(alloc, profile, &bare, issuer_key)?;
    let extensions = followed_by(added, Extensions::from(of_profile))?;
    Ok(part_with(bare, extensions))
}

/// The signed part with these extensions; without any it is of version 1 (RFC 5280 4.1.2.1).
fn part_with(part: TbsCertificate, extensions: Extensions) -> TbsCertificate
    ensures { result ≡ part_with part extensions }
{
    if extensions.is_empty() {
        part.with_extensions(Version::V1, None)
    } else {
        part.with_extensions(Version::V3, Some(extensions))
    }
}

impl<P: BuilderProfile> Builder for CertificateBuilder<P> {
    ghost use Rattle.std.specs.Prelude.{◌≡◌, IfOk, IfErr};
    ghost use Rattle.x509_build.specs.CertificateParts as parts;
    ghost use Rattle.x509_build.specs.Refusals.{LacksMemory};

    type Output = Certificate;

    type Signed = TbsCertificate;

    ghost current = { λ builder. builder.tbs };

    ghost next = { λ builder algorithm key. parts.next_part (P.extensions_of builder.profile) builder.tbs builder.extensions algorithm key };

    ghost keeps = { λ old new. (new.profile ≡ old.profile) × (new.extensions ≡ old.extensions) };

    ghost asks_algorithm = { Unit {0} };

    ghost asks_key = { Unit {0} };

    ghost assembles_by_algorithm = { ⊥ };

    ghost whole = { λ part algorithm bits. record { tbs_certificate = part; signature_algorithm = part.signature; signature = bits } };

    fn finalize<S: Signer>(&mut self, alloc: Global, signer: &S) -> Result<Vec<u8>> {
        let algorithm = signer.algorithm(alloc)?;
        let key = signer.public_key(alloc)?;
        let given = self.tbs.try_clone(alloc)?;
        let added = self.extensions.try_clone(alloc)?;
        let part = next_part(alloc, &self.profile, given, added, algorithm, &key)?;
        let bytes = part.to_der(alloc)?;
        self.tbs = part;
        Ok(bytes)
    }

    fn finalize_once<S: Signer>(
        self,
        alloc: Global,
        signer: &S,
    ) -> Result<(CertificateBuilder<P>, Vec<u8>)> {
        let algorithm = signer.algorithm(alloc)?;
        let issuer_key = signer.public_key(alloc)?;
        let CertificateBuilder {
            profile,
            tbs,
            extensions,
        } = self;
        let part = next_part(alloc, &profile, tbs, extensions, algorithm, &issuer_key)?;
        let message = part.to_der(alloc)?;
        let builder = CertificateBuilder {
            profile,
            tbs: part,
            extensions: Extensions::new(alloc),
        };
        Ok((builder, message))
    }

    /// The certificate of the current signed part, under the algorithm of that part. The signer isn't asked.
    ///
    /// # Errors
    ///
    /// `Asn1` of `Memory` when out of memory.
    fn assemble<S: Signer>(
        self,
        alloc: Global,
        signature: BitString,
        _signer: &S,
    ) -> Result<Certificate>
        ensures ok { IfOk result (λ certificate. certificate ≡
            record { tbs_certificate = self.tbs; signature_algorithm = self.tbs.signature; signature = signature }) }
        ensures err { IfErr result LacksMemory }
    {
        let CertificateBuilder {
            profile: _,
            tbs,
            extensions: _,
        } = self;
        let algorithm = tbs.signature().try_clone(alloc)?;
        Ok(Certificate::from_parts(tbs, algorithm, signature))
    }
}
