//! The builder of CRLs.

ghost use Rattle.std.specs.Duration.{as_nanos};
ghost use Rattle.std.specs.Iterator.{Drains, IsFinite};
ghost use Rattle.std.specs.Prelude.{◌≡◌, ◌⊎◌, ◌<◌, ◌≤◌, [], ◌∷◌, ◌++◌, List, Some, None, Ok, Err, IfOk, IfErr, OnOk, OnErr};
ghost use Rattle.x509_base.specs.CivilTime.{last_date_time, unix_seconds, whole_seconds};
ghost use Rattle.x509_base.specs.Time.{IsTimeAt};
ghost use Rattle.x509_base.specs.declared.time.Time.{Time};
ghost use Rattle.x509_build.specs.CrlParts.{RefusesStart, Starts, members, next_part};
ghost use Rattle.x509_build.specs.declared.error.Error.TheVariants.{Asn1};
ghost use Rattle.x509_build.specs.Refusals.{LacksMemory};
ghost use Rattle.x509_cert.specs.declared.crl.revoked_cert.RevokedCert.{RevokedCert};
ghost use Rattle.x509_ext.specs.LookUp as look_up;
ghost use Rattle.x509_ext.specs.LookUp.{Finds, with_oid};
ghost use Rattle.x509_der.specs.declared.error.Error.{Error};
ghost use Rattle.x509_der.specs.declared.error.ErrorKind.TheVariants.{Memory, Value};
ghost use Rattle.x509_ext.specs.Identifiers.{id_ce};
ghost use Rattle.x509_ext.specs.declared.extension.Extension.{Extension};

use crate::extensions::{crl_extensions, followed_by, issuer_key};
use crate::profile::null_algorithm::no_algorithm;
use crate::{Builder, Result, Signer};
use std::alloc::Global;
use std::time::Duration;
use x509_base::{AlgorithmIdentifier, DateTime, Profile, Rfc5280, Time};
use x509_cert::certificate::{Certificate, Version};
use x509_cert::crl::{CertificateList, RevokedCert, TbsCertList};
use x509_der::{Decode, Encode, Error, Grammar, SequenceOf, TryClone};
use x509_ext::pkix::{CrlNumber, SubjectKeyIdentifier};
use x509_ext::{Extension, Extensions, ToExtension};
use x509_prim::BitString;

/// A builder of a CRL (RFC 5280 5.1).
///
/// The signed part is of version 2, has the subject of the issuer's certificate as issuer, and two extensions, the CRL
/// number and the AKI of the issuer's key, followed by those that were added.
pub struct CrlBuilder<P: Profile = Rfc5280> {
    tbs: TbsCertList<P>,
    extensions: Extensions,

    // The part of the last finalize; `Some(None)` where that part is `tbs` itself.
    finalized: Option<Option<TbsCertList<P>>>,
}

impl<P: Profile> CrlBuilder<P> {
    /// A builder of the CRL with that number, issued now: `now` is the time since 1970-01-01T00:00:00Z, of which a
    /// fraction of a second is dropped. The date is a UTCTime through 2049. Otherwise as
    /// [`new_with_this_update`](CrlBuilder::new_with_this_update).
    ///
    /// # Errors
    ///
    /// `Asn1` of `Value` where `now` is after 9999-12-31T23:59:59Z; else those of `new_with_this_update`.
    pub fn new(
        alloc: Global,
        issuer: &Certificate,
        crl_number: CrlNumber,
        now: Duration,
    ) -> Result<CrlBuilder<P>>
        ensures ok { IfOk result (λ builder. (time : Time) × IsTimeAt (whole_seconds now) time
            × Starts (Finds ⟦<SubjectKeyIdentifier as Grammar>⟧.form ⟦<SubjectKeyIdentifier as Decode>⟧.refuses
            ⟦<SubjectKeyIdentifier as Decode>⟧.wants_memory (with_oid (id_ce 14) (look_up.members issuer.now.tbs_certificate.extensions)))
            issuer.now.tbs_certificate crl_number.0 time builder) }
        ensures err { IfErr result (λ e. ((refusal : Error) × (e ≡ Asn1 refusal) × (refusal.kind ≡ Value)
            × (unix_seconds last_date_time < whole_seconds now)) ⊎ (LacksMemory e
            ⊎ RefusesStart (Finds ⟦<SubjectKeyIdentifier as Grammar>⟧.form ⟦<SubjectKeyIdentifier as Decode>⟧.refuses
            ⟦<SubjectKeyIdentifier as Decode>⟧.wants_memory (with_oid (id_ce 14) (look_up.members issuer.now.tbs_certificate.extensions)))
            issuer.now.tbs_certificate crl_number.0 e)) }
        ensures late { IfErr result (λ e. ((refusal : Error) × (e ≡ Asn1 refusal) × (refusal.kind ≡ Value))
            ⊎ (whole_seconds now ≤ unix_seconds last_date_time)) }
    {
        let this_update = Time::from(DateTime::from_unix_duration(now)?);
        CrlBuilder::new_with_this_update(alloc, issuer, crl_number, this_update)
    }

    /// A builder of the CRL with that number, issued at that time by the subject of the certificate. Until
    /// [`finalize`](Builder::finalize) the signed part has the algorithm 0.0.0. The AKI of the CRL is the SKI in the
    /// certificate, and where the certificate has none, the SHA-1 digest of its public key (RFC 5280 4.2.1.2, method
    /// 1).
    ///
    /// # Errors
    ///
    /// `Asn1` of the error of [`get_extension`](x509_cert::certificate::TbsCertificateInner::get_extension) for the SKI,
    /// or of the error of encoding the CRL number or the AKI. `Asn1` of `Memory` when out of memory.
    pub fn new_with_this_update(
        alloc: Global,
        issuer: &Certificate,
        crl_number: CrlNumber,
        this_update: Time,
    ) -> Result<CrlBuilder<P>>
        ensures ok { IfOk result (λ builder. Starts (Finds ⟦<SubjectKeyIdentifier as Grammar>⟧.form ⟦<SubjectKeyIdentifier as Decode>⟧.refuses
            ⟦<SubjectKeyIdentifier as Decode>⟧.wants_memory (with_oid (id_ce 14) (look_up.members issuer.now.tbs_certificate.extensions)))
            issuer.now.tbs_certificate crl_number.0 this_update builder) }
        ensures err { IfErr result (λ e. LacksMemory e ⊎ RefusesStart
            (Finds ⟦<SubjectKeyIdentifier as Grammar>⟧.form ⟦<SubjectKeyIdentifier as Decode>⟧.refuses ⟦<SubjectKeyIdentifier as Decode>⟧.wants_memory
            (with_oid (id_ce 14) (look_up.members issuer.now.tbs_certificate.extensions))) issuer.now.tbs_certificate crl_number.0 e) }
    {
        let name = issuer.tbs_certificate().subject().try_clone(alloc)?;
        let identifier = issuer_key(alloc, issuer)?;
        let extensions = crl_extensions(alloc, &name, crl_number, identifier)?;
        let tbs = TbsCertList {
            version: Some(Version::V2),
            signature: no_algorithm(),
            issuer: name,
            this_update,
            next_update: None,
            revoked_certificates: None,
            crl_extensions: Some(extensions.try_clone(alloc)?),
        };
        Ok(CrlBuilder {
            tbs,
            extensions,
            finalized: None,
        })
    }

    /// Adds an extension, such as the delta CRL indicator or the issuing distribution point (RFC 5280 5.2), behind the
    /// CRL number, the AKI and those that were added before: made for the issuer and for all of these. The next
    /// [`finalize`](Builder::finalize) puts it into the signed part. That no OID stands there twice isn't checked.
    ///
    /// # Errors
    ///
    /// `Asn1` of the error of [`ToExtension::to_extension`]. `Asn1` of `Memory` when out of memory. On an error the
    /// builder is unchanged, and the extension is dropped.
    pub fn add_extension<E: ToExtension>(&mut self, alloc: Global, extension: E) -> Result<()>
        ensures ok { OnOk result ((made : Extension) × E.makes extension self.old.tbs.issuer self.old.extensions (Ok made)
            × (self.new ≡ record self.old { extensions = self.old.extensions ++ made ∷ [] })) }
        ensures err { IfErr result (λ e. LacksMemory e ⊎ ((refusal : Error) × (e ≡ Asn1 refusal)
            × E.makes extension self.old.tbs.issuer self.old.extensions (Err refusal))) }
        ensures unchanged { OnErr result (self.new ≡ self.old) }
    {
        let made = extension.to_extension(alloc, &self.tbs.issuer, self.extensions.as_slice())?;
        self.extensions.push(made)?;
        Ok(())
    }

    /// The builder, with these extensions, as they are, behind the CRL number, the AKI and those that were added before.
    /// The next [`finalize`](Builder::finalize) puts them into the signed part. That no OID stands there twice isn't
    /// checked.
    ///
    /// # Errors
    ///
    /// `Asn1` of `Memory` when out of memory, and nothing else; then the builder is dropped.
    pub fn with_extensions(self, extensions: Extensions) -> Result<CrlBuilder<P>>
        ensures ok { IfOk result (λ builder. builder ≡ record self { extensions = self.extensions ++ extensions }) }
        ensures err { IfErr result LacksMemory }
    {
        let CrlBuilder {
            tbs,
            extensions: added,
            finalized,
        } = self;
        let extensions = followed_by(added, extensions)?;
        Ok(CrlBuilder {
            tbs,
            extensions,
            finalized,
        })
    }

    /// The extensions that the next [`finalize`](Builder::finalize) puts into the signed part: the CRL number, the AKI and
    /// those that were added. Whether an OID stands there twice says
    /// [`has_repeated_extension`](x509_ext::has_repeated_extension).
    pub fn extensions(&self) -> &[Extension]
        ensures { result.now ≡ self.now.extensions }
    {
        self.extensions.as_slice()
    }

    /// The builder, with that time by which the next CRL will be issued, or with none. The next
    /// [`finalize`](Builder::finalize) puts it into the signed part.
    pub fn with_next_update(self, next_update: Option<Time>) -> CrlBuilder<P>
        ensures { result ≡ record self { tbs = record self.tbs { next_update = next_update } } }
    {
        let mut builder = self;
        builder.tbs.next_update = next_update;
        builder
    }

    /// The builder, with these revoked certificates behind those that it has. Where it has none, and none are given,
    /// the CRL has an empty list of entries. The next [`finalize`](Builder::finalize) puts them into the signed part.
    ///
    /// The iterator ends, and its next item may be asked for at each step: its `next` states what it wants for that
    /// (`can_next`). An iterator over a vector wants nothing; one that calls closures wants that these may be called.
    ///
    /// # Errors
    ///
    /// `Asn1` of `Memory` when out of memory, and nothing else; then the builder is dropped.
    pub fn with_certificates<I: Iterator<Item = RevokedCert<P>> + Drop>(
        self,
        alloc: Global,
        revoked: I,
    ) -> Result<CrlBuilder<P>>
        requires can { I.can_next revoked }
        requires ends { IsFinite (I.remaining revoked) }
        ensures ok { IfOk result (λ builder. (added : List (RevokedCert P)) × Drains I.next_gives revoked added
            × (builder ≡ record self { tbs = record self.tbs { revoked_certificates = Some (members self.tbs.revoked_certificates ++ added) } })) }
        ensures err { IfErr result LacksMemory }
    {
        let mut builder = self;
        let mut certificates = match builder.tbs.revoked_certificates.take() {
            Some(certificates) => certificates,
            None => SequenceOf::new(alloc),
        };
        append(&mut certificates, revoked)?;
        builder.tbs.revoked_certificates = Some(certificates);
        Ok(builder)
    }
}

/// Puts the items behind the others.
fn append<T: Drop, I: Iterator<Item = T> + Drop>(
    list: &mut SequenceOf<T>,
    items: I,
) -> std::result::Result<(), Error>
    requires can { I.can_next items }
    requires ends { IsFinite (I.remaining items) }
    ensures ok { OnOk result ((added : List T) × Drains I.next_gives items added × (list.new ≡ list.old ++ added)) }
    ensures err { IfErr result (λ e. e.kind ≡ Memory) }
{
    for item in items {
        list.push(item)?;
    }
    Ok(())
}

impl<P: Profile> Drop for CrlBuilder<P> {
    fn drop(self) {
        let CrlBuilder {
            tbs: _,
            extensions: _,
            finalized: _,
        } = self;
    }
}

impl<P: Profile> Builder for CrlBuilder<P> {
    ghost use Rattle.std.specs.Prelude.{◌≡◌, IfOk, IfErr};
    ghost use Rattle.x509_build.specs.CrlParts as parts;
    ghost use Rattle.x509_build.specs.Refusals.{LacksMemory};

    type Output = CertificateList<P>;

    type Signed = TbsCertList<P>;

    ghost current = { λ builder. parts.current_part builder.finalized builder.tbs };

    ghost next = { λ builder algorithm key. parts.next_part builder.tbs builder.extensions algorithm };

    ghost keeps = { λ old new. (new.tbs ≡ old.tbs) × (new.extensions ≡ old.extensions) };

    ghost asks_algorithm = { Unit {0} };

    ghost asks_key = { ⊥ };

    ghost assembles_by_algorithm = { ⊥ };

    ghost whole = { λ part algorithm bits. record { tbs_cert_list = part; signature_algorithm = part.signature; signature = bits } };

    fn finalize<S: Signer>(&mut self, alloc: Global, signer: &S) -> Result<Vec<u8>> {
        let algorithm = signer.algorithm(alloc)?;
        let given = self.tbs.try_clone(alloc)?;
        let part = next_part(given, self.extensions.try_clone(alloc)?, algorithm);
        let bytes = part.to_der(alloc)?;
        self.finalized = Some(Some(part));
        Ok(bytes)
    }

    fn finalize_once<S: Signer>(
        self,
        alloc: Global,
        signer: &S,
    ) -> Result<(CrlBuilder<P>, Vec<u8>)> {
        let signature = signer.algorithm(alloc)?;
        let CrlBuilder {
            tbs,
            extensions,
            finalized: _,
        } = self;
        let part = next_part(tbs, extensions, signature);
        let message = part.to_der(alloc)?;
        let builder = CrlBuilder {
            tbs: part,
            extensions: Extensions::new(alloc),
            finalized: Some(None),
        };
        Ok((builder, message))
    }

    /// The CRL of the current signed part, under the algorithm of that part. The signer isn't asked.
    ///
    /// # Errors
    ///
    /// `Asn1` of `Memory` when out of memory.
    fn assemble<S: Signer>(
        self,
        alloc: Global,
        signature: BitString,
        _signer: &S,
    ) -> Result<CertificateList<P>>
        ensures ok { IfOk result (λ list. list ≡ record {
          tbs_cert_list = parts.current_part self.finalized self.tbs;
          signature_algorithm =
              (parts.current_part self.finalized self.tbs).signature;
          signature = signature;
        }) }
        ensures err { IfErr result LacksMemory }
    {
        let CrlBuilder {
            tbs,
            extensions: _,
            finalized,
        } = self;
        let tbs_cert_list = match finalized {
            Some(Some(part)) => part,
            Some(None) => tbs,
            None => at_first(tbs),
        };
        let signature_algorithm = tbs_cert_list.signature.try_clone(alloc)?;
        Ok(CertificateList {
            tbs_cert_list,
            signature_algorithm,
            signature,
        })
    }
}

/// The part with these extensions and that algorithm.
fn next_part<P: Profile>(
    part: TbsCertList<P>,
    extensions: Extensions,
    algorithm: AlgorithmIdentifier,
) -> TbsCertList<P>
    ensures { result ≡ (next_part part extensions algorithm).value }
{
    let mut next = part;
    next.signature = algorithm;
    next.crl_extensions = Some(extensions);
    next
}

/// The signed part without what was given after the builder was made.
fn at_first<P: Profile>(part: TbsCertList<P>) -> TbsCertList<P>
    ensures { result ≡ record part { next_update = None; revoked_certificates = None } }
{
    let mut first = part;
    first.next_update = None;
    first.revoked_certificates = None;
    first
}
