//! The signed part of a precertificate, as a log has it.

ghost use Rattle.std.specs.Prelude.{◌≡◌, ◌++◌, List, None, IfOk, IfErr};
ghost use Rattle.x509_cert.specs.declared.certificate.certificate.CertificateInner as whole;
ghost use Rattle.x509_cert.specs.Elements.{tbs_elements};
ghost use Rattle.x509_cert.specs.Without.{without_oid};
ghost use Rattle.x509_check.specs.ExtensionRefs.{extensions_left};
ghost use Rattle.x509_der.specs.Form.{Spells, spelling};
ghost use Rattle.x509_der.specs.List.{joined};
ghost use Rattle.x509_ext.specs.Extension.{extension};
ghost use Rattle.x509_ext.specs.LookUp.{with_oid};
ghost use Rattle.x509_ext.specs.declared.extension.Extension.{Extension};
ghost use Rattle.x509_log.specs.Around.{IsAlone};
ghost use Rattle.x509_log.specs.Logged.{AreIdentified, HasOne, Refuses, RefusesKeys, authority_key_identifier, bare, identified_as, member_octets, part_octets, with_value, without};
ghost use Rattle.x509_sct.specs.Identifier.{precertificate_poison};

use crate::around::{Around, Found, find_one, split_around};
use crate::error::LogError;
use crate::members::{KeyIdentifier, Members};
use crate::put::{Explicit, Octets, Optional, put_in_element};
use std::alloc::Global;
use x509_base::Profile;
use x509_cert::certificate::{CertificateInner, TbsCertificateInner, TbsCertificateSlices};
use x509_check::{CertificateRef, ExtensionRefs};
use x509_der::{
    AssociatedOid, Counting, Error, Fixed, Grammar, Growing, Length, ObjectIdentifier, PutPart,
    Room,
};
use x509_ext::pkix::AuthorityKeyIdentifier;
use x509_sct::{CtPrecertificatePoison, SignedCertificateTimestampList};

/// The TBSCertificate of a precertificate, as a log has it and signs it (RFC 6962 3.2): of a certificate its signed part without the
/// SCTs, of a precertificate its signed part without the poison. It is lent from the certificate's bytes: each field and each other
/// extension is put as it stands there, and the lengths above them follow. Where no other extension is left, the list of extensions is
/// absent, since it has one member at least (RFC 5280 4.1); the version stays as it is.
#[derive(Clone, Copy, Debug)]
pub struct LoggedPart<'a> {
    fields: TbsCertificateSlices<'a>,
    members: Members<'a>,
}

/// The signed part of the certificate without the one extension with the OID.
fn cut<'a, P: Profile>(
    certificate: &CertificateRef<'a, P>,
    oid: &ObjectIdentifier,
) -> Result<LoggedPart<'a>, LogError>
    ensures found { IfOk result (λ part. (value : whole.CertificateInner P) → Spells ⟦<CertificateInner<P> as Grammar>⟧.form value certificate.now.bytes.now
        → HasOne oid.now value.tbs_certificate
        × Spells ⟦<TbsCertificateInner<P> as Grammar>⟧.form (without oid.now value.tbs_certificate) (part_octets part)) }
    ensures refused { IfErr result (λ e. (value : whole.CertificateInner P) → Spells ⟦<CertificateInner<P> as Grammar>⟧.form value certificate.now.bytes.now
        → Refuses oid.now value.tbs_certificate e) }
{
    match find_one(certificate.extensions(), oid) {
        Found::One(around) => Ok(LoggedPart {
            fields: certificate.slices().fields,
            members: Members::around(&around),
        }),
        Found::Absent => Err(LogError::Absent),
        Found::Repeated => Err(LogError::Repeated),
    }
}

/// The fields with another issuer.
fn issued_fields<'a>(fields: TbsCertificateSlices<'a>, issuer: &'a [u8]) -> TbsCertificateSlices<'a>
    ensures others { bare (tbs_elements result) ≡ bare (tbs_elements fields.entry) }
    ensures issuer { result.issuer.now ≡ issuer.now }
{
    TbsCertificateSlices { issuer, ..fields }
}

/// The members of a list without its poison, in which the authority key identifier has that value.
fn changed_members<'a>(poison: &Around<'a>, identifier: &Around<'a>, value: &'a [u8]) -> Members<'a>
    requires { (all : List Extension) × IsAlone precertificate_poison all poison.now × IsAlone authority_key_identifier all identifier.now }
    ensures { (all : List Extension) → IsAlone precertificate_poison all poison.now → IsAlone authority_key_identifier all identifier.now
        → member_octets result ≡ joined (spelling extension) (without_oid precertificate_poison (with_value authority_key_identifier value.now all)) }
{
    match split_around(identifier.behind, &CtPrecertificatePoison::OID) {
        Some(first) => {
            let rest = first.behind.as_bytes();
            Members {
                before: identifier.before,
                first: Some(KeyIdentifier {
                    critical: identifier.critical,
                    value,
                }),
                between: first.before,
                second: None,
                behind: rest,
            }
        }
        None => match split_around(poison.behind, &AuthorityKeyIdentifier::OID) {
            Some(second) => {
                let others = second.behind.as_bytes();
                Members {
                    before: poison.before,
                    first: None,
                    between: second.before,
                    second: Some(KeyIdentifier {
                        critical: second.critical,
                        value,
                    }),
                    behind: others,
                }
            }
            None => unreachable!(),
        },
    }
}

/// The members of a precertificate's list without its poison, in which the authority key identifier, where there is one, has the value of the one in the
/// list of the precertificate signing certificate (RFC 6962 3.2).
///
/// # Errors
///
/// `Repeated` exactly where the first list has two or more, or has one and the other two or more; `Absent` exactly where the first has one and the other none.
fn reissued_members<'a>(
    list: ExtensionRefs<'a>,
    poison: &Around<'a>,
    above: ExtensionRefs<'a>,
) -> Result<Members<'a>, LogError>
    requires { IsAlone precertificate_poison (extensions_left list) poison.now }
    ensures found { IfOk result (λ members. AreIdentified (extensions_left list.entry) (extensions_left above.entry)
        × (member_octets members ≡ joined (spelling extension) (without_oid precertificate_poison
        (identified_as (with_oid authority_key_identifier (extensions_left above.entry)) (extensions_left list.entry))))) }
    ensures refused { IfErr result (λ e. RefusesKeys (extensions_left list.entry) (extensions_left above.entry) e) }
{
    match find_one(list, &AuthorityKeyIdentifier::OID) {
        Found::Absent => Ok(Members::around(poison)),
        Found::One(own) => match find_one(above, &AuthorityKeyIdentifier::OID) {
            Found::Absent => Err(LogError::Absent),
            Found::One(key) => Ok(changed_members(poison, &own, key.value)),
            Found::Repeated => Err(LogError::Repeated),
        },
        Found::Repeated => Err(LogError::Repeated),
    }
}

impl<'a> LoggedPart<'a> {
    ghost use Rattle.std.specs.Prelude.{◌≡◌, ◌⊎◌, ◌<◌, ◌≤◌, ◌+◌, ◌++◌, length, take, min, IfOk, IfErr, OnOk};
    ghost use Rattle.x509_cert.specs.declared.certificate.certificate.CertificateInner as whole;
    ghost use Rattle.x509_der.specs.Element.{limit};
    ghost use Rattle.x509_der.specs.Form.{Spells};
    ghost use Rattle.x509_der.specs.declared.error.ErrorKind.TheVariants as errors;
    ghost use Rattle.x509_log.specs.Logged.{HasOne, IsReissued, Refuses, RefusesReissue, part_octets, without_poison, without_timestamps};
    ghost use Rattle.x509_sct.specs.Identifier.{embedded_timestamps, precertificate_poison};

    /// The signed part of a certificate without its SCTs: that of its precertificate, as a log has it. It takes no memory.
    ///
    /// # Errors
    ///
    /// `Absent` exactly where the certificate has no list of SCTs (1.3.6.1.4.1.11129.2.4.2), `Repeated` exactly where it has two or more.
    pub fn from_certificate<P: Profile>(
        certificate: &CertificateRef<'a, P>,
    ) -> Result<LoggedPart<'a>, LogError>
        ensures found { IfOk result (λ part. (value : whole.CertificateInner P) → Spells ⟦<CertificateInner<P> as Grammar>⟧.form value certificate.now.bytes.now
            → HasOne embedded_timestamps value.tbs_certificate
            × Spells ⟦<TbsCertificateInner<P> as Grammar>⟧.form (without_timestamps value.tbs_certificate) (part_octets part)) }
        ensures refused { IfErr result (λ e. (value : whole.CertificateInner P) → Spells ⟦<CertificateInner<P> as Grammar>⟧.form value certificate.now.bytes.now
            → Refuses embedded_timestamps value.tbs_certificate e) }
    {
        cut(certificate, &SignedCertificateTimestampList::OID)
    }

    /// The signed part of a precertificate without its poison, as a log has it where the authority itself signed the precertificate. It
    /// takes no memory.
    ///
    /// # Errors
    ///
    /// `Absent` exactly where the certificate has no poison (1.3.6.1.4.1.11129.2.4.3), `Repeated` exactly where it has two or more.
    pub fn from_precertificate<P: Profile>(
        precertificate: &CertificateRef<'a, P>,
    ) -> Result<LoggedPart<'a>, LogError>
        ensures found { IfOk result (λ part. (value : whole.CertificateInner P) → Spells ⟦<CertificateInner<P> as Grammar>⟧.form value precertificate.now.bytes.now
            → HasOne precertificate_poison value.tbs_certificate
            × Spells ⟦<TbsCertificateInner<P> as Grammar>⟧.form (without_poison value.tbs_certificate) (part_octets part)) }
        ensures refused { IfErr result (λ e. (value : whole.CertificateInner P) → Spells ⟦<CertificateInner<P> as Grammar>⟧.form value precertificate.now.bytes.now
            → Refuses precertificate_poison value.tbs_certificate e) }
    {
        cut(precertificate, &CtPrecertificatePoison::OID)
    }

    /// The signed part of a precertificate that a precertificate signing certificate signed (RFC 6962 3.1), as a log has it: without its
    /// poison, with the issuer of the signing certificate, and, where the precertificate has an authority key identifier, with the value
    /// that this extension has in the signing certificate (RFC 6962 3.2). All else is as it stands, also the criticality of that extension;
    /// a precertificate without one gets none. Whether the certificate is a precertificate signing certificate
    /// ([`is_precertificate_signing`](crate::is_precertificate_signing)) and signed the precertificate isn't looked at. It takes no memory.
    ///
    /// # Errors
    ///
    /// `Absent` exactly where the precertificate has no poison (1.3.6.1.4.1.11129.2.4.3), or one poison and one authority key identifier
    /// (2.5.29.35), which the signing certificate hasn't. `Repeated` exactly where the precertificate has two poisons or more; or one, and two
    /// authority key identifiers or more; or one of both, and the signing certificate two authority key identifiers or more.
    pub fn from_precertificate_signed_by<P: Profile>(
        precertificate: &CertificateRef<'a, P>,
        signing: &CertificateRef<'a, P>,
    ) -> Result<LoggedPart<'a>, LogError>
        ensures found { IfOk result (λ part. (value above : whole.CertificateInner P)
            → Spells ⟦<CertificateInner<P> as Grammar>⟧.form value precertificate.now.bytes.now
            → Spells ⟦<CertificateInner<P> as Grammar>⟧.form above signing.now.bytes.now
            → IsReissued ⟦<TbsCertificateInner<P> as Grammar>⟧.form value.tbs_certificate above.tbs_certificate (part_octets part)) }
        ensures refused { IfErr result (λ e. (value above : whole.CertificateInner P)
            → Spells ⟦<CertificateInner<P> as Grammar>⟧.form value precertificate.now.bytes.now
            → Spells ⟦<CertificateInner<P> as Grammar>⟧.form above signing.now.bytes.now
            → RefusesReissue value.tbs_certificate above.tbs_certificate e) }
    {
        let list = precertificate.extensions();
        let above = signing.extensions();
        match find_one(list, &CtPrecertificatePoison::OID) {
            Found::One(poison) => match reissued_members(list, &poison, above) {
                Ok(members) => Ok(LoggedPart {
                    fields: issued_fields(precertificate.slices().fields, signing.issuer()),
                    members,
                }),
                Err(e) => Err(e),
            },
            Found::Absent => Err(LogError::Absent),
            Found::Repeated => Err(LogError::Repeated),
        }
    }

    /// The octets, in a vector.
    ///
    /// # Errors
    ///
    /// `Overlength` exactly where they are more than [`Length::MAX`]. Else `Memory` when out of memory.
    pub fn to_der(&self, alloc: Global) -> Result<Vec<u8>, Error>
        ensures ok { IfOk result (λ bytes. (bytes.items ≡ part_octets self.now) × (length (part_octets self.now) ≤ limit)) }
        ensures err { IfErr result (λ e. (e.kind ≡ errors.Memory) ⊎ ((e.kind ≡ errors.Overlength) × (limit < length (part_octets self.now)))) }
    {
        let mut room = Growing::new(alloc);
        self.put_part(&mut room)?;
        Ok(room.into_vec())
    }

    /// How many octets there are. It takes no memory.
    ///
    /// # Errors
    ///
    /// `Overlength` exactly where they are more than [`Length::MAX`].
    pub fn encoded_len(&self) -> Result<Length, Error>
        ensures ok { IfOk result (λ len. len.octets ≡ length (part_octets self.now)) }
        ensures err { IfErr result (λ e. (e.kind ≡ errors.Overlength) × (limit < length (part_octets self.now))) }
    {
        let mut room = Counting::new();
        self.put_part(&mut room)?;
        Ok(room.count())
    }

    /// Writes the octets at the end of the buffer `room`, and answers how many octets of the buffer come before them; those stay as they
    /// were. It takes no memory.
    ///
    /// # Errors
    ///
    /// `Overlength` exactly where they are more than the buffer has, or than [`Length::MAX`]. Then the buffer may hold a part of them.
    pub fn encode_into(&self, room: &mut [u8]) -> Result<usize, Error>
        ensures bytes { IfOk result (λ before. room.new ≡ take before room.old ++ part_octets self.now) }
        ensures before { IfOk result (λ before. before + length (part_octets self.now) ≡ length room.old) }
        ensures err { IfErr result (λ e. (e.kind ≡ errors.Overlength) × (min (length room.old) limit < length (part_octets self.now))) }
    {
        let mut fixed = Fixed::new(room);
        self.put_part(&mut fixed)?;
        Ok(fixed.start())
    }
}

impl PutPart for LoggedPart<'_> {
    ghost use Rattle.std.specs.Prelude.{None};
    ghost use Rattle.x509_log.specs.Logged.{part_octets};

    ghost text = { part_octets };

    ghost refusal = { λ part. None };

    fn put_part<R: Room>(&self, room: &mut R) -> Result<(), Error> {
        let fields = &self.fields;
        let ids = (
            Optional(fields.issuer_unique_id),
            (Optional(fields.subject_unique_id), self.members),
        );
        let behind = (
            Octets(fields.subject),
            (Octets(fields.subject_public_key_info), ids),
        );
        let dates = (Octets(fields.issuer), Octets(fields.validity));
        let front = (
            Explicit(0xA0, fields.version),
            (
                Octets(fields.serial_number),
                (Octets(fields.signature), dates),
            ),
        );
        put_in_element(&(front, behind), 0x30, room)
    }
}
