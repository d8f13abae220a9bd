//! Lists of extensions that are made of their values.

ghost use Rattle.std.specs.Prelude.{◌≡◌, Bool, List, true, false};
ghost use Rattle.x509_build.specs.Making as makings;
ghost use Rattle.x509_build.specs.Making.{Appends, Pushes};
ghost use Rattle.x509_der.specs.Writing.{writes};

use crate::Result;
use std::alloc::Global;
use x509_base::SubjectPublicKeyInfoRef;
use x509_der::{AssociatedOid, Encode, Error as DerError, ObjectIdentifier, SequenceOf, oid};
use x509_ext::pkix::{
    AuthorityKeyIdentifier, BasicConstraints, ExtendedKeyUsage, KeyUsage, KeyUsages,
    SubjectAltName, SubjectKeyIdentifier,
};
use x509_ext::{Criticality, Extension, ToExtension};
use x509_name::name::Name;

/// The purpose of TLS servers, id-kp-serverAuth, 1.3.6.1.5.5.7.3.1 (RFC 5280 4.2.1.12).
const SERVER_AUTH: ObjectIdentifier = oid!(0x2B, 0x06, 0x01, 0x05, 0x05, 0x07, 3, 1);

/// The purpose of TLS clients, id-kp-clientAuth, 1.3.6.1.5.5.7.3.2 (RFC 5280 4.2.1.12).
const CLIENT_AUTH: ObjectIdentifier = oid!(0x2B, 0x06, 0x01, 0x05, 0x05, 0x07, 3, 2);

/// Puts the extension of a value behind those that stand, as critical as the value says (RFC 5280 4.2).
fn push<T: AssociatedOid + Criticality + Encode>(
    alloc: Global,
    extensions: &mut Vec<Extension>,
    subject: &Name,
    payload: &T,
) -> std::result::Result<(), DerError>
    ensures { Pushes T.OID (T.is_critical payload.now subject.now extensions.old.items) T.form
        (writes T.writing payload.now) result extensions.old.items extensions.new.items }
{
    let extension = payload.to_extension(alloc, subject, extensions.as_slice())?;
    extensions.push(extension)?;
    Ok(())
}

/// Puts an AuthorityKeyIdentifier of that key alone.
pub(crate) fn push_authority_key(
    alloc: Global,
    extensions: &mut Vec<Extension>,
    subject: &Name,
    key: SubjectPublicKeyInfoRef<'_>,
) -> Result<()>
    ensures { Appends (makings.authority_key key.entry.subject_public_key.now) result extensions.old.items extensions.new.items }
{
    let identifier = AuthorityKeyIdentifier::from_key(alloc, key)?;
    push(alloc, extensions, subject, &identifier)?;
    Ok(())
}

/// Puts a SubjectKeyIdentifier of that key.
pub(crate) fn push_subject_key(
    alloc: Global,
    extensions: &mut Vec<Extension>,
    subject: &Name,
    key: SubjectPublicKeyInfoRef<'_>,
) -> Result<()>
    ensures { Appends (makings.subject_key key.entry.subject_public_key.now) result extensions.old.items extensions.new.items }
{
    let identifier = SubjectKeyIdentifier::from_key(alloc, key)?;
    push(alloc, extensions, subject, &identifier)?;
    Ok(())
}

/// Puts BasicConstraints.
pub(crate) fn push_constraints(
    alloc: Global,
    extensions: &mut Vec<Extension>,
    subject: &Name,
    ca: bool,
    path_len_constraint: Option<u8>,
) -> Result<()>
    ensures { Appends (makings.constraints ca path_len_constraint) result extensions.old.items extensions.new.items }
{
    let constraints = BasicConstraints {
        ca,
        path_len_constraint,
    };
    push(alloc, extensions, subject, &constraints)?;
    Ok(())
}

/// Puts a KeyUsage of these uses.
pub(crate) fn push_key_usage(
    alloc: Global,
    extensions: &mut Vec<Extension>,
    subject: &Name,
    usages: KeyUsages,
) -> Result<()>
    ensures { Appends (makings.key_usage usages.0) result extensions.old.items extensions.new.items }
{
    push(alloc, extensions, subject, &KeyUsage(usages))?;
    Ok(())
}

/// The purpose of TLS servers, and where asked for that of clients.
fn purposes(
    alloc: Global,
    client_auth: bool,
) -> std::result::Result<SequenceOf<ObjectIdentifier>, DerError>
    ensures { makings.GivesPurposes client_auth result }
{
    let mut purposes = SequenceOf::new(alloc);
    purposes.push(SERVER_AUTH)?;
    if client_auth {
        purposes.push(CLIENT_AUTH)?;
    }
    Ok(purposes)
}

/// Puts an ExtendedKeyUsage for TLS servers, and where asked for also for clients.
pub(crate) fn push_purposes(
    alloc: Global,
    extensions: &mut Vec<Extension>,
    subject: &Name,
    client_auth: bool,
) -> Result<()>
    ensures { Appends (makings.extended_key_usage client_auth) result extensions.old.items extensions.new.items }
{
    let usage = ExtendedKeyUsage(purposes(alloc, client_auth)?);
    push(alloc, extensions, subject, &usage)?;
    Ok(())
}

/// Puts a SubjectAltName.
pub(crate) fn push_alternative_names(
    alloc: Global,
    extensions: &mut Vec<Extension>,
    subject: &Name,
    names: &SubjectAltName,
) -> Result<()>
    ensures { Appends (makings.alternative_names subject.now names.now.0) result extensions.old.items extensions.new.items }
{
    push(alloc, extensions, subject, names)?;
    Ok(())
}
