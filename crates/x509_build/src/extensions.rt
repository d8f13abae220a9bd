//! Lists of extensions, and the extensions of a CRL.

ghost use Rattle.std.specs.Prelude.{◌≡◌, ◌⊎◌, ◌++◌, Ok, Err, IfOk, IfErr};
ghost use Rattle.x509_build.specs.CrlParts.{IdentifiesKey, MakesExtensions, key_octets};
ghost use Rattle.x509_ext.specs.LookUp.{Finds, members, with_oid};
ghost use Rattle.x509_der.specs.declared.error.ErrorKind.TheVariants.{Memory};
ghost use Rattle.x509_ext.specs.Identifiers.{id_ce};

use std::alloc::Global;
use x509_cert::certificate::Certificate;
use x509_der::{Decode, Error, Grammar};
use x509_ext::pkix::{AuthorityKeyIdentifier, CrlNumber, SubjectKeyIdentifier, key_identifier};
use x509_ext::{Extensions, ToExtension};
use x509_name::name::Name;
use x509_prim::OctetString;

/// The identifier of a certificate's key: its SKI, and where it has none, the SHA-1 digest of the key.
pub(crate) fn issuer_key(alloc: Global, issuer: &Certificate) -> Result<OctetString, Error>
    ensures ok { IfOk result (λ identifier. IdentifiesKey (Finds ⟦<SubjectKeyIdentifier as Grammar>⟧.form ⟦<SubjectKeyIdentifier as Decode>⟧.refuses
        ⟦<SubjectKeyIdentifier as Decode>⟧.wants_memory (with_oid (id_ce 14) (members issuer.now.tbs_certificate.extensions)))
        (key_octets issuer.now.tbs_certificate) identifier) }
    ensures err { IfErr result (λ e. (e.kind ≡ Memory) ⊎ Finds ⟦<SubjectKeyIdentifier as Grammar>⟧.form ⟦<SubjectKeyIdentifier as Decode>⟧.refuses
        ⟦<SubjectKeyIdentifier as Decode>⟧.wants_memory (with_oid (id_ce 14) (members issuer.now.tbs_certificate.extensions)) (Err e)) }
{
    let part = issuer.tbs_certificate();
    match part.get_extension::<SubjectKeyIdentifier>(alloc)? {
        Some((_, identifier)) => Ok(OctetString::from(identifier)),
        None => key_identifier(alloc, part.subject_public_key_info().owned_to_ref()),
    }
}

/// The extensions of a CRL with that number, signed by the key with that identifier.
pub(crate) fn crl_extensions(
    alloc: Global,
    issuer: &Name,
    number: CrlNumber,
    identifier: OctetString,
) -> Result<Extensions, Error>
    ensures { MakesExtensions number.0 identifier result }
{
    let mut extensions = Extensions::new(alloc);
    extensions.push((&number).to_extension(alloc, issuer, extensions.as_slice())?)?;
    let issuer_key = AuthorityKeyIdentifier {
        key_identifier: Some(identifier),
        authority_cert_issuer: None,
        authority_cert_serial_number: None,
    };
    extensions.push((&issuer_key).to_extension(alloc, issuer, extensions.as_slice())?)?;
    Ok(extensions)
}

/// The extensions, followed by the others.
pub(crate) fn followed_by(extensions: Extensions, others: Extensions) -> Result<Extensions, Error>
    ensures ok { IfOk result (λ all. all ≡ extensions ++ others) }
    ensures err { IfErr result (λ e. e.kind ≡ Memory) }
{
    let mut all = extensions.into_vec();
    let mut behind = others.into_vec();
    all.append(&mut behind)?;
    Ok(Extensions::from(all))
}
