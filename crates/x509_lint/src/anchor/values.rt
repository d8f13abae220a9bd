//! What is asked of the description of a trust anchor beside its fields: its extensions, and the certificate and the policies in its controls.

ghost use Rattle.std.specs.Prelude.{◌≡◌, ◌↔◌, IfErr, IfOk, IsTrue};
ghost use Rattle.x509_der.specs.declared.error.ErrorKind.TheVariants.{Memory};
ghost use Rattle.x509_lint.specs.Anchor as grammar;

use crate::extensions::{extensions_of, payload};
use crate::passes;
use crate::read::{ExtensionsRead, extensions_read};
use crate::repeats::{are_identifiers_distinct, are_rdns_distinct, policies_of};
use std::alloc::Global;
use x509_base::laws::equality_of_keys_is_exact;
use x509_base::{Raw, SubjectPublicKeyInfo};
use x509_cert::anchor::{CertPathControls, TrustAnchorInfo};
use x509_cert::certificate::CertificateInner;
use x509_der::Error;
use x509_ext::pkix::SubjectKeyIdentifier;
use x509_ext::pkix::certpolicy::PolicyInformation;
use x509_ext::{Extension, has_repeated_extension, members};
use x509_name::laws::equal_names_are_one_value;
use x509_name::name::{Name, RdnSequence, RelativeDistinguishedName};

/// What is asked of the description of a trust anchor beside its fields.
pub(crate) struct AnchorValues {
    /// The subject of the certificate isn't the name of the anchor.
    pub(crate) subject_differs: bool,

    /// The key of the certificate isn't the key of the anchor.
    pub(crate) key_differs: bool,

    /// The SKI of the certificate.
    pub(crate) key_identifier: Option<SubjectKeyIdentifier>,

    /// No policy is there twice.
    pub(crate) are_policies_distinct: bool,

    /// Two extensions have one OID.
    pub(crate) is_repeated: bool,

    /// Which types of extensions are read.
    pub(crate) read: ExtensionsRead,

    /// No RDN of the name has two attributes of one type.
    pub(crate) is_name_distinct: bool,
}

impl Drop for AnchorValues {
    fn drop(self) {
        let AnchorValues {
            subject_differs: _,
            key_differs: _,
            key_identifier: _,
            are_policies_distinct: _,
            is_repeated: _,
            read: _,
            is_name_distinct: _,
        } = self;
    }
}

fn has_other_subject(certificate: &Option<CertificateInner<Raw>>, name: &Name) -> bool
    ensures { IsTrue result ↔ grammar.Differs (λ c. c.tbs_certificate.subject) name.now certificate.now }
{
    equal_names_are_one_value();
    passes!(certificate, certificate => *certificate.tbs_certificate().subject() != *name)
}

/// Whether the subject of the certificate in the controls isn't their name.
fn do_subjects_differ(controls: &Option<CertPathControls<Raw>>) -> bool
    ensures { IsTrue result ↔ grammar.SubjectDiffers controls.now }
{
    passes!(controls, controls => has_other_subject(&controls.certificate, &controls.ta_name))
}

fn has_other_key(certificate: &Option<CertificateInner<Raw>>, key: &SubjectPublicKeyInfo) -> bool
    ensures { IsTrue result ↔ grammar.Differs (λ c. c.tbs_certificate.subject_public_key_info) key.now certificate.now }
{
    equality_of_keys_is_exact();
    passes!(certificate, certificate => *certificate.tbs_certificate().subject_public_key_info() != *key)
}

/// Whether the key of the certificate in the controls isn't this one.
fn do_keys_differ(key: &SubjectPublicKeyInfo, controls: &Option<CertPathControls<Raw>>) -> bool
    ensures { IsTrue result ↔ grammar.KeyDiffers key.now controls.now }
{
    passes!(controls, controls => has_other_key(&controls.certificate, key))
}

/// The extensions of the certificate in the controls; none where there is no certificate.
fn own_extensions(controls: &Option<CertPathControls<Raw>>) -> &[Extension]
    ensures { result.now ≡ grammar.own_extensions controls.now }
{
    match controls {
        Some(controls) => match &controls.certificate {
            Some(certificate) => extensions_of(certificate),
            None => &[],
        },
        None => &[],
    }
}

/// The policies in the controls; none where they have none.
pub(crate) fn policy_set(controls: &Option<CertPathControls<Raw>>) -> &[PolicyInformation]
    ensures { result.now ≡ grammar.policy_set controls.now }
{
    match controls {
        Some(controls) => policies_of(&controls.policy_set),
        None => &[],
    }
}

/// The RDNs of the name in the controls; none where there are no controls.
fn ta_rdns(controls: &Option<CertPathControls<Raw>>) -> &[RelativeDistinguishedName]
    ensures { result.now ≡ grammar.ta_rdns controls.now }
{
    match controls {
        Some(controls) => {
            let rdns: &RdnSequence = controls.ta_name.as_ref();
            rdns.as_slice()
        }
        None => &[],
    }
}

/// What is asked of the description of a trust anchor.
pub(crate) fn anchor_values(
    alloc: Global,
    info: &TrustAnchorInfo<Raw>,
) -> Result<AnchorValues, Error>
    ensures ok { IfOk result (grammar.AreAnchorValues info.now) }
    ensures err { IfErr result (λ e. e.kind ≡ Memory) }
{
    let extensions = members(info.extensions.as_ref());
    let subject_differs = do_subjects_differ(&info.cert_path);
    let key_differs = do_keys_differ(&info.pub_key, &info.cert_path);
    let are_policies_distinct = are_identifiers_distinct(alloc, policy_set(&info.cert_path))?;
    let is_repeated = has_repeated_extension(alloc, extensions)?;
    let read = extensions_read(alloc, extensions)?;
    let is_name_distinct = are_rdns_distinct(alloc, ta_rdns(&info.cert_path))?;
    let key_identifier = payload(alloc, own_extensions(&info.cert_path))?;
    Ok(AnchorValues {
        subject_differs,
        key_differs,
        key_identifier,
        are_policies_distinct,
        is_repeated,
        read,
        is_name_distinct,
    })
}
