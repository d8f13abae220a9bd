//! What is asked of an object once: what takes memory, or compares values as a whole.

ghost use Rattle.std.specs.List.{All};
ghost use Rattle.std.specs.Prelude.{◌≡◌, ◌≢◌, ◌↔◌, IsTrue, IfOk, IfErr};
ghost use Rattle.x509_der.specs.declared.error.ErrorKind.TheVariants.{Memory};
ghost use Rattle.x509_lint.specs.Values.{AreCertificateFacts, AreFrontFacts, HasDistinctTypes};

use crate::entries::EntryFacts;
use crate::extensions::extensions_of;
use crate::read::{CrlRead, ExtensionsRead, crl_read, extensions_read};
use crate::repeats::is_distinct_name;
use std::alloc::Global;
use x509_base::Raw;
use x509_base::laws::equality_of_keys_is_exact;
use x509_cert::certificate::CertificateInner;
use x509_cert::crl::CertificateList;
use x509_der::Error;
use x509_ext::{has_repeated_extension, members};

/// What is asked of a certificate once.
#[derive(Clone, Copy)]
pub(crate) struct CertificateFacts {
    /// The algorithm in the signed part isn't the one outside it.
    pub(crate) algorithms_differ: bool,

    /// Two extensions have one OID.
    pub(crate) is_repeated: bool,

    /// Which types of extensions are read.
    pub(crate) read: ExtensionsRead,

    /// No RDN of the issuer has two attributes of one type.
    pub(crate) is_issuer_distinct: bool,

    /// No RDN of the subject has.
    pub(crate) is_subject_distinct: bool,
}

/// What is asked of a CRL once.
#[derive(Clone, Copy)]
pub(crate) struct CrlFacts {
    /// The algorithm in the signed part isn't the one outside it.
    pub(crate) algorithms_differ: bool,

    /// Two extensions have one OID.
    pub(crate) is_repeated: bool,

    /// Which types of extensions are read.
    pub(crate) read: CrlRead,

    /// No RDN of the issuer has two attributes of one type.
    pub(crate) is_issuer_distinct: bool,

    /// What is asked of the entries.
    pub(crate) entries: EntryFacts,
}

fn do_algorithms_differ(certificate: &CertificateInner<Raw>) -> bool
    ensures { IsTrue result ↔ (certificate.now.tbs_certificate.signature ≢ certificate.now.signature_algorithm) }
{
    equality_of_keys_is_exact();
    certificate.tbs_certificate().signature() != certificate.signature_algorithm()
}

fn do_crl_algorithms_differ(crl: &CertificateList<Raw>) -> bool
    ensures { IsTrue result ↔ (crl.now.tbs_cert_list.signature ≢ crl.now.signature_algorithm) }
{
    equality_of_keys_is_exact();
    crl.tbs_cert_list.signature != crl.signature_algorithm
}

fn has_distinct_issuer(alloc: Global, certificate: &CertificateInner<Raw>) -> Result<bool, Error>
    ensures ok { IfOk result (λ b. IsTrue b ↔ All HasDistinctTypes certificate.now.tbs_certificate.issuer) }
    ensures err { IfErr result (λ e. e.kind ≡ Memory) }
{
    is_distinct_name(alloc, certificate.tbs_certificate().issuer())
}

fn has_distinct_subject(alloc: Global, certificate: &CertificateInner<Raw>) -> Result<bool, Error>
    ensures ok { IfOk result (λ b. IsTrue b ↔ All HasDistinctTypes certificate.now.tbs_certificate.subject) }
    ensures err { IfErr result (λ e. e.kind ≡ Memory) }
{
    is_distinct_name(alloc, certificate.tbs_certificate().subject())
}

/// The facts of a certificate.
pub(crate) fn certificate_facts(
    alloc: Global,
    certificate: &CertificateInner<Raw>,
) -> Result<CertificateFacts, Error>
    ensures ok { IfOk result (AreCertificateFacts certificate.now) }
    ensures err { IfErr result (λ e. e.kind ≡ Memory) }
{
    let extensions = extensions_of(certificate);
    let algorithms_differ = do_algorithms_differ(certificate);
    let is_repeated = has_repeated_extension(alloc, extensions)?;
    let read = extensions_read(alloc, extensions)?;
    let is_issuer_distinct = has_distinct_issuer(alloc, certificate)?;
    let is_subject_distinct = has_distinct_subject(alloc, certificate)?;
    Ok(CertificateFacts {
        algorithms_differ,
        is_repeated,
        read,
        is_issuer_distinct,
        is_subject_distinct,
    })
}

/// The facts of a CRL, of whose entries these are the facts.
pub(crate) fn crl_facts(
    alloc: Global,
    crl: &CertificateList<Raw>,
    entries: EntryFacts,
) -> Result<CrlFacts, Error>
    ensures ok { IfOk result (λ facts. AreFrontFacts crl.now facts × (facts.entries ≡ entries)) }
    ensures err { IfErr result (λ e. e.kind ≡ Memory) }
{
    let algorithms_differ = do_crl_algorithms_differ(crl);
    let extensions = members(crl.tbs_cert_list.crl_extensions.as_ref());
    let is_repeated = has_repeated_extension(alloc, extensions)?;
    let read = crl_read(alloc, extensions)?;
    let is_issuer_distinct = is_distinct_name(alloc, &crl.tbs_cert_list.issuer)?;
    Ok(CrlFacts {
        algorithms_differ,
        is_repeated,
        read,
        is_issuer_distinct,
        entries,
    })
}
