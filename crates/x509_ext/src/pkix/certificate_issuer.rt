//! The issuer of an entry in an indirect CRL.

ghost use Rattle.std.specs.Prelude.{◌≡◌, []};

use crate::pkix::name::GeneralNames;
use crate::{Always, FixedCriticality};
use std::alloc::Global;
use x509_der::{AssociatedOid, Newtype, ObjectIdentifier, SequenceOf, oid};

/// The issuer of the certificate of an entry in an indirect CRL, and of those of the entries after it up to the next that
/// has this extension (RFC 5280 5.3.3). Its OID is 2.5.29.29, and it is critical. An empty sequence is decoded and encoded
/// too.
///
/// ```text
/// CertificateIssuer ::= GeneralNames
/// ```
#[derive(Debug, Drop, PartialEq, Eq)]
pub struct CertificateIssuer(pub GeneralNames);

impl CertificateIssuer {
    /// No names. It takes no memory.
    pub fn new(alloc: Global) -> CertificateIssuer
        ensures { result.0 ≡ [] }
    {
        CertificateIssuer(SequenceOf::new(alloc))
    }
}

impl AssociatedOid for CertificateIssuer {
    ghost use Rattle.x509_ext.specs.Identifiers.{id_ce};

    ghost OID = { id_ce 29 };

    const OID: ObjectIdentifier = oid!(0x55, 0x1D, 29);
}

impl FixedCriticality for CertificateIssuer {
    type Critical = Always;
}

impl Newtype for CertificateIssuer {
    ghost use Rattle.x509_ext.specs.CertificateIssuer.{certificate_issuer_round};

    type Inner = GeneralNames;

    ghost round = { certificate_issuer_round };

    fn inner(&self) -> &GeneralNames {
        &self.0
    }

    fn from_inner(inner: GeneralNames) -> CertificateIssuer {
        CertificateIssuer(inner)
    }
}

impl From<GeneralNames> for CertificateIssuer {
    ghost from_gives = { λ names issuer. issuer.0 ≡ names };

    fn from(names: GeneralNames) -> CertificateIssuer {
        CertificateIssuer(names)
    }
}

impl From<CertificateIssuer> for GeneralNames {
    ghost from_gives = { λ issuer names. names ≡ issuer.0 };

    fn from(issuer: CertificateIssuer) -> GeneralNames {
        let CertificateIssuer(names) = issuer;
        names
    }
}

impl AsRef<GeneralNames> for CertificateIssuer {
    fn as_ref(&self) -> &GeneralNames
        ensures { result.now ≡ self.now.0 }
    {
        &self.0
    }
}

impl AsMut<GeneralNames> for CertificateIssuer {
    ghost use Rattle.std.specs.Borrow.{Lends, sem};
    ghost use Rattle.x509_ext.specs.RevocationRows.{general_names_row};
    ghost use Rattle.x509_ext.specs.contracts.pkix.certificate_issuer.CertificateIssuer.{the_row};

    fn as_mut(&mut self) -> &mut GeneralNames
        ensures* writes_back { sem 𝓛 (Lends the_row general_names_row self.entry result (λ w. record { 0 = w })) }
        ensures value { result.now ≡ self.old.0 }
    {
        &mut self.0
    }
}
