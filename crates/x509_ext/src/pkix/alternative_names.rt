//! Alternative names of the subject and of the issuer: SAN and IAN.

ghost use Rattle.std.specs.Prelude.{◌≡◌, []};

use crate::pkix::name::GeneralNames;
use crate::{Criticality, Extension, FixedCriticality, Never};
use std::alloc::Global;
use x509_der::{AssociatedOid, Newtype, ObjectIdentifier, SequenceOf, oid};
use x509_name::name::Name;

/// The OID of [`SubjectAltName`], 2.5.29.17.
pub const ID_CE_SUBJECT_ALT_NAME: ObjectIdentifier = oid!(0x55, 0x1D, 17);

/// The subject alternative name, SAN (RFC 5280 4.2.1.6). Its OID is 2.5.29.17. It is critical exactly where the subject
/// is the empty name. An empty sequence is decoded and encoded too.
///
/// ```text
/// SubjectAltName ::= GeneralNames
/// ```
#[derive(Debug, Drop, PartialEq, Eq)]
pub struct SubjectAltName(pub GeneralNames);

impl SubjectAltName {
    /// No names. It takes no memory.
    pub fn new(alloc: Global) -> SubjectAltName
        ensures { result.0 ≡ [] }
    {
        SubjectAltName(SequenceOf::new(alloc))
    }
}

impl AssociatedOid for SubjectAltName {
    ghost use Rattle.x509_ext.specs.Identifiers.{id_ce};

    ghost OID = { id_ce 17 };

    const OID: ObjectIdentifier = ID_CE_SUBJECT_ALT_NAME;
}

impl Criticality for SubjectAltName {
    ghost use Rattle.x509_ext.specs.AlternativeNames.{is_empty_name};

    ghost is_critical = { λ alternative subject extensions. is_empty_name subject };

    fn criticality(&self, subject: &Name, _extensions: &[Extension]) -> bool {
        subject.is_empty()
    }
}

impl Newtype for SubjectAltName {
    ghost use Rattle.x509_ext.specs.AlternativeNames.{subject_alt_name_round};

    type Inner = GeneralNames;

    ghost round = { subject_alt_name_round };

    fn inner(&self) -> &GeneralNames {
        &self.0
    }

    fn from_inner(inner: GeneralNames) -> SubjectAltName {
        SubjectAltName(inner)
    }
}

impl From<GeneralNames> for SubjectAltName {
    ghost from_gives = { λ names alternative. alternative.0 ≡ names };

    fn from(names: GeneralNames) -> SubjectAltName {
        SubjectAltName(names)
    }
}

impl From<SubjectAltName> for GeneralNames {
    ghost from_gives = { λ alternative names. names ≡ alternative.0 };

    fn from(alternative: SubjectAltName) -> GeneralNames {
        let SubjectAltName(names) = alternative;
        names
    }
}

impl AsRef<GeneralNames> for SubjectAltName {
    fn as_ref(&self) -> &GeneralNames
        ensures { result.now ≡ self.now.0 }
    {
        &self.0
    }
}

impl AsMut<GeneralNames> for SubjectAltName {
    ghost use Rattle.std.specs.Borrow.{Lends, sem};
    ghost use Rattle.x509_ext.specs.PartyRows.{general_names_row};
    ghost use Rattle.x509_ext.specs.contracts.pkix.alternative_names.SubjectAltName.{the_row};

    fn as_mut(&mut self) -> &mut GeneralNames
        ensures* writes_back { sem 𝓛 (Lends the_row general_names_row self.entry result (λ w. record { 0 = w })) }
        ensures value { result.now ≡ self.old.0 }
    {
        &mut self.0
    }
}

/// The OID of [`IssuerAltName`], 2.5.29.18.
pub const ID_CE_ISSUER_ALT_NAME: ObjectIdentifier = oid!(0x55, 0x1D, 18);

/// The issuer alternative name, IAN (RFC 5280 4.2.1.7). Its OID is 2.5.29.18, and it isn't critical. An empty sequence
/// is decoded and encoded too.
///
/// ```text
/// IssuerAltName ::= GeneralNames
/// ```
#[derive(Debug, Drop, PartialEq, Eq)]
pub struct IssuerAltName(pub GeneralNames);

impl IssuerAltName {
    /// No names. It takes no memory.
    pub fn new(alloc: Global) -> IssuerAltName
        ensures { result.0 ≡ [] }
    {
        IssuerAltName(SequenceOf::new(alloc))
    }
}

impl AssociatedOid for IssuerAltName {
    ghost use Rattle.x509_ext.specs.Identifiers.{id_ce};

    ghost OID = { id_ce 18 };

    const OID: ObjectIdentifier = ID_CE_ISSUER_ALT_NAME;
}

impl FixedCriticality for IssuerAltName {
    type Critical = Never;
}

impl Newtype for IssuerAltName {
    ghost use Rattle.x509_ext.specs.AlternativeNames.{issuer_alt_name_round};

    type Inner = GeneralNames;

    ghost round = { issuer_alt_name_round };

    fn inner(&self) -> &GeneralNames {
        &self.0
    }

    fn from_inner(inner: GeneralNames) -> IssuerAltName {
        IssuerAltName(inner)
    }
}

impl From<GeneralNames> for IssuerAltName {
    ghost from_gives = { λ names alternative. alternative.0 ≡ names };

    fn from(names: GeneralNames) -> IssuerAltName {
        IssuerAltName(names)
    }
}

impl From<IssuerAltName> for GeneralNames {
    ghost from_gives = { λ alternative names. names ≡ alternative.0 };

    fn from(alternative: IssuerAltName) -> GeneralNames {
        let IssuerAltName(names) = alternative;
        names
    }
}

impl AsRef<GeneralNames> for IssuerAltName {
    fn as_ref(&self) -> &GeneralNames
        ensures { result.now ≡ self.now.0 }
    {
        &self.0
    }
}

impl AsMut<GeneralNames> for IssuerAltName {
    ghost use Rattle.std.specs.Borrow.{Lends, sem};
    ghost use Rattle.x509_ext.specs.PartyRows.{general_names_row};
    ghost use Rattle.x509_ext.specs.contracts.pkix.alternative_names.IssuerAltName.{the_row};

    fn as_mut(&mut self) -> &mut GeneralNames
        ensures* writes_back { sem 𝓛 (Lends the_row general_names_row self.entry result (λ w. record { 0 = w })) }
        ensures value { result.now ≡ self.old.0 }
    {
        &mut self.0
    }
}
