//! Names of CRL distribution points.

use crate::pkix::name::general_name::GeneralNames;
use std::alloc::Global;
use x509_der::{
    Content, Decode, Encode, Error, ErrorKind, Grammar, Room, Spelled, Tag, TryClone,
    implicit_identifier,
};
use x509_name::name::RelativeDistinguishedName;

/// The name of a CRL distribution point (RFC 5280 4.2.1.13).
///
/// ```text
/// DistributionPointName ::= CHOICE {
///     fullName                 [0] IMPLICIT GeneralNames,
///     nameRelativeToCRLIssuer  [1] IMPLICIT RelativeDistinguishedName }
/// ```
#[derive(Debug, PartialEq, Eq)]
pub enum DistributionPointName {
    /// The full name, as general names.
    FullName(GeneralNames),

    /// An RDN that is appended to the name of the CRL issuer.
    NameRelativeToCRLIssuer(RelativeDistinguishedName),
}

impl Drop for DistributionPointName {
    fn drop(self) {
        match self {
            DistributionPointName::FullName(_) => {}
            DistributionPointName::NameRelativeToCRLIssuer(_) => {}
        }
    }
}

impl TryClone for DistributionPointName {
    fn try_clone(&self, alloc: Global) -> Result<DistributionPointName, Error> {
        Ok(match self {
            DistributionPointName::FullName(names) => {
                DistributionPointName::FullName(names.try_clone(alloc)?)
            }
            DistributionPointName::NameRelativeToCRLIssuer(rdn) => {
                DistributionPointName::NameRelativeToCRLIssuer(rdn.try_clone(alloc)?)
            }
        })
    }
}

#[tactic(auto, unfolding(x509_der::specs::Cases::choice_tag))]
impl Grammar for DistributionPointName {
    ghost use Rattle.x509_ext.specs.DistributionPointName as grammar;

    ghost form = { grammar.distribution_point_name };

    fn identifier(&self) -> Tag {
        match self {
            DistributionPointName::FullName(_) => implicit_identifier::<GeneralNames>(0),
            DistributionPointName::NameRelativeToCRLIssuer(_) => {
                implicit_identifier::<RelativeDistinguishedName>(1)
            }
        }
    }

    fn is_start(octet: u8) -> bool {
        matches!(octet, 0xA0 | 0xA1)
    }

    ghost lawful = { grammar.distribution_point_name_lawful };
}

#[tactic(auto, unfolding(x509_der::specs::Cases::choice_reading))]
impl Decode for DistributionPointName {
    fn read(alloc: Global, tag: u8, content: &[u8]) -> Result<DistributionPointName, Error> {
        Ok(match tag {
            0xA0 => DistributionPointName::FullName(GeneralNames::read_content(alloc, content)?),
            0xA1 => DistributionPointName::NameRelativeToCRLIssuer(
                RelativeDistinguishedName::read_content(alloc, content)?,
            ),
            _ => return Err(ErrorKind::Malformed.into()),
        })
    }
}

#[tactic(auto, unfolding(x509_der::specs::Cases::choice_content))]
impl Encode for DistributionPointName {
    ghost use Rattle.std.specs.Prelude.{refl};

    fn put_content<R: Room>(&self, room: &mut R) -> Result<(), Error> {
        match self {
            DistributionPointName::FullName(names) => names.put_content(room),
            DistributionPointName::NameRelativeToCRLIssuer(rdn) => rdn.put_content(room),
        }
    }

    ghost same_tag = { λ value. refl };
}

#[tactic(auto, unfolding(x509_der::specs::Cases::choice_good))]
impl Spelled for DistributionPointName {
    fn has_spelling(&self) {
        match self {
            DistributionPointName::FullName(names) => names.has_spelling(),
            DistributionPointName::NameRelativeToCRLIssuer(rdn) => rdn.has_spelling(),
        }
    }
}
