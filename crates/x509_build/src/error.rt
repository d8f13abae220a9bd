//! Why builders and signers refuse.

ghost use Rattle.std.specs.Prelude.{◌≡◌};
ghost use Rattle.x509_build.specs.declared.error.Error.TheVariants.{Asn1, PublicKey, Signature};
ghost use Rattle.x509_build.specs.declared.error.KeyError.TheVariants as keys;
ghost use Rattle.x509_build.specs.declared.error.SignError.TheVariants as signing;

use std::alloc::{AllocError, AllocFailed, Global};
use x509_der::{Error as DerError, ObjectIdentifier, TryClone};

/// Why a signer doesn't tell its algorithm or its public key.
#[derive(Clone, Copy, Debug, PartialEq, Eq, thiserror::Error)]
pub enum KeyError {
    /// Out of memory.
    #[error("Memory")]
    Memory,

    /// The signer refused.
    #[error("Refused")]
    Refused,
}

impl From<AllocError> for KeyError {
    ghost from_gives = { λ _ e. e ≡ keys.Memory };

    fn from(_e: AllocError) -> KeyError {
        KeyError::Memory
    }
}

impl<T: Drop> From<AllocFailed<T>> for KeyError {
    ghost from_gives = { λ _ e. e ≡ keys.Memory };

    fn from(_e: AllocFailed<T>) -> KeyError {
        KeyError::Memory
    }
}

impl TryClone for KeyError {
    ghost use Rattle.std.specs.Prelude.{Ok};

    fn try_clone(&self, _alloc: Global) -> std::result::Result<KeyError, DerError>
        ensures { result ≡ Ok self.now }
    {
        Ok(*self)
    }
}

/// Why a signer doesn't sign.
#[derive(Clone, Copy, Debug, PartialEq, Eq, thiserror::Error)]
pub enum SignError {
    /// Out of memory.
    #[error("Memory")]
    Memory,

    /// The signer refused.
    #[error("Refused")]
    Refused,
}

impl From<AllocError> for SignError {
    ghost from_gives = { λ _ e. e ≡ signing.Memory };

    fn from(_e: AllocError) -> SignError {
        SignError::Memory
    }
}

impl<T: Drop> From<AllocFailed<T>> for SignError {
    ghost from_gives = { λ _ e. e ≡ signing.Memory };

    fn from(_e: AllocFailed<T>) -> SignError {
        SignError::Memory
    }
}

impl TryClone for SignError {
    ghost use Rattle.std.specs.Prelude.{Ok};

    fn try_clone(&self, _alloc: Global) -> std::result::Result<SignError, DerError>
        ensures { result ≡ Ok self.now }
    {
        Ok(*self)
    }
}

/// Why a builder refused.
#[derive(Debug, Drop, thiserror::Error)]
pub enum Error {
    /// A value can't be made, decoded or encoded.
    #[error("ASN.1 error: {0}")]
    Asn1(DerError),

    /// The signer doesn't tell its algorithm or its public key.
    #[error("public key error: {0}")]
    PublicKey(KeyError),

    /// The signer doesn't sign.
    #[error("signature error: {0}")]
    Signature(SignError),

    /// An RDN that hasn't just one attribute, in a name in which each has to have one.
    #[error("Each RelativeDistinguishedName MUST contain exactly one AttributeTypeAndValue.")]
    NonUniqueRdn,

    /// An attribute type that a name has more than once.
    #[error("Each Name MUST NOT contain more than one instance of a given AttributeTypeAndValue")]
    NonUniqueATV,

    /// An attribute out of its place, or one that the name may not have.
    #[error("Non-ordered attribute or invalid attribute found (oid={oid})")]
    InvalidAttribute {
        /// The type of the attribute.
        oid: ObjectIdentifier,
    },

    /// An attribute is missing.
    #[error("Not all required elements were specified")]
    MissingAttributes,

    /// There is no profile for certificates of this kind.
    #[error("unsupported certificate kind")]
    UnsupportedKind,
}

/// What a builder answers.
pub type Result<T> = std::result::Result<T, Error>;

impl From<DerError> for Error {
    ghost from_gives = { λ refusal e. e ≡ Asn1 refusal };

    fn from(refusal: DerError) -> Error {
        Error::Asn1(refusal)
    }
}

impl From<KeyError> for Error {
    ghost from_gives = { λ refusal e. e ≡ PublicKey refusal };

    fn from(refusal: KeyError) -> Error {
        Error::PublicKey(refusal)
    }
}

impl From<SignError> for Error {
    ghost from_gives = { λ refusal e. e ≡ Signature refusal };

    fn from(refusal: SignError) -> Error {
        Error::Signature(refusal)
    }
}
