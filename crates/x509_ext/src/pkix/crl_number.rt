//! CRL numbers.

ghost use Rattle.std.specs.Prelude.{◌≡◌, ◌^◌, IsOkAnd};
ghost use Rattle.x509_der.specs.Natural.{natural_octets};
ghost use Rattle.x509_prim.specs.Integer.{integer_value, natural_below};

use crate::{Always, FixedCriticality, Never};
use std::alloc::Global;
use x509_der::{
    AssociatedOid, EncodingOrd, Error, Newtype, NewtypeOrd, ObjectIdentifier, SetMember, SetOrd,
    oid,
};
use x509_prim::Uint;

/// The CRL number, which rises from each CRL of an issuer to its next (RFC 5280 5.2.3). Its OID is 2.5.29.20, and it
/// isn't critical.
///
/// ```text
/// CRLNumber ::= INTEGER (0..MAX)
/// ```
#[derive(Debug, Drop, PartialEq, Eq)]
pub struct CrlNumber(pub Uint);

impl CrlNumber {
    /// The CRL number with that value. It takes no memory.
    ///
    /// # Errors
    ///
    /// None: it is never refused.
    pub fn from_u8(alloc: Global, number: u8) -> Result<CrlNumber, Error>
        ensures { IsOkAnd result (λ crl. crl.0 ≡ natural_octets number) }
    {
        Ok(CrlNumber(Uint::from_u128(alloc, u128::from(number))?))
    }

    /// The CRL number with that value. It takes no memory.
    ///
    /// # Errors
    ///
    /// None: it is never refused.
    pub fn from_u16(alloc: Global, number: u16) -> Result<CrlNumber, Error>
        ensures { IsOkAnd result (λ crl. crl.0 ≡ natural_octets number) }
    {
        Ok(CrlNumber(Uint::from_u128(alloc, u128::from(number))?))
    }

    /// The CRL number with that value. It takes no memory.
    ///
    /// # Errors
    ///
    /// None: it is never refused.
    pub fn from_u32(alloc: Global, number: u32) -> Result<CrlNumber, Error>
        ensures { IsOkAnd result (λ crl. crl.0 ≡ natural_octets number) }
    {
        Ok(CrlNumber(Uint::from_u128(alloc, u128::from(number))?))
    }

    /// The CRL number with that value. It takes no memory.
    ///
    /// # Errors
    ///
    /// None: it is never refused.
    pub fn from_u64(alloc: Global, number: u64) -> Result<CrlNumber, Error>
        ensures { IsOkAnd result (λ crl. crl.0 ≡ natural_octets number) }
    {
        Ok(CrlNumber(Uint::from_u128(alloc, u128::from(number))?))
    }

    /// The CRL number with that value. It takes no memory.
    ///
    /// # Errors
    ///
    /// None: it is never refused.
    pub fn from_u128(alloc: Global, number: u128) -> Result<CrlNumber, Error>
        ensures { IsOkAnd result (λ crl. crl.0 ≡ natural_octets number) }
    {
        Ok(CrlNumber(Uint::from_u128(alloc, number)?))
    }

    /// The number where it is below 2^64, else `None`.
    pub fn to_u64(&self) -> Option<u64>
        ensures { result ≡ natural_below (2 ^ 64) (integer_value self.now.0) }
    {
        self.0.to_u64()
    }

    /// The number where it is below 2^128, else `None`.
    pub fn to_u128(&self) -> Option<u128>
        ensures { result ≡ natural_below (2 ^ 128) (integer_value self.now.0) }
    {
        self.0.to_u128()
    }
}

impl AssociatedOid for CrlNumber {
    ghost use Rattle.x509_ext.specs.Identifiers.{id_ce};

    ghost OID = { id_ce 20 };

    const OID: ObjectIdentifier = oid!(0x55, 0x1D, 20);
}

impl FixedCriticality for CrlNumber {
    type Critical = Never;
}

impl Newtype for CrlNumber {
    ghost use Rattle.x509_ext.specs.CrlNumber.{crl_number_round};

    type Inner = Uint;

    ghost round = { crl_number_round };

    fn inner(&self) -> &Uint {
        &self.0
    }

    fn from_inner(inner: Uint) -> CrlNumber {
        CrlNumber(inner)
    }
}

impl NewtypeOrd for CrlNumber {}

impl SetOrd for CrlNumber {
    ghost set_order = { ⟦<CrlNumber as EncodingOrd>⟧.encoding_order };
}

impl SetMember for CrlNumber {
    ghost use Rattle.std.specs.Prelude.{refl};

    ghost in_der_order = { refl };
}

impl From<Uint> for CrlNumber {
    ghost from_gives = { λ number crl. crl.0 ≡ number };

    fn from(number: Uint) -> CrlNumber {
        CrlNumber(number)
    }
}

impl From<CrlNumber> for Uint {
    ghost from_gives = { λ crl number. number ≡ crl.0 };

    fn from(crl: CrlNumber) -> Uint {
        let CrlNumber(number) = crl;
        number
    }
}

impl AsRef<Uint> for CrlNumber {
    fn as_ref(&self) -> &Uint
        ensures { result.now ≡ self.now.0 }
    {
        &self.0
    }
}

impl AsMut<Uint> for CrlNumber {
    ghost use Rattle.std.specs.Borrow.{Lends, sem};
    ghost use Rattle.x509_ext.specs.contracts.pkix.crl_number.CrlNumber.{the_row};
    ghost use Rattle.x509_prim.specs.contracts.uint.Uint as uint;

    fn as_mut(&mut self) -> &mut Uint
        ensures* writes_back { sem 𝓛 (Lends the_row uint.the_row self.entry result (λ w. record { 0 = w })) }
        ensures value { result.now ≡ self.old.0 }
    {
        &mut self.0
    }
}

/// The delta CRL indicator: the number of the base CRL that a delta CRL changes (RFC 5280 5.2.4). Its OID is 2.5.29.27,
/// and it is critical.
///
/// ```text
/// BaseCRLNumber ::= CRLNumber
/// ```
#[derive(Debug, Drop, PartialEq, Eq)]
pub struct BaseCrlNumber(pub Uint);

impl BaseCrlNumber {
    /// The number where it is below 2^64, else `None`.
    pub fn to_u64(&self) -> Option<u64>
        ensures { result ≡ natural_below (2 ^ 64) (integer_value self.now.0) }
    {
        self.0.to_u64()
    }

    /// The number where it is below 2^128, else `None`.
    pub fn to_u128(&self) -> Option<u128>
        ensures { result ≡ natural_below (2 ^ 128) (integer_value self.now.0) }
    {
        self.0.to_u128()
    }
}

impl AssociatedOid for BaseCrlNumber {
    ghost use Rattle.x509_ext.specs.Identifiers.{id_ce};

    ghost OID = { id_ce 27 };

    const OID: ObjectIdentifier = oid!(0x55, 0x1D, 27);
}

impl FixedCriticality for BaseCrlNumber {
    type Critical = Always;
}

impl Newtype for BaseCrlNumber {
    ghost use Rattle.x509_ext.specs.CrlNumber.{base_crl_number_round};

    type Inner = Uint;

    ghost round = { base_crl_number_round };

    fn inner(&self) -> &Uint {
        &self.0
    }

    fn from_inner(inner: Uint) -> BaseCrlNumber {
        BaseCrlNumber(inner)
    }
}

impl NewtypeOrd for BaseCrlNumber {}

impl SetOrd for BaseCrlNumber {
    ghost set_order = { ⟦<BaseCrlNumber as EncodingOrd>⟧.encoding_order };
}

impl SetMember for BaseCrlNumber {
    ghost use Rattle.std.specs.Prelude.{refl};

    ghost in_der_order = { refl };
}

impl From<Uint> for BaseCrlNumber {
    ghost from_gives = { λ number base. base.0 ≡ number };

    fn from(number: Uint) -> BaseCrlNumber {
        BaseCrlNumber(number)
    }
}

impl From<BaseCrlNumber> for Uint {
    ghost from_gives = { λ base number. number ≡ base.0 };

    fn from(base: BaseCrlNumber) -> Uint {
        let BaseCrlNumber(number) = base;
        number
    }
}

impl AsRef<Uint> for BaseCrlNumber {
    fn as_ref(&self) -> &Uint
        ensures { result.now ≡ self.now.0 }
    {
        &self.0
    }
}

impl AsMut<Uint> for BaseCrlNumber {
    ghost use Rattle.std.specs.Borrow.{Lends, sem};
    ghost use Rattle.x509_ext.specs.contracts.pkix.crl_number.BaseCrlNumber.{the_row};
    ghost use Rattle.x509_prim.specs.contracts.uint.Uint as uint;

    fn as_mut(&mut self) -> &mut Uint
        ensures* writes_back { sem 𝓛 (Lends the_row uint.the_row self.entry result (λ w. record { 0 = w })) }
        ensures value { result.now ≡ self.old.0 }
    {
        &mut self.0
    }
}
