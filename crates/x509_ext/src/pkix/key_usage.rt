//! Key usage.

ghost use Rattle.std.specs.Prelude.{◌≡◌};
ghost use Rattle.x509_ext.specs.KeyUsage.{has_bit};

use crate::{Always, FixedCriticality};
use bitflags::{Flag, Flags, bitflag_items};
use std::alloc::Global;
use std::cmp::Ordering;
use x509_der::{
    AssociatedOid, Content, EncodingOrd, Error, Newtype, NewtypeOrd, ObjectIdentifier, Room,
    SetMember, SetOrd, Spelled, Tag, TryClone, ValueOrd, oid,
};
use x509_prim::{cmp_named_bits, put_named_bits, read_named_bits};

/// A set of key usages, of which bit n stands for the named bit n (RFC 5280 4.2.1.3). A bit from 9 on has no name:
/// decoding refuses it as `Malformed`, and encoding as `Value`. [`Flags::iter_names`] gives the usages that are set,
/// each with its name.
#[derive(Clone, Copy, Debug, PartialEq, Eq)]
pub struct KeyUsages(u16);

bitflag_items! {
    impl KeyUsages: u16 {
        /// The key is used to verify signatures other than those of certificates and CRLs.
        const DIGITAL_SIGNATURE = 1;

        /// The key is used to verify signatures that the signer can't deny later; also called contentCommitment.
        const NON_REPUDIATION = 2;

        /// The key is used to encipher private or secret keys.
        const KEY_ENCIPHERMENT = 4;

        /// The key is used to encipher data directly.
        const DATA_ENCIPHERMENT = 8;

        /// The key is used for key agreement.
        const KEY_AGREEMENT = 16;

        /// The key is used to verify signatures of certificates.
        const KEY_CERT_SIGN = 32;

        /// The key is used to verify signatures of CRLs.
        const CRL_SIGN = 64;

        /// Beside `key_agreement`: the key is used in it only to encipher.
        const ENCIPHER_ONLY = 128;

        /// Beside `key_agreement`: the key is used in it only to decipher.
        const DECIPHER_ONLY = 256;
    }
}

impl Flags for KeyUsages {
    ghost use Rattle.std.specs.Prelude.{⊤};
    ghost use Rattle.x509_ext.specs.KeyUsage.{key_usage_names};

    type Bits = u16;

    ghost exact = { ⊤ };

    ghost table = { key_usage_names };

    ghost set_of = { λ usages. usages.0 };

    fn flags<'a>() -> &'a [Flag<KeyUsages>] {
        KeyUsages::FLAGS
    }

    fn bits(&self) -> u16 {
        self.0
    }

    fn from_bits_retain(bits: u16) -> KeyUsages {
        KeyUsages(bits)
    }
}

#[tactic(auto, using(x509_prim::specs::NamedBitsLaws::flag_is_read))]
impl Content for KeyUsages {
    ghost use Rattle.x509_der.specs.declared.tag.Tag.TheVariants.{BitString};
    ghost use Rattle.x509_ext.specs.KeyUsage.{key_usage_names, key_usage_set};
    ghost use Rattle.x509_prim.specs.NamedBits.{flag_contents, flag_writing};
    ghost use Rattle.x509_prim.specs.NamedBitsLaws.{flag_contents_lawful};

    ghost contents = { flag_contents key_usage_set key_usage_names };

    ghost takes_memory = { ⊥ };

    ghost written_as = { flag_writing key_usage_set key_usage_names };

    ghost IDENTIFIER = { BitString };

    const IDENTIFIER: Tag = Tag::BitString;

    fn read_content(_alloc: Global, octets: &[u8]) -> Result<KeyUsages, Error> {
        read_named_bits(octets)
    }

    fn write_content<R: Room>(&self, room: &mut R) -> Result<(), Error> {
        put_named_bits(self, room)
    }

    ghost contents_lawful = { flag_contents_lawful key_usage_set key_usage_names };
}

impl Spelled for KeyUsages {
    ghost use Rattle.std.specs.Prelude.{true};
    ghost use Rattle.x509_ext.specs.KeyUsage.{key_usage_names};
    ghost use Rattle.x509_prim.specs.NamedBits.{has_names};

    ghost premise = { λ usages. has_names key_usage_names usages.0 ≡ true };

    fn has_spelling(&self) {
        let _set = self.0;
    }
}

impl ValueOrd for KeyUsages {
    ghost use Rattle.x509_der.specs.Writing.{writes};
    ghost use Rattle.x509_ext.specs.KeyUsage.{key_usage_names, key_usage_set};
    ghost use Rattle.x509_prim.specs.NamedBits.{flag_writing};
    ghost use Rattle.x509_prim.specs.SetOrder.{flag_order, flag_ordered};

    ghost order = { flag_order key_usage_set key_usage_names };

    fn value_cmp(&self, other: &KeyUsages) -> Ordering {
        cmp_named_bits(self, other)
    }

    ghost ordered = { flag_ordered key_usage_set key_usage_names (writes (flag_writing key_usage_set key_usage_names)) };
}

impl SetOrd for KeyUsages {
    ghost set_order = { ⟦<KeyUsages as EncodingOrd>⟧.encoding_order };
}

impl SetMember for KeyUsages {
    ghost use Rattle.std.specs.Prelude.{refl};

    ghost in_der_order = { refl };
}

impl TryClone for KeyUsages {
    ghost use Rattle.std.specs.Prelude.{◌≡◌, Ok};

    fn try_clone(&self, _alloc: Global) -> Result<KeyUsages, Error>
        ensures { result ≡ Ok self.now }
    {
        Ok(*self)
    }
}

/// Key usage: what the key may be used for (RFC 5280 4.2.1.3). Its OID is 2.5.29.15, and it is critical.
///
/// ```text
/// KeyUsage ::= BIT STRING {
///     digitalSignature  (0),
///     nonRepudiation    (1),
///     keyEncipherment   (2),
///     dataEncipherment  (3),
///     keyAgreement      (4),
///     keyCertSign       (5),
///     cRLSign           (6),
///     encipherOnly      (7),
///     decipherOnly      (8) }
/// ```
#[derive(Clone, Copy, Debug, PartialEq, Eq)]
pub struct KeyUsage(pub KeyUsages);

impl KeyUsage {
    /// Whether the key is used to verify signatures other than those of certificates and CRLs.
    pub fn digital_signature(&self) -> bool
        ensures { result ≡ has_bit self.now 0 }
    {
        self.0.contains(KeyUsages::DIGITAL_SIGNATURE)
    }

    /// Whether the key is used to verify signatures that the signer can't deny later; also called contentCommitment.
    pub fn non_repudiation(&self) -> bool
        ensures { result ≡ has_bit self.now 1 }
    {
        self.0.contains(KeyUsages::NON_REPUDIATION)
    }

    /// Whether the key is used to encipher private or secret keys.
    pub fn key_encipherment(&self) -> bool
        ensures { result ≡ has_bit self.now 2 }
    {
        self.0.contains(KeyUsages::KEY_ENCIPHERMENT)
    }

    /// Whether the key is used to encipher data directly.
    pub fn data_encipherment(&self) -> bool
        ensures { result ≡ has_bit self.now 3 }
    {
        self.0.contains(KeyUsages::DATA_ENCIPHERMENT)
    }

    /// Whether the key is used for key agreement.
    pub fn key_agreement(&self) -> bool
        ensures { result ≡ has_bit self.now 4 }
    {
        self.0.contains(KeyUsages::KEY_AGREEMENT)
    }

    /// Whether the key is used to verify signatures of certificates.
    pub fn key_cert_sign(&self) -> bool
        ensures { result ≡ has_bit self.now 5 }
    {
        self.0.contains(KeyUsages::KEY_CERT_SIGN)
    }

    /// Whether the key is used to verify signatures of CRLs.
    pub fn crl_sign(&self) -> bool
        ensures { result ≡ has_bit self.now 6 }
    {
        self.0.contains(KeyUsages::CRL_SIGN)
    }

    /// Whether, beside `key_agreement`, the key is used in it only to encipher.
    pub fn encipher_only(&self) -> bool
        ensures { result ≡ has_bit self.now 7 }
    {
        self.0.contains(KeyUsages::ENCIPHER_ONLY)
    }

    /// Whether, beside `key_agreement`, the key is used in it only to decipher.
    pub fn decipher_only(&self) -> bool
        ensures { result ≡ has_bit self.now 8 }
    {
        self.0.contains(KeyUsages::DECIPHER_ONLY)
    }
}

impl AssociatedOid for KeyUsage {
    ghost use Rattle.x509_ext.specs.Identifiers.{id_ce};

    ghost OID = { id_ce 15 };

    const OID: ObjectIdentifier = oid!(0x55, 0x1D, 15);
}

impl FixedCriticality for KeyUsage {
    type Critical = Always;
}

impl Newtype for KeyUsage {
    ghost use Rattle.x509_ext.specs.KeyUsage.{key_usage_round};

    type Inner = KeyUsages;

    ghost round = { key_usage_round };

    fn inner(&self) -> &KeyUsages {
        &self.0
    }

    fn from_inner(inner: KeyUsages) -> KeyUsage {
        KeyUsage(inner)
    }
}

impl NewtypeOrd for KeyUsage {}

impl SetOrd for KeyUsage {
    ghost set_order = { ⟦<KeyUsage as EncodingOrd>⟧.encoding_order };
}

impl SetMember for KeyUsage {
    ghost use Rattle.std.specs.Prelude.{refl};

    ghost in_der_order = { refl };
}

impl From<KeyUsages> for KeyUsage {
    ghost from_gives = { λ usages usage. usage.0 ≡ usages };

    fn from(usages: KeyUsages) -> KeyUsage {
        KeyUsage(usages)
    }
}

impl From<KeyUsage> for KeyUsages {
    ghost from_gives = { λ usage usages. usages ≡ usage.0 };

    fn from(usage: KeyUsage) -> KeyUsages {
        let KeyUsage(usages) = usage;
        usages
    }
}

impl AsRef<KeyUsages> for KeyUsage {
    fn as_ref(&self) -> &KeyUsages
        ensures { result.now ≡ self.now.0 }
    {
        &self.0
    }
}

impl AsMut<KeyUsages> for KeyUsage {
    ghost use Rattle.std.specs.Borrow.{Lends, sem};
    ghost use Rattle.x509_ext.specs.contracts.pkix.key_usage.KeyUsage.{the_row};
    ghost use Rattle.x509_ext.specs.contracts.pkix.key_usage.KeyUsages as usages;

    fn as_mut(&mut self) -> &mut KeyUsages
        ensures* writes_back { sem 𝓛 (Lends the_row usages.the_row self.entry result (λ w. record { 0 = w })) }
        ensures value { result.now ≡ self.old.0 }
    {
        &mut self.0
    }
}
