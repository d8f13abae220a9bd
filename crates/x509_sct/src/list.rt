//! Lists of signed certificate timestamps (SCTs).

ghost use Rattle.std.specs.Prelude.{◌≡◌, ◌<◌, ◌≤◌, ◌⊎◌, length, IfOk, IfErr};
ghost use Rattle.x509_sct.specs.declared.error.Error.TheVariants as errors;
ghost use Rattle.x509_sct.specs.TimestampList.{serialized, IsTimestampList};
ghost use Rattle.x509_sct.specs.declared.tls.error.TlsError.TheVariants.{InvalidVectorLength, Memory};
ghost use Rattle.x509_sct.specs.Answers.{Answers};
ghost use Rattle.x509_sct.specs.Items.{joined};
ghost use Rattle.x509_sct.specs.Lists.{ListFault};
ghost use Rattle.x509_sct.specs.Numbers.{uint16};

use crate::error::Error;
use crate::serialized::SerializedSct;
use crate::tls::{read_list, serialize_list};
use std::alloc::Global;
use x509_der::{
    AssociatedOid, EncodingOrd, Newtype, NewtypeOrd, ObjectIdentifier, SetMember, SetOrd, oid,
};
use x509_ext::{FixedCriticality, Never};
use x509_prim::OctetString;

// 1.3.6.1.4.1.11129.2.4.2 (RFC 6962 section 3.3)
const EMBEDDED_TIMESTAMPS: ObjectIdentifier = oid!(
    0x2B, 0x06, 0x01, 0x04, 0x01, 0xD6, 0x79, 0x02, 0x04, 0x02
);

/// The list of a certificate's SCTs, as octets that are to be a list in TLS (RFC 6962 section 3.3). Its OID is
/// 1.3.6.1.4.1.11129.2.4.2, and it isn't critical. The octets are decoded and encoded as they are;
/// [`parse_timestamps`](SignedCertificateTimestampList::parse_timestamps) decodes what they hold. The list may be
/// empty.
///
/// ```text
/// SignedCertificateTimestampList ::= OCTET STRING
/// ```
#[derive(Debug, Drop, PartialEq, Eq)]
pub struct SignedCertificateTimestampList(OctetString);

impl SignedCertificateTimestampList {
    /// The list of these timestamps, in their order.
    ///
    /// # Errors
    ///
    /// `InvalidVectorLength`, as [`Error::Tls`], exactly where they have, with their lengths, more than 65,535 bytes.
    /// Else `Memory`, as [`Error::Tls`], when out of memory.
    pub fn new(
        alloc: Global,
        timestamps: &[SerializedSct],
    ) -> Result<SignedCertificateTimestampList, Error>
        ensures ok { IfOk result (λ list. IsTimestampList timestamps.now list.0) }
        ensures err { IfErr result (λ e. ((e ≡ errors.Tls InvalidVectorLength) × (65535 < length (joined serialized timestamps.now)))
            ⊎ ((e ≡ errors.Tls Memory) × (length (joined serialized timestamps.now) ≤ 65535))) }
    {
        let octets = serialize_list(alloc, timestamps)?;
        Ok(SignedCertificateTimestampList(OctetString::from_vec(octets)?))
    }

    /// The timestamps of the list, which is to be all of the octets.
    ///
    /// # Errors
    ///
    /// As [`Error::Tls`], the first error from the left: `EndOfStream` where bytes are missing, and `TrailingData`
    /// where bytes follow the list, which comes before any error of an item. `Memory` when out of memory.
    pub fn parse_timestamps(&self, alloc: Global) -> Result<Vec<SerializedSct>, Error>
        ensures { Answers (λ v. v.items) (λ e. errors.Tls e) (λ items. IsTimestampList items self.now.0) (ListFault uint16 serialized self.now.0) Unit result }
    {
        Ok(read_list(alloc, self.0.as_bytes())?)
    }
}

impl AssociatedOid for SignedCertificateTimestampList {
    ghost use Rattle.x509_sct.specs.Identifier.{embedded_timestamps};

    ghost OID = { embedded_timestamps };

    const OID: ObjectIdentifier = EMBEDDED_TIMESTAMPS;
}

impl FixedCriticality for SignedCertificateTimestampList {
    type Critical = Never;
}

impl Newtype for SignedCertificateTimestampList {
    ghost use Rattle.x509_sct.specs.Payload.{signed_certificate_timestamp_list_round};

    type Inner = OctetString;

    ghost round = { signed_certificate_timestamp_list_round };

    fn inner(&self) -> &OctetString {
        &self.0
    }

    fn from_inner(inner: OctetString) -> SignedCertificateTimestampList {
        SignedCertificateTimestampList(inner)
    }
}

impl NewtypeOrd for SignedCertificateTimestampList {}

impl SetOrd for SignedCertificateTimestampList {
    ghost set_order = { ⟦<SignedCertificateTimestampList as EncodingOrd>⟧.encoding_order };
}

impl SetMember for SignedCertificateTimestampList {
    ghost use Rattle.std.specs.Prelude.{refl};

    ghost in_der_order = { refl };
}

impl From<OctetString> for SignedCertificateTimestampList {
    ghost from_gives = { λ octets list. list.0 ≡ octets };

    fn from(octets: OctetString) -> SignedCertificateTimestampList {
        SignedCertificateTimestampList(octets)
    }
}

impl From<SignedCertificateTimestampList> for OctetString {
    ghost from_gives = { λ list octets. octets ≡ list.0 };

    fn from(list: SignedCertificateTimestampList) -> OctetString {
        let SignedCertificateTimestampList(octets) = list;
        octets
    }
}

impl AsRef<OctetString> for SignedCertificateTimestampList {
    fn as_ref(&self) -> &OctetString
        ensures { result.now ≡ self.now.0 }
    {
        &self.0
    }
}

impl AsMut<OctetString> for SignedCertificateTimestampList {
    ghost use Rattle.std.specs.Borrow.{Lends, sem};
    ghost use Rattle.x509_sct.specs.contracts.list.SignedCertificateTimestampList.{the_row};
    ghost use Rattle.x509_prim.specs.contracts.octet_string.OctetString as octet_string;

    fn as_mut(&mut self) -> &mut OctetString
        ensures* writes_back { sem 𝓛 (Lends the_row octet_string.the_row self.entry result (λ w. record { 0 = w })) }
        ensures value { result.now ≡ self.old.0 }
    {
        &mut self.0
    }
}
