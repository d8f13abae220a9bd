//! Strict DER (X.690): how values are decoded and encoded, and the types of ASN.1 that others are made of.

pub use x509_der::{
    AssociatedOid, Decode, DerOrd, Encode, Error, ErrorKind, FixedTag, FromAny, Header, Length,
    Spelled, Tag, TagNumber, Tagged, TryClone, ValueOrd,
};

/// The types of ASN.1.
pub mod asn1 {
    pub use x509_base::{GeneralizedTime, UtcTime};
    pub use x509_der::{Any, AnyRef, ObjectIdentifier, SequenceOf, SetOfVec};
    pub use x509_prim::{
        BitString, BmpString, Ia5String, Ia5StringRef, Int, OctetString, PrintableString,
        PrintableStringRef, TeletexString, TeletexStringRef, Uint, Utf8String, Utf8StringRef,
        VisibleString, VisibleStringRef,
    };
}
