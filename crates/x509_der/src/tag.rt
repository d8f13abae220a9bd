//! Identifiers of elements (X.690 8.1.2).

ghost use Rattle.std.specs.Prelude.{◌≡◌, ◌≤◌, ◌+◌, ◌≢◌, ◌%◌, IfOk, IfErr, is_ok};
ghost use Rattle.x509_der.specs.declared.error.ErrorKind.TheVariants as errors;
ghost use Rattle.x509_der.specs.declared.tag.Tag.{Tag};
ghost use Rattle.x509_der.specs.Element.{is_identifier};
ghost use Rattle.x509_der.specs.Tag.{octet_of, constructed_bit};

use crate::error::{Error, ErrorKind};

mod number;

pub use number::TagNumber;

/// An identifier (a tag): the class, whether the encoding is constructed, and the number (X.690 8.1.2; the universal
/// types of X.680 8.4).
#[derive(Clone, Copy, Debug, PartialEq, Eq, Hash)]
pub enum Tag {
    /// BOOLEAN, 01.
    Boolean,

    /// INTEGER, 02.
    Integer,

    /// BIT STRING, 03.
    BitString,

    /// OCTET STRING, 04.
    OctetString,

    /// NULL, 05.
    Null,

    /// OBJECT IDENTIFIER, 06.
    ObjectIdentifier,

    /// REAL, 09.
    Real,

    /// ENUMERATED, 0A.
    Enumerated,

    /// UTF8String, 0C.
    Utf8String,

    /// RELATIVE-OID, 0D.
    RelativeOid,

    /// NumericString, 12.
    NumericString,

    /// PrintableString, 13.
    PrintableString,

    /// TeletexString, 14.
    TeletexString,

    /// VideotexString, 15.
    VideotexString,

    /// IA5String, 16.
    Ia5String,

    /// UTCTime, 17.
    UtcTime,

    /// GeneralizedTime, 18.
    GeneralizedTime,

    /// GraphicString, 19.
    GraphicString,

    /// VisibleString, 1A.
    VisibleString,

    /// GeneralString, 1B.
    GeneralString,

    /// UniversalString, 1C.
    UniversalString,

    /// BMPString, 1E.
    BmpString,

    /// SEQUENCE and SEQUENCE OF, 30.
    Sequence,

    /// SET and SET OF, 31.
    Set,

    /// The application class, 40 + n or 60 + n.
    Application {
        /// Whether the encoding is constructed: the content is elements.
        constructed: bool,

        /// The number.
        number: TagNumber,
    },

    /// The context-specific class, 80 + n or A0 + n.
    ContextSpecific {
        /// Whether the encoding is constructed: the content is elements.
        constructed: bool,

        /// The number.
        number: TagNumber,
    },

    /// The private class, C0 + n or E0 + n.
    Private {
        /// Whether the encoding is constructed: the content is elements.
        constructed: bool,

        /// The number.
        number: TagNumber,
    },
}

/// The identifier octet of a number in a class, which is that of the number 0 and a primitive content.
fn class_octet(class: u8, constructed: bool, number: TagNumber) -> u8
    requires { class ≤ 192 }
    ensures { result ≡ class + (constructed_bit constructed) + number.number }
{
    class + if constructed { 32 } else { 0 } + number.value()
}

impl Tag {
    /// The identifier octet.
    #[inline(always)]
    pub fn octet(self) -> u8
        ensures octet { result ≡ octet_of self }
    {
        match self {
            Tag::Boolean => 0x01,
            Tag::Integer => 0x02,
            Tag::BitString => 0x03,
            Tag::OctetString => 0x04,
            Tag::Null => 0x05,
            Tag::ObjectIdentifier => 0x06,
            Tag::Real => 0x09,
            Tag::Enumerated => 0x0A,
            Tag::Utf8String => 0x0C,
            Tag::RelativeOid => 0x0D,
            Tag::NumericString => 0x12,
            Tag::PrintableString => 0x13,
            Tag::TeletexString => 0x14,
            Tag::VideotexString => 0x15,
            Tag::Ia5String => 0x16,
            Tag::UtcTime => 0x17,
            Tag::GeneralizedTime => 0x18,
            Tag::GraphicString => 0x19,
            Tag::VisibleString => 0x1A,
            Tag::GeneralString => 0x1B,
            Tag::UniversalString => 0x1C,
            Tag::BmpString => 0x1E,
            Tag::Sequence => 0x30,
            Tag::Set => 0x31,
            Tag::Application {
                constructed,
                number,
            } => class_octet(0x40, constructed, number),
            Tag::ContextSpecific {
                constructed,
                number,
            } => class_octet(0x80, constructed, number),
            Tag::Private {
                constructed,
                number,
            } => class_octet(0xC0, constructed, number),
        }
    }

    /// The tag with the identifier octet.
    ///
    /// # Errors
    ///
    /// `Malformed` exactly where no tag has it.
    #[tactic(auto, using(crate::proofs::Octets::octet_refused, crate::specs::TagReading::same_tag), unfolding(crate::specs::Element::is_identifier, crate::specs::Element::is_universal))]
    #[inline(always)]
    pub fn from_octet(octet: u8) -> Result<Tag, Error>
        ensures ok { IfOk result (λ tag. octet_of tag ≡ octet) }
        ensures err { IfErr result (λ e. (e.kind ≡ errors.Malformed) × ((tag : Tag) → octet_of tag ≢ octet)) }
        ensures value { (tag : Tag) → octet_of tag ≡ octet → IfOk result (λ found. found ≡ tag) }
        ensures test { is_ok result ≡ is_identifier octet }
    {
        Ok(match octet {
            0x01 => Tag::Boolean,
            0x02 => Tag::Integer,
            0x03 => Tag::BitString,
            0x04 => Tag::OctetString,
            0x05 => Tag::Null,
            0x06 => Tag::ObjectIdentifier,
            0x09 => Tag::Real,
            0x0A => Tag::Enumerated,
            0x0C => Tag::Utf8String,
            0x0D => Tag::RelativeOid,
            0x12 => Tag::NumericString,
            0x13 => Tag::PrintableString,
            0x14 => Tag::TeletexString,
            0x15 => Tag::VideotexString,
            0x16 => Tag::Ia5String,
            0x17 => Tag::UtcTime,
            0x18 => Tag::GeneralizedTime,
            0x19 => Tag::GraphicString,
            0x1A => Tag::VisibleString,
            0x1B => Tag::GeneralString,
            0x1C => Tag::UniversalString,
            0x1E => Tag::BmpString,
            0x30 => Tag::Sequence,
            0x31 => Tag::Set,
            _ if check_identifier(octet) => Tag::of_class(octet),
            _ => return Err(ErrorKind::Malformed.into()),
        })
    }

    /// The tag of an octet outside the universal class.
    #[tactic(auto, unfolding(crate::specs::Element::is_identifier, crate::specs::Element::is_universal))]
    fn of_class(octet: u8) -> Tag
        requires other_class { 64 ≤ octet }
        requires low_number { octet % 32 ≤ 30 }
        ensures { octet_of result ≡ octet }
    {
        let constructed = octet % 64 >= 32;
        let number = TagNumber::of_octet(octet);
        if octet < 0x80 {
            Tag::Application {
                constructed,
                number,
            }
        } else if octet < 0xC0 {
            Tag::ContextSpecific {
                constructed,
                number,
            }
        } else {
            Tag::Private {
                constructed,
                number,
            }
        }
    }
}

/// Whether an element may begin with the octet.
#[tactic(auto, unfolding(crate::specs::Element::is_identifier, crate::specs::Element::is_universal))]
#[inline(always)]
pub fn check_identifier(octet: u8) -> bool
    ensures { result ≡ is_identifier octet }
{
    match octet {
        1..=6 | 9 | 10 | 12 | 13 | 18..=28 | 30 | 48 | 49 => true,
        _ => octet >= 64 && octet % 32 != 31,
    }
}
