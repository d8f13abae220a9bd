//! String types, and which of them attributes allow (RFC 5280 appendix A.1).

ghost use Rattle.std.specs.Prelude.{◌≡◌, true};
ghost use Rattle.x509_build.specs.NameValues as values;

use x509_der::{ObjectIdentifier, Tag};
use x509_name::attr::attribute_types::{
    COMMON_NAME, COUNTRY_NAME, DN_QUALIFIER, DOMAIN_COMPONENT, EMAIL_ADDRESS, GENERATION_QUALIFIER,
    GIVEN_NAME, INITIALS, LOCALITY_NAME, NAME, ORGANIZATION_NAME, ORGANIZATIONAL_UNIT_NAME,
    PSEUDONYM, SERIAL_NUMBER, STATE_OR_PROVINCE_NAME, SURNAME, TITLE,
};

/// The types of which an attribute may have PrintableString alone.
const PRINTABLE_TYPES: [ObjectIdentifier; 3] = [COUNTRY_NAME, SERIAL_NUMBER, DN_QUALIFIER];

/// The types of which an attribute may have IA5String alone.
const IA5_TYPES: [ObjectIdentifier; 2] = [DOMAIN_COMPONENT, EMAIL_ADDRESS];

/// The types of which an attribute has a DirectoryString.
const DIRECTORY_TYPES: [ObjectIdentifier; 12] = [
    NAME,
    SURNAME,
    GIVEN_NAME,
    INITIALS,
    GENERATION_QUALIFIER,
    COMMON_NAME,
    LOCALITY_NAME,
    STATE_OR_PROVINCE_NAME,
    ORGANIZATION_NAME,
    ORGANIZATIONAL_UNIT_NAME,
    TITLE,
    PSEUDONYM,
];

#[tactic(auto, unfolding(crate::specs::NameValues::printable_types, x509_der::specs::Arcs::subidentifier))]
fn is_printable_type(oid: ObjectIdentifier) -> bool
    ensures { result ≡ values.is_among values.printable_types oid }
{
    PRINTABLE_TYPES.contains(&oid)
}

#[tactic(auto, unfolding(crate::specs::NameValues::ia5_types, x509_der::specs::Arcs::subidentifier))]
fn is_ia5_type(oid: ObjectIdentifier) -> bool
    ensures { result ≡ values.is_among values.ia5_types oid }
{
    IA5_TYPES.contains(&oid)
}

#[tactic(auto, unfolding(crate::specs::NameValues::directory_types, x509_der::specs::Arcs::subidentifier))]
fn is_directory_type(oid: ObjectIdentifier) -> bool
    ensures { result ≡ values.is_among values.directory_types oid }
{
    DIRECTORY_TYPES.contains(&oid)
}

/// A string type in which an attribute of a name is made. TeletexString is read alone: RFC 5280 4.1.2.4 wants no new
/// values of it.
#[derive(Clone, Copy, Debug, PartialEq, Eq)]
pub enum StringType {
    /// PrintableString: letters, digits, space and `' ( ) + , - . / : = ?`.
    Printable,

    /// IA5String: the characters up to 7F.
    Ia5,

    /// UTF8String: all characters.
    Utf8,

    /// BMPString: the characters up to U+FFFF.
    Bmp,
}

impl StringType {
    /// The string type that an attribute of this type is given where none is told: PrintableString or IA5String where it
    /// allows that alone, else UTF8String.
    pub fn wanted(oid: ObjectIdentifier) -> StringType
        ensures { result ≡ values.wanted oid }
    {
        if is_printable_type(oid) {
            StringType::Printable
        } else if is_ia5_type(oid) {
            StringType::Ia5
        } else {
            StringType::Utf8
        }
    }

    /// The string type of this tag, where it is one of the four.
    pub fn from_tag(tag: Tag) -> Option<StringType>
        ensures { result ≡ values.with_tag tag }
    {
        match tag {
            Tag::PrintableString => Some(StringType::Printable),
            Tag::Ia5String => Some(StringType::Ia5),
            Tag::Utf8String => Some(StringType::Utf8),
            Tag::BmpString => Some(StringType::Bmp),
            _ => None,
        }
    }

    /// The tag of its values.
    pub fn tag(self) -> Tag
        ensures { result ≡ values.tag_of self }
    {
        match self {
            StringType::Printable => Tag::PrintableString,
            StringType::Ia5 => Tag::Ia5String,
            StringType::Utf8 => Tag::Utf8String,
            StringType::Bmp => Tag::BmpString,
        }
    }

    /// Whether an attribute of this type may have it (RFC 5280 appendix A.1). A type that the appendix doesn't name
    /// allows each.
    pub fn is_allowed_in(self, oid: ObjectIdentifier) -> bool
        ensures { result ≡ values.allows oid self }
    {
        match self {
            StringType::Printable => !is_ia5_type(oid),
            StringType::Ia5 => !(is_printable_type(oid) || is_directory_type(oid)),
            StringType::Utf8 | StringType::Bmp => !(is_printable_type(oid) || is_ia5_type(oid)),
        }
    }
}
