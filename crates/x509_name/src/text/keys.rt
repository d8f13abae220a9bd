//! The table of attribute names (RFC 4514 section 3, RFC 4519 section 2, RFC 2985 5.2.1, RFC 5280 4.1.2.4).

ghost use Rattle.std.specs.Option.{option_map};
ghost use Rattle.std.specs.Prelude.{◌≡◌, map, Some};
ghost use Rattle.x509_name.specs.Keys as keys;

use crate::attr::attribute_types::{
    COMMON_NAME, COUNTRY_NAME, DESCRIPTION, DN_QUALIFIER, DOMAIN_COMPONENT, EMAIL_ADDRESS,
    GENERATION_QUALIFIER, GIVEN_NAME, INITIALS, LOCALITY_NAME, NAME, ORGANIZATION_NAME,
    ORGANIZATIONAL_UNIT_NAME, POSTAL_CODE, PSEUDONYM, SERIAL_NUMBER, STATE_OR_PROVINCE_NAME,
    STREET_ADDRESS, SURNAME, TITLE, USER_ID,
};
use x509_der::{ObjectIdentifier, Tag};

/// The type of a value that is read from a text.
#[derive(Clone, Copy, Debug, PartialEq, Eq)]
pub enum TextType {
    /// PrintableString.
    Printable,

    /// IA5String.
    Ia5,

    /// UTF8String.
    Utf8,
}

impl TextType {
    /// The tag of its values.
    pub fn tag(self) -> Tag
        ensures { result ≡ keys.tag_of_type self }
    {
        match self {
            TextType::Printable => Tag::PrintableString,
            TextType::Ia5 => Tag::Ia5String,
            TextType::Utf8 => Tag::Utf8String,
        }
    }
}

/// A row of the table: the name that is printed, the full name, the OID, and the string type of a value that is read from
/// a text.
// A tuple, since contracts can't name a constant of structs that borrow.
pub type Row = (&'static str, &'static str, ObjectIdentifier, TextType);

// A row that is looked into: the content octets stand in place of the OID, since a static can't hold it.
type PlainRow = (&'static str, &'static str, &'static [u8], TextType);

macro_rules! row {
    ($name:literal, $full_name:literal, [$($octet:literal),+], $oid:ident, $type:path) => {
        ($name, $full_name, $oid, $type)
    };
}

macro_rules! plain_row {
    ($name:literal, $full_name:literal, [$($octet:literal),+], $oid:ident, $type:path) => {
        ($name, $full_name, &[$($octet),+], $type)
    };
}

// The rows, each in that form.
macro_rules! rows {
    ($row:ident) => {
        [
            $row!("CN", "commonName", [0x55, 0x04, 0x03], COMMON_NAME, TextType::Utf8),
            $row!("SN", "surname", [0x55, 0x04, 0x04], SURNAME, TextType::Utf8),
            $row!("SERIALNUMBER", "serialNumber", [0x55, 0x04, 0x05], SERIAL_NUMBER, TextType::Printable),
            $row!("C", "countryName", [0x55, 0x04, 0x06], COUNTRY_NAME, TextType::Printable),
            $row!("L", "localityName", [0x55, 0x04, 0x07], LOCALITY_NAME, TextType::Utf8),
            $row!("ST", "stateOrProvinceName", [0x55, 0x04, 0x08], STATE_OR_PROVINCE_NAME, TextType::Utf8),
            $row!("STREET", "streetAddress", [0x55, 0x04, 0x09], STREET_ADDRESS, TextType::Utf8),
            $row!("O", "organizationName", [0x55, 0x04, 0x0A], ORGANIZATION_NAME, TextType::Utf8),
            $row!("OU", "organizationalUnitName", [0x55, 0x04, 0x0B], ORGANIZATIONAL_UNIT_NAME, TextType::Utf8),
            $row!("TITLE", "title", [0x55, 0x04, 0x0C], TITLE, TextType::Utf8),
            $row!("DESCRIPTION", "description", [0x55, 0x04, 0x0D], DESCRIPTION, TextType::Utf8),
            $row!("POSTALCODE", "postalCode", [0x55, 0x04, 0x11], POSTAL_CODE, TextType::Utf8),
            $row!("NAME", "name", [0x55, 0x04, 0x29], NAME, TextType::Utf8),
            $row!("GIVENNAME", "givenName", [0x55, 0x04, 0x2A], GIVEN_NAME, TextType::Utf8),
            $row!("INITIALS", "initials", [0x55, 0x04, 0x2B], INITIALS, TextType::Utf8),
            $row!("GENERATIONQUALIFIER", "generationQualifier", [0x55, 0x04, 0x2C], GENERATION_QUALIFIER, TextType::Utf8),
            $row!("DNQUALIFIER", "dnQualifier", [0x55, 0x04, 0x2E], DN_QUALIFIER, TextType::Utf8),
            $row!("PSEUDONYM", "pseudonym", [0x55, 0x04, 0x41], PSEUDONYM, TextType::Utf8),
            $row!("UID", "userId", [0x09, 0x92, 0x26, 0x89, 0x93, 0xF2, 0x2C, 0x64, 0x01, 0x01], USER_ID, TextType::Utf8),
            $row!("DC", "domainComponent", [0x09, 0x92, 0x26, 0x89, 0x93, 0xF2, 0x2C, 0x64, 0x01, 0x19], DOMAIN_COMPONENT, TextType::Ia5),
            $row!("EMAILADDRESS", "emailAddress", [0x2A, 0x86, 0x48, 0x86, 0xF7, 0x0D, 0x01, 0x09, 0x01], EMAIL_ADDRESS, TextType::Ia5),
        ]
    };
}

/// The attribute types that have a name. Both names are found without regard to ASCII case.
pub const KEYS: [Row; 21] = rows!(row);

// The table where it is looked into: a constant would be built anew at each look-up.
static ROWS: [PlainRow; 21] = rows!(plain_row);

/// An attribute type that has a name.
#[derive(Clone, Copy, Debug)]
pub struct Key {
    /// The name that is printed.
    pub name: &'static str,

    /// The full name.
    pub full_name: &'static str,

    /// The OID.
    pub oid: ObjectIdentifier,

    /// The tag of a value that is read from a text.
    pub tag: Tag,
}

impl Key {
    // The key of a row that has the octets of the OID.
    fn of_row(row: &PlainRow, oid: ObjectIdentifier) -> Key
        requires { row.now.2.now ≡ oid }
        ensures { keys.said (Some result) ≡ Some (keys.row row.now.0.now row.now.1.now row.now.2.now row.now.3) }
    {
        Key {
            name: row.0,
            full_name: row.1,
            oid,
            tag: row.3.tag(),
        }
    }
}

fn is_named(row: &PlainRow, name: &[u8]) -> bool
    ensures { result ≡ keys.is_named name.now (keys.row row.now.0.now row.now.1.now row.now.2.now row.now.3) }
{
    row.0.as_bytes().eq_ignore_ascii_case(name) || row.1.as_bytes().eq_ignore_ascii_case(name)
}

// The first row of which the name is one.
fn find_named<'a>(mut rows: &'a [PlainRow], name: &[u8]) -> Option<&'a PlainRow>
    ensures { option_map (λ r. keys.row r.now.0.now r.now.1.now r.now.2.now r.now.3) result
        ≡ keys.first_where (keys.is_named name.now) (map (λ r. keys.row r.0.now r.1.now r.2.now r.3) rows.entry.now) }
{
    while let [row, rest @ ..] = rows {
        if is_named(row, name) {
            return Some(row);
        }
        rows = rest;
    }
    None
}

// The first row with the octets.
fn find_octets<'a>(mut rows: &'a [PlainRow], octets: &[u8]) -> Option<&'a PlainRow>
    ensures { option_map (λ r. keys.row r.now.0.now r.now.1.now r.now.2.now r.now.3) result
        ≡ keys.first_where (keys.has_octets octets.now) (map (λ r. keys.row r.0.now r.1.now r.2.now r.3) rows.entry.now) }
{
    while let [row, rest @ ..] = rows {
        if row.2 == octets {
            return Some(row);
        }
        rows = rest;
    }
    None
}

// The row of a name.
#[tactic(auto, unfolding(crate::specs::Keys::key_named, crate::specs::AttributeNames::attribute_names, x509_der::specs::Arcs::subidentifier))]
fn row_named(name: &[u8]) -> Option<&'static PlainRow>
    ensures { option_map (λ r. keys.row r.now.0.now r.now.1.now r.now.2.now r.now.3) result ≡ keys.key_named name.now }
{
    find_named(&ROWS, name)
}

// The row of an OID.
#[tactic(auto, unfolding(crate::specs::Keys::key_of, crate::specs::AttributeNames::attribute_names, x509_der::specs::Arcs::subidentifier))]
fn row_of(oid: &ObjectIdentifier) -> Option<&'static PlainRow>
    ensures { option_map (λ r. keys.row r.now.0.now r.now.1.now r.now.2.now r.now.3) result ≡ keys.key_of oid.now }
{
    find_octets(&ROWS, oid.as_bytes())
}

/// The attribute type with the name, without regard to ASCII case.
pub fn key_named(name: &[u8]) -> Option<Key>
    ensures { keys.said result ≡ keys.key_named name.now }
{
    let row = row_named(name)?;
    match ObjectIdentifier::from_bytes(row.2) {
        Ok(oid) => Some(Key::of_row(row, oid)),
        Err(_) => None,
    }
}

/// The attribute type of the OID, where it has a name.
pub fn key_of(oid: &ObjectIdentifier) -> Option<Key>
    ensures { keys.said result ≡ keys.key_of oid.now }
{
    let row = row_of(oid)?;
    Some(Key::of_row(row, *oid))
}

/// The tag of a value that is read from a text: UTF8String for a type without a name.
pub fn tag_for(oid: &ObjectIdentifier) -> Tag
    ensures { result ≡ keys.tag_for oid.now }
{
    match row_of(oid) {
        Some(row) => row.3.tag(),
        None => Tag::Utf8String,
    }
}
