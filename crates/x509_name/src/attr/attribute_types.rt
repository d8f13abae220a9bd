//! The attribute types that have a name (RFC 4519 section 2, RFC 5280 appendix A.1, RFC 2985 5.2.1).

use x509_der::{ObjectIdentifier, oid};

/// commonName, 2.5.4.3 (RFC 4519 2.3).
pub const COMMON_NAME: ObjectIdentifier = oid!(0x55, 0x04, 0x03);

/// surname, 2.5.4.4 (RFC 4519 2.32).
pub const SURNAME: ObjectIdentifier = oid!(0x55, 0x04, 0x04);

/// serialNumber, 2.5.4.5 (RFC 4519 2.31).
pub const SERIAL_NUMBER: ObjectIdentifier = oid!(0x55, 0x04, 0x05);

/// countryName, 2.5.4.6 (RFC 4519 2.2).
pub const COUNTRY_NAME: ObjectIdentifier = oid!(0x55, 0x04, 0x06);

/// localityName, 2.5.4.7 (RFC 4519 2.16).
pub const LOCALITY_NAME: ObjectIdentifier = oid!(0x55, 0x04, 0x07);

/// stateOrProvinceName, 2.5.4.8 (RFC 4519 2.33).
pub const STATE_OR_PROVINCE_NAME: ObjectIdentifier = oid!(0x55, 0x04, 0x08);

/// streetAddress, 2.5.4.9 (RFC 4519 2.34).
pub const STREET_ADDRESS: ObjectIdentifier = oid!(0x55, 0x04, 0x09);

/// organizationName, 2.5.4.10 (RFC 4519 2.19).
pub const ORGANIZATION_NAME: ObjectIdentifier = oid!(0x55, 0x04, 0x0A);

/// organizationalUnitName, 2.5.4.11 (RFC 4519 2.20).
pub const ORGANIZATIONAL_UNIT_NAME: ObjectIdentifier = oid!(0x55, 0x04, 0x0B);

/// title, 2.5.4.12 (RFC 4519 2.38).
pub const TITLE: ObjectIdentifier = oid!(0x55, 0x04, 0x0C);

/// description, 2.5.4.13 (RFC 4519 2.5).
pub const DESCRIPTION: ObjectIdentifier = oid!(0x55, 0x04, 0x0D);

/// postalCode, 2.5.4.17 (RFC 4519 2.24).
pub const POSTAL_CODE: ObjectIdentifier = oid!(0x55, 0x04, 0x11);

/// name, 2.5.4.41 (RFC 4519 2.18).
pub const NAME: ObjectIdentifier = oid!(0x55, 0x04, 0x29);

/// givenName, 2.5.4.42 (RFC 4519 2.12).
pub const GIVEN_NAME: ObjectIdentifier = oid!(0x55, 0x04, 0x2A);

/// initials, 2.5.4.43 (RFC 4519 2.14).
pub const INITIALS: ObjectIdentifier = oid!(0x55, 0x04, 0x2B);

/// generationQualifier, 2.5.4.44 (RFC 4519 2.11).
pub const GENERATION_QUALIFIER: ObjectIdentifier = oid!(0x55, 0x04, 0x2C);

/// dnQualifier, 2.5.4.46 (RFC 4519 2.8).
pub const DN_QUALIFIER: ObjectIdentifier = oid!(0x55, 0x04, 0x2E);

/// pseudonym, 2.5.4.65 (RFC 5280 appendix A.1).
pub const PSEUDONYM: ObjectIdentifier = oid!(0x55, 0x04, 0x41);

/// userId, 0.9.2342.19200300.100.1.1 (RFC 4519 2.39).
pub const USER_ID: ObjectIdentifier = oid!(
    0x09, 0x92, 0x26, 0x89, 0x93, 0xF2, 0x2C, 0x64, 0x01, 0x01
);

/// domainComponent, 0.9.2342.19200300.100.1.25 (RFC 4519 2.4).
pub const DOMAIN_COMPONENT: ObjectIdentifier = oid!(
    0x09, 0x92, 0x26, 0x89, 0x93, 0xF2, 0x2C, 0x64, 0x01, 0x19
);

/// emailAddress, 1.2.840.113549.1.9.1 (RFC 5280 appendix A.1).
pub const EMAIL_ADDRESS: ObjectIdentifier = oid!(
    0x2A, 0x86, 0x48, 0x86, 0xF7, 0x0D, 0x01, 0x09, 0x01
);
