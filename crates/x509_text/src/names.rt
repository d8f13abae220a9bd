//! The table of object identifiers that have a name here.

ghost use Rattle.std.specs.Prelude.{◌≡◌, bytes_eq, map, true};
ghost use Rattle.std.specs.Option.{option_map};
ghost use Rattle.x509_text.specs.Names as names;
ghost use Rattle.x509_text.specs.OidNames as oids;

/// A row of the table: the name, and the content octets of the OID.
// A tuple, since contracts can't name a constant of structs that borrow.
pub type Row = (&'static str, &'static [u8]);

/// The OIDs that are printed by a name: algorithms, curves, extensions, purposes, policies, qualifiers, access methods,
/// and attributes of CSRs. The names are those of the standards.
pub const NAMES: [Row; 83] = [
    // Public keys and signatures (RFC 3279, RFC 4055, RFC 5480, RFC 5758, RFC 8410, RFC 9881).
    (
        "rsaEncryption",
        &[0x2A, 0x86, 0x48, 0x86, 0xF7, 0x0D, 0x01, 0x01, 0x01], // 1.2.840.113549.1.1.1
    ),
    (
        "md2WithRSAEncryption",
        &[0x2A, 0x86, 0x48, 0x86, 0xF7, 0x0D, 0x01, 0x01, 0x02], // 1.2.840.113549.1.1.2
    ),
    (
        "md5WithRSAEncryption",
        &[0x2A, 0x86, 0x48, 0x86, 0xF7, 0x0D, 0x01, 0x01, 0x04], // 1.2.840.113549.1.1.4
    ),
    (
        "sha1WithRSAEncryption",
        &[0x2A, 0x86, 0x48, 0x86, 0xF7, 0x0D, 0x01, 0x01, 0x05], // 1.2.840.113549.1.1.5
    ),
    (
        "id-RSAES-OAEP",
        &[0x2A, 0x86, 0x48, 0x86, 0xF7, 0x0D, 0x01, 0x01, 0x07], // 1.2.840.113549.1.1.7
    ),
    (
        "id-RSASSA-PSS",
        &[0x2A, 0x86, 0x48, 0x86, 0xF7, 0x0D, 0x01, 0x01, 0x0A], // 1.2.840.113549.1.1.10
    ),
    (
        "sha256WithRSAEncryption",
        &[0x2A, 0x86, 0x48, 0x86, 0xF7, 0x0D, 0x01, 0x01, 0x0B], // 1.2.840.113549.1.1.11
    ),
    (
        "sha384WithRSAEncryption",
        &[0x2A, 0x86, 0x48, 0x86, 0xF7, 0x0D, 0x01, 0x01, 0x0C], // 1.2.840.113549.1.1.12
    ),
    (
        "sha512WithRSAEncryption",
        &[0x2A, 0x86, 0x48, 0x86, 0xF7, 0x0D, 0x01, 0x01, 0x0D], // 1.2.840.113549.1.1.13
    ),
    (
        "sha224WithRSAEncryption",
        &[0x2A, 0x86, 0x48, 0x86, 0xF7, 0x0D, 0x01, 0x01, 0x0E], // 1.2.840.113549.1.1.14
    ),
    (
        "id-dsa",
        &[0x2A, 0x86, 0x48, 0xCE, 0x38, 0x04, 0x01], // 1.2.840.10040.4.1
    ),
    (
        "id-dsa-with-sha1",
        &[0x2A, 0x86, 0x48, 0xCE, 0x38, 0x04, 0x03], // 1.2.840.10040.4.3
    ),
    (
        "id-dsa-with-sha224",
        &[0x60, 0x86, 0x48, 0x01, 0x65, 0x03, 0x04, 0x03, 0x01], // 2.16.840.1.101.3.4.3.1
    ),
    (
        "id-dsa-with-sha256",
        &[0x60, 0x86, 0x48, 0x01, 0x65, 0x03, 0x04, 0x03, 0x02], // 2.16.840.1.101.3.4.3.2
    ),
    (
        "id-ecPublicKey",
        &[0x2A, 0x86, 0x48, 0xCE, 0x3D, 0x02, 0x01], // 1.2.840.10045.2.1
    ),
    (
        "ecdsa-with-SHA1",
        &[0x2A, 0x86, 0x48, 0xCE, 0x3D, 0x04, 0x01], // 1.2.840.10045.4.1
    ),
    (
        "ecdsa-with-SHA224",
        &[0x2A, 0x86, 0x48, 0xCE, 0x3D, 0x04, 0x03, 0x01], // 1.2.840.10045.4.3.1
    ),
    (
        "ecdsa-with-SHA256",
        &[0x2A, 0x86, 0x48, 0xCE, 0x3D, 0x04, 0x03, 0x02], // 1.2.840.10045.4.3.2
    ),
    (
        "ecdsa-with-SHA384",
        &[0x2A, 0x86, 0x48, 0xCE, 0x3D, 0x04, 0x03, 0x03], // 1.2.840.10045.4.3.3
    ),
    (
        "ecdsa-with-SHA512",
        &[0x2A, 0x86, 0x48, 0xCE, 0x3D, 0x04, 0x03, 0x04], // 1.2.840.10045.4.3.4
    ),
    (
        "id-X25519",
        &[0x2B, 0x65, 0x6E], // 1.3.101.110
    ),
    (
        "id-X448",
        &[0x2B, 0x65, 0x6F], // 1.3.101.111
    ),
    (
        "id-Ed25519",
        &[0x2B, 0x65, 0x70], // 1.3.101.112
    ),
    (
        "id-Ed448",
        &[0x2B, 0x65, 0x71], // 1.3.101.113
    ),
    (
        "id-ml-dsa-44",
        &[0x60, 0x86, 0x48, 0x01, 0x65, 0x03, 0x04, 0x03, 0x11], // 2.16.840.1.101.3.4.3.17
    ),
    (
        "id-ml-dsa-65",
        &[0x60, 0x86, 0x48, 0x01, 0x65, 0x03, 0x04, 0x03, 0x12], // 2.16.840.1.101.3.4.3.18
    ),
    (
        "id-ml-dsa-87",
        &[0x60, 0x86, 0x48, 0x01, 0x65, 0x03, 0x04, 0x03, 0x13], // 2.16.840.1.101.3.4.3.19
    ),
    // Curves (RFC 5480 2.1.1.1, RFC 5639, SEC 2).
    (
        "secp192r1",
        &[0x2A, 0x86, 0x48, 0xCE, 0x3D, 0x03, 0x01, 0x01], // 1.2.840.10045.3.1.1
    ),
    (
        "secp256r1",
        &[0x2A, 0x86, 0x48, 0xCE, 0x3D, 0x03, 0x01, 0x07], // 1.2.840.10045.3.1.7
    ),
    (
        "secp224r1",
        &[0x2B, 0x81, 0x04, 0x00, 0x21], // 1.3.132.0.33
    ),
    (
        "secp384r1",
        &[0x2B, 0x81, 0x04, 0x00, 0x22], // 1.3.132.0.34
    ),
    (
        "secp521r1",
        &[0x2B, 0x81, 0x04, 0x00, 0x23], // 1.3.132.0.35
    ),
    (
        "secp256k1",
        &[0x2B, 0x81, 0x04, 0x00, 0x0A], // 1.3.132.0.10
    ),
    (
        "brainpoolP256r1",
        &[0x2B, 0x24, 0x03, 0x03, 0x02, 0x08, 0x01, 0x01, 0x07], // 1.3.36.3.3.2.8.1.1.7
    ),
    (
        "brainpoolP384r1",
        &[0x2B, 0x24, 0x03, 0x03, 0x02, 0x08, 0x01, 0x01, 0x0B], // 1.3.36.3.3.2.8.1.1.11
    ),
    (
        "brainpoolP512r1",
        &[0x2B, 0x24, 0x03, 0x03, 0x02, 0x08, 0x01, 0x01, 0x0D], // 1.3.36.3.3.2.8.1.1.13
    ),
    // Extensions (RFC 5280 4.2 and 5.2, RFC 6960, RFC 6962, RFC 7633, RFC 3739).
    (
        "subjectDirectoryAttributes",
        &[0x55, 0x1D, 0x09], // 2.5.29.9
    ),
    (
        "subjectKeyIdentifier",
        &[0x55, 0x1D, 0x0E], // 2.5.29.14
    ),
    (
        "keyUsage",
        &[0x55, 0x1D, 0x0F], // 2.5.29.15
    ),
    (
        "privateKeyUsagePeriod",
        &[0x55, 0x1D, 0x10], // 2.5.29.16
    ),
    (
        "subjectAltName",
        &[0x55, 0x1D, 0x11], // 2.5.29.17
    ),
    (
        "issuerAltName",
        &[0x55, 0x1D, 0x12], // 2.5.29.18
    ),
    (
        "basicConstraints",
        &[0x55, 0x1D, 0x13], // 2.5.29.19
    ),
    (
        "cRLNumber",
        &[0x55, 0x1D, 0x14], // 2.5.29.20
    ),
    (
        "reasonCode",
        &[0x55, 0x1D, 0x15], // 2.5.29.21
    ),
    (
        "invalidityDate",
        &[0x55, 0x1D, 0x18], // 2.5.29.24
    ),
    (
        "deltaCRLIndicator",
        &[0x55, 0x1D, 0x1B], // 2.5.29.27
    ),
    (
        "issuingDistributionPoint",
        &[0x55, 0x1D, 0x1C], // 2.5.29.28
    ),
    (
        "certificateIssuer",
        &[0x55, 0x1D, 0x1D], // 2.5.29.29
    ),
    (
        "nameConstraints",
        &[0x55, 0x1D, 0x1E], // 2.5.29.30
    ),
    (
        "cRLDistributionPoints",
        &[0x55, 0x1D, 0x1F], // 2.5.29.31
    ),
    (
        "certificatePolicies",
        &[0x55, 0x1D, 0x20], // 2.5.29.32
    ),
    (
        "policyMappings",
        &[0x55, 0x1D, 0x21], // 2.5.29.33
    ),
    (
        "authorityKeyIdentifier",
        &[0x55, 0x1D, 0x23], // 2.5.29.35
    ),
    (
        "policyConstraints",
        &[0x55, 0x1D, 0x24], // 2.5.29.36
    ),
    (
        "extKeyUsage",
        &[0x55, 0x1D, 0x25], // 2.5.29.37
    ),
    (
        "freshestCRL",
        &[0x55, 0x1D, 0x2E], // 2.5.29.46
    ),
    (
        "inhibitAnyPolicy",
        &[0x55, 0x1D, 0x36], // 2.5.29.54
    ),
    (
        "authorityInfoAccess",
        &[0x2B, 0x06, 0x01, 0x05, 0x05, 0x07, 0x01, 0x01], // 1.3.6.1.5.5.7.1.1
    ),
    (
        "qcStatements",
        &[0x2B, 0x06, 0x01, 0x05, 0x05, 0x07, 0x01, 0x03], // 1.3.6.1.5.5.7.1.3
    ),
    (
        "subjectInfoAccess",
        &[0x2B, 0x06, 0x01, 0x05, 0x05, 0x07, 0x01, 0x0B], // 1.3.6.1.5.5.7.1.11
    ),
    (
        "tlsFeature",
        &[0x2B, 0x06, 0x01, 0x05, 0x05, 0x07, 0x01, 0x18], // 1.3.6.1.5.5.7.1.24
    ),
    (
        "ocspNoCheck",
        &[0x2B, 0x06, 0x01, 0x05, 0x05, 0x07, 0x30, 0x01, 0x05], // 1.3.6.1.5.5.7.48.1.5
    ),
    (
        "signedCertificateTimestamps",
        &[0x2B, 0x06, 0x01, 0x04, 0x01, 0xD6, 0x79, 0x02, 0x04, 0x02], // 1.3.6.1.4.1.11129.2.4.2
    ),
    (
        "precertificatePoison",
        &[0x2B, 0x06, 0x01, 0x04, 0x01, 0xD6, 0x79, 0x02, 0x04, 0x03], // 1.3.6.1.4.1.11129.2.4.3
    ),
    // Purposes of extended key usage (RFC 5280 4.2.1.12).
    (
        "anyExtendedKeyUsage",
        &[0x55, 0x1D, 0x25, 0x00], // 2.5.29.37.0
    ),
    (
        "serverAuth",
        &[0x2B, 0x06, 0x01, 0x05, 0x05, 0x07, 0x03, 0x01], // 1.3.6.1.5.5.7.3.1
    ),
    (
        "clientAuth",
        &[0x2B, 0x06, 0x01, 0x05, 0x05, 0x07, 0x03, 0x02], // 1.3.6.1.5.5.7.3.2
    ),
    (
        "codeSigning",
        &[0x2B, 0x06, 0x01, 0x05, 0x05, 0x07, 0x03, 0x03], // 1.3.6.1.5.5.7.3.3
    ),
    (
        "emailProtection",
        &[0x2B, 0x06, 0x01, 0x05, 0x05, 0x07, 0x03, 0x04], // 1.3.6.1.5.5.7.3.4
    ),
    (
        "timeStamping",
        &[0x2B, 0x06, 0x01, 0x05, 0x05, 0x07, 0x03, 0x08], // 1.3.6.1.5.5.7.3.8
    ),
    (
        "OCSPSigning",
        &[0x2B, 0x06, 0x01, 0x05, 0x05, 0x07, 0x03, 0x09], // 1.3.6.1.5.5.7.3.9
    ),
    // Policies, their qualifiers, and access methods (RFC 5280 4.2.1.4, 4.2.2).
    (
        "anyPolicy",
        &[0x55, 0x1D, 0x20, 0x00], // 2.5.29.32.0
    ),
    (
        "cps",
        &[0x2B, 0x06, 0x01, 0x05, 0x05, 0x07, 0x02, 0x01], // 1.3.6.1.5.5.7.2.1
    ),
    (
        "unotice",
        &[0x2B, 0x06, 0x01, 0x05, 0x05, 0x07, 0x02, 0x02], // 1.3.6.1.5.5.7.2.2
    ),
    (
        "ocsp",
        &[0x2B, 0x06, 0x01, 0x05, 0x05, 0x07, 0x30, 0x01], // 1.3.6.1.5.5.7.48.1
    ),
    (
        "caIssuers",
        &[0x2B, 0x06, 0x01, 0x05, 0x05, 0x07, 0x30, 0x02], // 1.3.6.1.5.5.7.48.2
    ),
    (
        "caRepository",
        &[0x2B, 0x06, 0x01, 0x05, 0x05, 0x07, 0x30, 0x05], // 1.3.6.1.5.5.7.48.5
    ),
    // Attributes of CSRs (RFC 2985), and other names (RFC 4108, RFC 4985, RFC 9598).
    (
        "challengePassword",
        &[0x2A, 0x86, 0x48, 0x86, 0xF7, 0x0D, 0x01, 0x09, 0x07], // 1.2.840.113549.1.9.7
    ),
    (
        "extensionRequest",
        &[0x2A, 0x86, 0x48, 0x86, 0xF7, 0x0D, 0x01, 0x09, 0x0E], // 1.2.840.113549.1.9.14
    ),
    (
        "hardwareModuleName",
        &[0x2B, 0x06, 0x01, 0x05, 0x05, 0x07, 0x08, 0x04], // 1.3.6.1.5.5.7.8.4
    ),
    (
        "dnsSRV",
        &[0x2B, 0x06, 0x01, 0x05, 0x05, 0x07, 0x08, 0x07], // 1.3.6.1.5.5.7.8.7
    ),
    (
        "SmtpUTF8Mailbox",
        &[0x2B, 0x06, 0x01, 0x05, 0x05, 0x07, 0x08, 0x09], // 1.3.6.1.5.5.7.8.9
    ),
];

/// The rows of [`NAMES`], in one place for all who look a name up.
static TABLE: [Row; 83] = NAMES;

/// Whether two OIDs have as many content octets, and the same last one.
fn is_like(one: &[u8], other: &[u8]) -> bool
    ensures { one.now ≡ other.now → result ≡ true }
{
    match (one, other) {
        ([.., last], [.., other_last]) => one.len() == other.len() && last == other_last,
        _ => one.len() == other.len(),
    }
}

/// Whether two OIDs have the same content octets.
fn is_same(one: &[u8], other: &[u8]) -> bool
    ensures { result ≡ bytes_eq one.now other.now }
{
    if !is_like(one, other) {
        return false;
    }
    one == other
}

/// The name of the first row with the content octets.
fn find(mut rows: &[Row], octets: &[u8]) -> Option<&'static str>
    ensures { option_map (λ name. name.now) result ≡ names.first_name octets.now (map (λ r. oids.row r.0.now r.1.now) rows.entry.now) }
{
    while let [row, rest @ ..] = rows {
        if is_same(row.1, octets) {
            return Some(row.0);
        }
        rows = rest;
    }
    None
}

/// The name of the OID with the content octets, where it has one here.
#[tactic(auto, unfolding(crate::specs::Names::name_of, crate::specs::OidNames::oid_names, x509_der::specs::Arcs::subidentifier))]
pub fn name_of(octets: &[u8]) -> Option<&'static str>
    ensures { option_map (λ name. name.now) result ≡ names.name_of octets.now }
{
    find(&TABLE, octets)
}
