//! What the words after the program's name ask for.

ghost use Rattle.std.specs.Option.{option_map};
ghost use Rattle.std.specs.Prelude.{◌≡◌, None, bytes_eq, codes, if◌then◌else◌, map, string_bytes};
ghost use Rattle.x509_tool_run.specs.Command.{kind_of, type_name, name_command_of, command_of, reencoding_of, path_of};

use x509_codec::{ProfileName, Signatures};

/// A type whose encodings the program decodes.
#[derive(Clone, Copy)]
pub enum Kind {
    /// A trust anchor.
    Anchor,

    /// An element that isn't decoded further.
    Any,

    /// A certificate.
    Certificate,

    /// A CRL.
    Crl,

    /// The extensions of a certificate, a CRL or a CSR.
    Extensions,

    /// General names.
    GeneralNames,

    /// A whole number.
    Integer,

    /// A name.
    Name,

    /// An OID.
    Oid,

    /// An RDN.
    Rdn,

    /// A CSR.
    Request,

    /// A serial number of a certificate.
    Serial,

    /// A date of a certificate.
    Time,

    /// The validity of a certificate.
    Validity,
}

/// What the program is asked to do.
#[derive(Clone, Copy)]
pub enum Command {
    /// Decode the bytes of the line, and encode the value again.
    Reencode(Kind, ProfileName),

    /// Print the name of which the bytes of the line are the encoding.
    Name,

    /// Encode the name that the line says.
    EncodeName,
}

/// The words that name types.
static KINDS: [(&str, Kind); 14] = [
    ("anchor", Kind::Anchor),
    ("any", Kind::Any),
    ("certificate", Kind::Certificate),
    ("crl", Kind::Crl),
    ("extensions", Kind::Extensions),
    ("general-names", Kind::GeneralNames),
    ("integer", Kind::Integer),
    ("name", Kind::Name),
    ("oid", Kind::Oid),
    ("rdn", Kind::Rdn),
    ("request", Kind::Request),
    ("serial", Kind::Serial),
    ("time", Kind::Time),
    ("validity", Kind::Validity),
];

impl Kind {
    /// The type that a word names.
    pub fn from_word(word: &str) -> Option<Kind>
        ensures { result ≡ kind_of word.now }
    {
        let mut rows: &[(&str, Kind)] = &KINDS;
        while let [row, rest @ ..] = rows {
            if word == row.0 {
                return Some(row.1);
            }
            rows = rest;
        }
        None
    }

    /// The name of the type in the table of types.
    pub fn type_name(self) -> &'static str
        ensures { result.now ≡ type_name self }
    {
        match self {
            Kind::Anchor => "TrustAnchorChoice",
            Kind::Any => "Any",
            Kind::Certificate => "Certificate",
            Kind::Crl => "CertificateList",
            Kind::Extensions => "Extensions",
            Kind::GeneralNames => "GeneralNames",
            Kind::Integer => "Int",
            Kind::Name => "Name",
            Kind::Oid => "ObjectIdentifier",
            Kind::Rdn => "RelativeDistinguishedName",
            Kind::Request => "CertReq",
            Kind::Serial => "SerialNumber",
            Kind::Time => "Time",
            Kind::Validity => "Validity",
        }
    }
}

impl Command {
    /// The command that the words make, if they make one.
    pub fn from_words(words: &[String]) -> Option<Command>
        ensures { result ≡ command_of (map string_bytes words.now) }
    {
        match words {
            [command] => Command::over_names(command.as_str()),
            [command, kind] => reencoding(
                command.as_str(),
                Kind::from_word(kind.as_str()),
                Some(ProfileName::Rfc5280),
            ),
            [command, kind, profile] => reencoding(
                command.as_str(),
                Kind::from_word(kind.as_str()),
                ProfileName::from_word(profile.as_str()),
            ),
            _ => None,
        }
    }

    fn over_names(word: &str) -> Option<Command>
        ensures { result ≡ name_command_of word.now }
    {
        match word {
            "name" => Some(Command::Name),
            "encode-name" => Some(Command::EncodeName),
            _ => None,
        }
    }
}

/// A re-encoding, where the command is one and both of its words are names.
fn reencoding(command: &str, kind: Option<Kind>, profile: Option<ProfileName>) -> Option<Command>
    ensures { result ≡ (if bytes_eq command.now (codes "reencode") then reencoding_of kind profile else None) }
{
    match (kind, profile) {
        (Some(kind), Some(profile)) if command == "reencode" => {
            Some(Command::Reencode(kind, profile))
        }
        _ => None,
    }
}

/// Which signatures are accepted, and the text of the moment, where the words are `path [--any-signature] MOMENT`.
pub fn path_asked(words: &[String]) -> Option<(Signatures, &str)>
    ensures { option_map (λ asked. (asked.0, asked.1.now)) result ≡ path_of (map string_bytes words.now) }
{
    let [command, others @ ..] = words else {
        return None;
    };
    if command.as_str() != "path" {
        return None;
    }
    match others {
        [moment] => Some((Signatures::Echoes, moment.as_str())),
        [option, moment] if option.as_str() == "--any-signature" => {
            Some((Signatures::Any, moment.as_str()))
        }
        _ => None,
    }
}
