//! The labels of names (RFC 1034 3.5, RFC 1035 2.3.4, RFC 1123 2.1).

ghost use Rattle.std.specs.Char.{is_ascii_digit};
ghost use Rattle.std.specs.List.{last_or, list_all};
ghost use Rattle.std.specs.Option.{option_copied};
ghost use Rattle.std.specs.Prelude.{◌≡◌, ◌≤◌, ◌+◌, None, length};
ghost use Rattle.x509_host.specs.Host as hosts;

/// Which octets a label may have.
#[derive(Clone, Copy)]
pub(crate) enum LabelOctets {
    /// Letters and digits of ASCII, and '-'.
    Ldh,

    /// These and '_'.
    LdhAndUnderscore,
}

fn is_ldh_octet(octet: u8) -> bool
    ensures { result ≡ hosts.is_ldh_octet octet }
{
    octet.is_ascii_alphanumeric() || octet == b'-'
}

/// Whether the octet is a letter or a digit of ASCII, '-' or '_', as labels of hosts may have.
pub fn is_label_octet(octet: u8) -> bool
    ensures { result ≡ hosts.is_label_octet octet }
{
    is_ldh_octet(octet) || octet == b'_'
}

fn is_octet_of(octets: LabelOctets, octet: u8) -> bool
    ensures { result ≡ hosts.octets_of octets octet }
{
    match octets {
        LabelOctets::Ldh => is_ldh_octet(octet),
        LabelOctets::LdhAndUnderscore => is_label_octet(octet),
    }
}

/// Whether there is an octet, and a label may begin and end with it.
fn is_end(octets: LabelOctets, octet: Option<&u8>) -> bool
    ensures { result ≡ hosts.is_end (hosts.octets_of octets) (option_copied octet.entry) }
{
    match octet {
        Some(octet) => is_octet_of(octets, *octet) && *octet != b'-',
        None => false,
    }
}

fn are_octets_of(octets: LabelOctets, label: &[u8]) -> bool
    ensures { result ≡ list_all (hosts.octets_of octets) label.now }
{
    label.iter().all(|octet| is_octet_of(octets, *octet))
}

/// Whether the octets are a label of a DNS name, or of a preferred name.
fn is_label_of(octets: LabelOctets, label: &[u8]) -> bool
    ensures { result ≡ hosts.is_label_of (hosts.octets_of octets) label.now }
{
    are_octets_of(octets, label)
        && label.len() <= 63
        && is_end(octets, label.first())
        && is_end(octets, label.last())
}

/// Whether what stands between the dots is such labels.
fn are_labels_of(octets: LabelOctets, name: &[u8]) -> bool
    ensures { result ≡ list_all (hosts.is_label_of (hosts.octets_of octets)) (hosts.labels_of name.now) }
{
    name.split(|octet| *octet == b'.')
        .all(|label| is_label_of(octets, label))
}

/// Whether what stands between the dots is labels of DNS names.
pub(crate) fn are_dns_labels(name: &[u8]) -> bool
    ensures { result ≡ list_all hosts.is_dns_label (hosts.labels_of name.now) }
{
    are_labels_of(LabelOctets::LdhAndUnderscore, name)
}

/// Whether what stands between the dots is LDH labels (RFC 5890 2.3.1): 1 to 63 letters, digits and hyphens, of which neither
/// the first nor the last is a hyphen.
pub fn are_ldh_labels(text: &[u8]) -> bool
    ensures { result ≡ hosts.are_ldh_labels text.now }
{
    are_labels_of(LabelOctets::Ldh, text)
}

/// The last label.
pub(crate) fn last_label(name: &[u8]) -> Option<&[u8]>
    ensures { option_copied result ≡ last_or None (hosts.labels_of name.now) }
{
    name.split(|octet| *octet == b'.').last()
}

/// How many labels there are.
pub(crate) fn count_labels(name: &[u8]) -> usize
    ensures count { result ≡ length (hosts.labels_of name.now) }
    ensures within { result ≤ length name.now + 1 }
{
    name.split(|octet| *octet == b'.').count()
}

/// Whether the octets are digits.
fn are_digits(octets: &[u8]) -> bool
    ensures { result ≡ list_all is_ascii_digit octets.now }
{
    octets.iter().all(|octet| octet.is_ascii_digit())
}

/// Whether the label is there, and is digits alone.
pub(crate) fn is_number(label: Option<&[u8]>) -> bool
    ensures { result ≡ hosts.is_number (option_copied label.entry) }
{
    match label {
        Some(label) => are_digits(label),
        None => false,
    }
}

/// What stands behind the first dot, if there is one.
pub(crate) fn behind_label(host: &[u8]) -> Option<&[u8]>
    ensures { option_copied result ≡ hosts.behind_label host.now }
{
    let mut left = host;
    while let [first, behind @ ..] = left {
        if *first == b'.' {
            return Some(behind);
        }
        left = behind;
    }
    None
}
