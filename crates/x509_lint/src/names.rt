//! What is asked of names.

ghost use Rattle.std.specs.Char.{is_ascii_alphabetic};
ghost use Rattle.std.specs.List.{list_all, list_any};
ghost use Rattle.std.specs.Prelude.{◌≡◌, ◌||◌, ◌==◌, ◌/◌, drop, false, length, nat_le};
ghost use Rattle.x509_lint.specs.Alternative.{atom_marks, begins_with, is_at_domain, is_at_other_host, is_atom_octet, is_domain, is_empty_name, is_mailbox, is_mailbox_behind, is_no_address, is_no_dns_name, is_no_mailbox, is_no_smtp_mailbox, is_no_srv_name, is_no_uri, is_odd_directory_name, is_printed, is_quoted_behind, is_relative, is_rfc822_name, is_service_of_domain, is_smtp_mailbox, is_srv_name, is_wide_mailbox};
ghost use Rattle.x509_lint.specs.Constraint.{behind_dot, has_fault, has_odd_mask, is_mask, is_no_host, is_no_range, is_other_form, is_partial, is_range};
ghost use Rattle.x509_lint.specs.Name.{has_empty_rdn, has_no_country, is_country, is_no_country, is_printable};
ghost use Rattle.x509_lint.specs.Text as attribute_texts;
ghost use Rattle.x509_lint.specs.Words.{is_empty, passes};
ghost use Rattle.x509_lint.specs.declared.texts.TextFault.TheVariants.{Label, OtherCharacter, OtherType, Size};

use crate::lists::{Test, all_of, any_attribute, any_of};
use crate::passes;
use crate::texts::{TextFault, has_faulty_text, is_ia5, is_ia5_string, is_utf8, is_utf8_string};
use crate::uris::{before, behind, contains, has_other_host, is_absolute, is_uri};
use x509_der::{Any, ObjectIdentifier, Tag, oid};
use x509_ext::pkix::name::GeneralName;
use x509_host::{are_ldh_labels, is_preferred_name};
use x509_name::attr::AttributeTypeAndValue;
use x509_name::attr::attribute_types::COUNTRY_NAME;
use x509_name::name::{Name, RdnSequence, RelativeDistinguishedName};

/// id-on-dnsSRV, 1.3.6.1.5.5.7.8.7 (RFC 4985 2).
const SRV_NAME: ObjectIdentifier = oid!(0x2B, 0x06, 0x01, 0x05, 0x05, 0x07, 8, 7);

/// id-on-SmtpUTF8Mailbox, 1.3.6.1.5.5.7.8.9 (RFC 9598 3).
const SMTP_MAILBOX: ObjectIdentifier = oid!(0x2B, 0x06, 0x01, 0x05, 0x05, 0x07, 8, 9);

fn is_printable(tag: Tag) -> bool
    ensures { result ≡ is_printable tag }
{
    match tag {
        Tag::PrintableString => true,
        _ => false,
    }
}

fn are_letters(octets: &[u8]) -> bool
    ensures { result ≡ list_all is_ascii_alphabetic octets.now }
{
    octets.iter().all(u8::is_ascii_alphabetic)
}

/// Whether the value is a PrintableString of two letters.
fn is_country(value: &Any) -> bool
    ensures { result ≡ is_country value.now }
{
    is_printable(value.tag()) && value.value().len() == 2 && are_letters(value.value())
}

/// That an attribute is a countryName whose value is none.
struct NoCountry;

impl Test<AttributeTypeAndValue> for NoCountry {
    ghost use Rattle.x509_lint.specs.Name.{is_no_country};

    ghost holds_of = { λ test. is_no_country };

    #[tactic(auto, unfolding(x509_der::specs::Arcs::subidentifier))]
    fn holds_of(&self, attribute: &AttributeTypeAndValue) -> bool {
        attribute.oid == COUNTRY_NAME && !is_country(&attribute.value)
    }
}

/// Whether a countryName of the name isn't a PrintableString of two letters.
pub(crate) fn has_no_country(name: &Name) -> bool
    ensures { result ≡ has_no_country name.now }
{
    any_attribute(&NoCountry, name)
}

/// That an RDN has no attribute.
struct EmptyRdn;

impl Test<RelativeDistinguishedName> for EmptyRdn {
    ghost use Rattle.x509_lint.specs.Words.{is_empty};

    ghost holds_of = { λ test rdn. is_empty rdn };

    fn holds_of(&self, rdn: &RelativeDistinguishedName) -> bool {
        rdn.len() == 0
    }
}

/// Whether an RDN of the name has no attribute.
pub(crate) fn has_empty_rdn(name: &Name) -> bool
    ensures { result ≡ has_empty_rdn name.now }
{
    let rdns: &RdnSequence = name.as_ref();
    any_of(&EmptyRdn, rdns.as_slice())
}

/// Whether the name has no RDN.
pub(crate) fn is_empty_name(name: &Name) -> bool
    ensures { result ≡ is_empty name.now }
{
    name.len() == 0
}

/// That a name is empty.
pub(crate) struct EmptyName;

impl Test<GeneralName> for EmptyName {
    ghost use Rattle.x509_lint.specs.Alternative.{is_empty_name};

    ghost holds_of = { λ test. is_empty_name };

    fn holds_of(&self, name: &GeneralName) -> bool {
        match name {
            GeneralName::OtherName(_) => false,
            GeneralName::Rfc822Name(text) => text.as_str().as_bytes().is_empty(),
            GeneralName::DnsName(text) => text.as_str().as_bytes().is_empty(),
            GeneralName::DirectoryName(name) => is_empty_name(name),
            GeneralName::EdiPartyName(_) => false,
            GeneralName::UniformResourceIdentifier(text) => text.as_str().as_bytes().is_empty(),
            GeneralName::IpAddress(octets) => octets.as_bytes().is_empty(),
            GeneralName::RegisteredId(_) => false,
        }
    }
}

/// That a name is a dNSName that isn't empty, and isn't a DNS name.
pub(crate) struct NoDnsName;

impl Test<GeneralName> for NoDnsName {
    ghost use Rattle.x509_lint.specs.Alternative.{is_no_dns_name};

    ghost holds_of = { λ test. is_no_dns_name };

    fn holds_of(&self, name: &GeneralName) -> bool {
        match name {
            GeneralName::DnsName(text) => {
                let text = text.as_str().as_bytes();
                !text.is_empty() && !is_preferred_name(text)
            }
            _ => false,
        }
    }
}

/// That a name is an iPAddress that isn't empty, and has neither 4 nor 16 octets.
pub(crate) struct NoAddress;

impl Test<GeneralName> for NoAddress {
    ghost use Rattle.x509_lint.specs.Alternative.{is_no_address};

    ghost holds_of = { λ test. is_no_address };

    fn holds_of(&self, name: &GeneralName) -> bool {
        match name {
            GeneralName::IpAddress(octets) => {
                let len = octets.as_bytes().len();
                len != 0 && len != 4 && len != 16
            }
            _ => false,
        }
    }
}

/// What may be wrong with the base of a subtree (RFC 5280 4.2.1.10).
#[derive(Clone, Copy)]
pub(crate) enum BaseFault {
    /// It is of a form that isn't to be constrained.
    OtherForm,

    /// It is a URI, and no host.
    NoHost,

    /// It is an address, and not one with a mask.
    NoRange,

    /// It is an address with a mask that isn't ones and zeros behind them.
    OddMask,
}

fn behind_dot(text: &[u8]) -> &[u8]
    ensures { result.now ≡ behind_dot text.now }
{
    match text {
        [b'.', octets @ ..] => octets,
        _ => text,
    }
}

fn is_range(octets: &[u8]) -> bool
    ensures { result ≡ is_range octets.now }
{
    octets.len() == 8 || octets.len() == 32
}

fn is_partial(octet: u8) -> bool
    ensures { result ≡ is_partial octet }
{
    [0, 128, 192, 224, 240, 248, 252, 254].contains(&octet)
}

/// That an octet is 0.
struct Zero;

impl Test<u8> for Zero {
    ghost use Rattle.std.specs.Prelude.{◌==◌};

    ghost holds_of = { λ test octet. octet == 0 };

    fn holds_of(&self, octet: &u8) -> bool {
        *octet == 0
    }
}

/// Whether the octets are ones and zeros behind them.
fn is_mask(mut octets: &[u8]) -> bool
    ensures { result ≡ is_mask octets.entry.now }
{
    while let [first, rest @ ..] = octets {
        if *first != 255 {
            return is_partial(*first) && all_of(&Zero, rest);
        }
        octets = rest;
    }
    true
}

/// Whether the second half of the octets is such a mask.
fn ends_in_mask(octets: &[u8]) -> bool
    ensures { result ≡ is_mask (drop (length octets.now / 2) octets.now) }
{
    is_mask(&octets[octets.len() / 2..])
}

fn is_other_form(base: &GeneralName) -> bool
    ensures { result ≡ is_other_form base.now }
{
    match base {
        GeneralName::EdiPartyName(_) | GeneralName::RegisteredId(_) => true,
        _ => false,
    }
}

fn is_no_host(base: &GeneralName) -> bool
    ensures { result ≡ is_no_host base.now }
{
    match base {
        GeneralName::UniformResourceIdentifier(text) => {
            !are_ldh_labels(behind_dot(text.as_str().as_bytes()))
        }
        _ => false,
    }
}

fn is_no_range(base: &GeneralName) -> bool
    ensures { result ≡ is_no_range base.now }
{
    match base {
        GeneralName::IpAddress(octets) => !is_range(octets.as_bytes()),
        _ => false,
    }
}

fn has_odd_mask(base: &GeneralName) -> bool
    ensures { result ≡ has_odd_mask base.now }
{
    match base {
        GeneralName::IpAddress(octets) => {
            is_range(octets.as_bytes()) && !ends_in_mask(octets.as_bytes())
        }
        _ => false,
    }
}

/// Whether the base of a subtree has the fault.
pub(crate) fn is_faulty_base(fault: BaseFault, base: &GeneralName) -> bool
    ensures { result ≡ has_fault fault base.now }
{
    match fault {
        BaseFault::OtherForm => is_other_form(base),
        BaseFault::NoHost => is_no_host(base),
        BaseFault::NoRange => is_no_range(base),
        BaseFault::OddMask => has_odd_mask(base),
    }
}

const ATOM_MARKS: [u8; 19] = *b"!#$%&'*+-/=?^_`{|}~";

fn is_atom_octet(octet: u8) -> bool
    ensures { result ≡ is_atom_octet octet }
{
    octet.is_ascii_alphanumeric() || ATOM_MARKS.contains(&octet)
}

fn begins_with(octet: u8, text: &[u8]) -> bool
    ensures { result ≡ begins_with octet text.now }
{
    passes!(text.first(), first => *first == octet)
}

fn is_domain(text: &[u8]) -> bool
    ensures { result ≡ is_domain text.now }
{
    are_ldh_labels(text) || begins_with(b'[', text)
}

/// Whether the text is atoms between dots, the sign @, and a domain.
fn is_dotted_mailbox(mut text: &[u8]) -> bool
    ensures { result ≡ is_mailbox_behind false text.entry.now }
{
    let mut in_atom = false;
    while let [first, rest @ ..] = text {
        if *first == b'@' {
            return in_atom && is_domain(rest);
        }
        if *first == b'.' {
            if !in_atom {
                return false;
            }
            in_atom = false;
        } else {
            if !is_atom_octet(*first) {
                return false;
            }
            in_atom = true;
        }
        text = rest;
    }
    false
}

fn is_printed(octet: u8) -> bool
    ensures { result ≡ is_printed octet }
{
    octet >= b' ' && octet <= b'~'
}

/// Whether the text is the sign @ and a domain.
fn is_at_domain(text: &[u8]) -> bool
    ensures { result ≡ is_at_domain text.now }
{
    match text {
        [first, rest @ ..] => *first == b'@' && is_domain(rest),
        [] => false,
    }
}

/// Whether the text behind an opening quote is a quoted string, the sign @, and a domain.
fn is_quoted_mailbox(mut text: &[u8]) -> bool
    ensures { result ≡ is_quoted_behind false text.entry.now }
{
    let mut escaped = false;
    while let [first, rest @ ..] = text {
        if *first == b'"' && !escaped {
            return is_at_domain(rest);
        }
        if !is_printed(*first) {
            return false;
        }
        escaped = *first == b'\\' && !escaped;
        text = rest;
    }
    false
}

/// Whether the text is a mailbox.
fn is_mailbox(text: &[u8]) -> bool
    ensures { result ≡ is_mailbox text.now }
{
    match text {
        [b'"', rest @ ..] => is_quoted_mailbox(rest),
        [_, ..] => is_dotted_mailbox(text),
        [] => false,
    }
}

/// That a name is an rfc822Name that isn't empty, and isn't a mailbox.
pub(crate) struct NoMailbox;

impl Test<GeneralName> for NoMailbox {
    ghost use Rattle.x509_lint.specs.Alternative.{is_no_mailbox};

    ghost holds_of = { λ test. is_no_mailbox };

    fn holds_of(&self, name: &GeneralName) -> bool {
        match name {
            GeneralName::Rfc822Name(text) => {
                let text = text.as_str().as_bytes();
                !text.is_empty() && !is_mailbox(text)
            }
            _ => false,
        }
    }
}

/// That a name is an rfc822Name.
pub(crate) struct Rfc822Name;

impl Test<GeneralName> for Rfc822Name {
    ghost use Rattle.x509_lint.specs.Alternative.{is_rfc822_name};

    ghost holds_of = { λ test. is_rfc822_name };

    fn holds_of(&self, name: &GeneralName) -> bool {
        match name {
            GeneralName::Rfc822Name(_) => true,
            _ => false,
        }
    }
}

/// That a name is a URI that isn't empty, and has no scheme or nothing behind it.
pub(crate) struct Relative;

impl Test<GeneralName> for Relative {
    ghost use Rattle.x509_lint.specs.Alternative.{is_relative};

    ghost holds_of = { λ test. is_relative };

    fn holds_of(&self, name: &GeneralName) -> bool {
        match name {
            GeneralName::UniformResourceIdentifier(text) => {
                let text = text.as_str().as_bytes();
                !text.is_empty() && !is_absolute(text)
            }
            _ => false,
        }
    }
}

/// That a name is an absolute URI of other syntax than RFC 3986 has.
pub(crate) struct NoUri;

impl Test<GeneralName> for NoUri {
    ghost use Rattle.x509_lint.specs.Alternative.{is_no_uri};

    ghost holds_of = { λ test. is_no_uri };

    fn holds_of(&self, name: &GeneralName) -> bool {
        match name {
            GeneralName::UniformResourceIdentifier(text) => {
                let text = text.as_str().as_bytes();
                is_absolute(text) && !is_uri(text)
            }
            _ => false,
        }
    }
}

/// That a name is an absolute URI whose authority has another host than a fully qualified name or an address.
pub(crate) struct AtOtherHost;

impl Test<GeneralName> for AtOtherHost {
    ghost use Rattle.x509_lint.specs.Alternative.{is_at_other_host};

    ghost holds_of = { λ test. is_at_other_host };

    fn holds_of(&self, name: &GeneralName) -> bool {
        match name {
            GeneralName::UniformResourceIdentifier(text) => {
                let text = text.as_str().as_bytes();
                is_absolute(text) && has_other_host(text)
            }
            _ => false,
        }
    }
}

fn has_odd_text(name: &Name) -> bool
    ensures { result ≡ (attribute_texts.has_faulty_text OtherType name.now || (attribute_texts.has_faulty_text OtherCharacter name.now || (attribute_texts.has_faulty_text Size name.now || attribute_texts.has_faulty_text Label name.now))) }
{
    has_faulty_text(TextFault::OtherType, name)
        || (has_faulty_text(TextFault::OtherCharacter, name)
            || (has_faulty_text(TextFault::Size, name) || has_faulty_text(TextFault::Label, name)))
}

/// That a name is a directoryName that isn't encoded as an issuer has to be.
pub(crate) struct OddDirectoryName;

impl Test<GeneralName> for OddDirectoryName {
    ghost use Rattle.x509_lint.specs.Alternative.{is_odd_directory_name};

    ghost holds_of = { λ test. is_odd_directory_name };

    fn holds_of(&self, name: &GeneralName) -> bool {
        match name {
            GeneralName::DirectoryName(name) => {
                has_empty_rdn(name) || (has_no_country(name) || has_odd_text(name))
            }
            _ => false,
        }
    }
}

/// Whether the text is an underscore, a service, a dot, and a domain name.
fn is_service_of_domain(text: &[u8]) -> bool
    ensures { result ≡ is_service_of_domain text.now }
{
    match text {
        [first, rest @ ..] => {
            *first == b'_'
                && (!before(b'.', rest).is_empty() && is_preferred_name(behind(b'.', rest)))
        }
        [] => false,
    }
}

fn is_srv_name(value: &Any) -> bool
    ensures { result ≡ is_srv_name value.now }
{
    is_ia5_string(value.tag()) && (is_ia5(value.value()) && is_service_of_domain(value.value()))
}

/// That a name is in the place of a SRVName, and isn't one.
pub(crate) struct NoSrvName;

impl Test<GeneralName> for NoSrvName {
    ghost use Rattle.x509_lint.specs.Alternative.{is_no_srv_name};

    ghost holds_of = { λ test. is_no_srv_name };

    fn holds_of(&self, name: &GeneralName) -> bool {
        match name {
            GeneralName::OtherName(name) => name.type_id == SRV_NAME && !is_srv_name(&name.value),
            _ => false,
        }
    }
}

/// That an octet is one of a character above U+007F.
struct Wide;

impl Test<u8> for Wide {
    ghost use Rattle.std.specs.Prelude.{nat_le};

    ghost holds_of = { λ test octet. nat_le 128 octet };

    fn holds_of(&self, octet: &u8) -> bool {
        *octet >= 128
    }
}

/// Whether the text is a local part with a character above U+007F, the sign @, and a domain without such.
fn is_wide_mailbox(text: &[u8]) -> bool
    ensures { result ≡ is_wide_mailbox text.now }
{
    if begins_with(b'"', text) {
        contains(b'@', text)
    } else {
        any_of(&Wide, before(b'@', text)) && is_domain(behind(b'@', text))
    }
}

fn is_smtp_mailbox(value: &Any) -> bool
    ensures { result ≡ is_smtp_mailbox value.now }
{
    is_utf8_string(value.tag()) && (is_utf8(value.value()) && is_wide_mailbox(value.value()))
}

/// That a name is in the place of a SmtpUTF8Mailbox, and isn't one.
pub(crate) struct NoSmtpMailbox;

impl Test<GeneralName> for NoSmtpMailbox {
    ghost use Rattle.x509_lint.specs.Alternative.{is_no_smtp_mailbox};

    ghost holds_of = { λ test. is_no_smtp_mailbox };

    fn holds_of(&self, name: &GeneralName) -> bool {
        match name {
            GeneralName::OtherName(name) => {
                name.type_id == SMTP_MAILBOX && !is_smtp_mailbox(&name.value)
            }
            _ => false,
        }
    }
}
