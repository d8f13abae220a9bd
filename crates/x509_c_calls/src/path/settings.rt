//! The settings of a path, as C hands them over.

ghost use Rattle.std.specs.List.{list_all};
ghost use Rattle.std.specs.Option.{option_map};
ghost use Rattle.std.specs.Prelude.{◌≡◌, ◌==◌, ◌<◌, ◌^◌, ◌↔◌, ◌++◌, IfOk, IsTrue, MatchOption, slice_index, ℕ};
ghost use Rattle.x509_c_calls.specs.PathValidation.{AreSettings, AreWhole, HasNoSettings, HasSettings, LacksOwnPurpose, known_purposes, named_purposes, number_in, own_purpose_in, own_purposes, unless_none};
ghost use Rattle.x509_policy.specs.Views.{octets_of};

use bitflags::Flags;
use std::alloc::{AllocError, Global};
use std::time::Duration;
use x509_base::DateTime;
use x509_ext::pkix::{KeyUsage, KeyUsages};

/// The content octets of serverAuth, clientAuth, codeSigning, emailProtection, timeStamping and OCSPSigning (RFC 5280 4.2.1.12).
const KNOWN_PURPOSES: [[u8; 8]; 6] = [
    [0x2B, 0x06, 0x01, 0x05, 0x05, 0x07, 0x03, 0x01],
    [0x2B, 0x06, 0x01, 0x05, 0x05, 0x07, 0x03, 0x02],
    [0x2B, 0x06, 0x01, 0x05, 0x05, 0x07, 0x03, 0x03],
    [0x2B, 0x06, 0x01, 0x05, 0x05, 0x07, 0x03, 0x04],
    [0x2B, 0x06, 0x01, 0x05, 0x05, 0x07, 0x03, 0x08],
    [0x2B, 0x06, 0x01, 0x05, 0x05, 0x07, 0x03, 0x09],
];

/// Where the octets of another purpose stand in settings.
const OWN_PURPOSE: usize = 40;

/// How many octets another purpose has at most.
const MAX_OWN_PURPOSE: usize = 64;

/// How many octets of settings are known.
const KNOWN: usize = OWN_PURPOSE + MAX_OWN_PURPOSE;

/// What the settings ask for.
#[derive(Clone, Copy)]
pub(crate) struct AskedSettings {
    /// The time.
    pub moment: DateTime,

    /// Whether the path has to be valid under a policy (RFC 5280 6.1.1 (f)).
    pub explicit_policy: bool,

    /// Whether policies may not be mapped (RFC 5280 6.1.1 (e)).
    pub inhibit_policy_mapping: bool,

    /// Whether any-policy counts for nothing (RFC 5280 6.1.1 (g)).
    pub inhibit_any_policy: bool,

    /// Whether purposes are asked of the last certificate alone.
    pub is_unchained: bool,

    /// Whether certificates of version 1 are authorities.
    pub allows_version_1: bool,

    /// Whether names of servers in the last certificate's common names are asked under name constraints.
    pub constrain_common_names: bool,

    /// The bits that the last certificate's KeyUsage has to have.
    pub key_usage: KeyUsage,

    /// The known purposes of which one is asked for, a bit for each.
    pub purposes: u64,
}

/// The two numbers of the settings, if they are any.
pub(crate) fn numbers_of(settings: &[u8]) -> Option<(u64, u64)>
    ensures { MatchOption result ((seconds flags : ℕ) → AreSettings settings.now seconds flags → ⊥) (λ found. AreSettings settings.now found.0 found.1) }
{
    let (seconds, behind) = settings.split_first_chunk::<8>()?;
    let (flags, behind) = behind.split_first_chunk::<8>()?;
    if behind.iter().any(|octet| *octet != 0) {
        return None;
    }
    Some((u64::from_le_bytes(*seconds), u64::from_le_bytes(*flags)))
}

/// The octet at a place; 0 where there is none.
fn octet_at(octets: &[u8], place: usize) -> u8
    ensures { result ≡ slice_index octets.now place }
{
    match octets.get(place) {
        Some(octet) => *octet,
        None => 0,
    }
}

/// The number of eight octets from a place on, the lowest first; those that aren't there are zeros.
fn number_at(octets: &[u8], place: usize) -> u64
    requires { place < 2 ^ 32 }
    ensures { result ≡ number_in octets.now place }
{
    u64::from_le_bytes([
        octet_at(octets, place),
        octet_at(octets, place + 1),
        octet_at(octets, place + 2),
        octet_at(octets, place + 3),
        octet_at(octets, place + 4),
        octet_at(octets, place + 5),
        octet_at(octets, place + 6),
        octet_at(octets, place + 7),
    ])
}

/// Whether each octet is zero.
fn are_zeros(octets: &[u8]) -> bool
    ensures { result ≡ list_all (λ octet. octet == 0) octets.now }
{
    octets.iter().all(|octet| *octet == 0)
}

/// Whether the first two numbers are there, and zeros behind what is known.
fn are_whole(settings: &[u8]) -> bool
    ensures { IsTrue result ↔ AreWhole settings.now }
{
    if settings.len() <= KNOWN {
        return settings.len() >= 16;
    }
    are_zeros(&settings[KNOWN..])
}

/// The octets of another purpose, none where there is no other; `None` where there are too many, or they aren't there.
pub(crate) fn own_purpose_of(settings: &[u8]) -> Option<&[u8]>
    ensures { MatchOption result (LacksOwnPurpose settings.now) (λ own. own.now ≡ own_purpose_in settings.now) }
{
    let len = number_at(settings, 32);
    if len == 0 {
        return Some(&[]);
    }
    if len > MAX_OWN_PURPOSE as u64 {
        return None;
    }
    let end = OWN_PURPOSE + len as usize;
    if settings.len() < end {
        return None;
    }
    Some(&settings[OWN_PURPOSE..end])
}

/// What the settings ask for, apart from another purpose, if they are any, have no other flag, bit or known purpose, and are of a time through the year 9999.
pub(crate) fn settings_of(settings: &[u8]) -> Option<AskedSettings>
    ensures { MatchOption result (HasNoSettings settings.now) (λ asked. HasSettings settings.now asked) }
{
    if !are_whole(settings) {
        return None;
    }
    let flags = number_at(settings, 8);
    let usage = number_at(settings, 16);
    let purposes = number_at(settings, 24);
    if flags > 63 || usage > 511 || purposes > 63 {
        return None;
    }
    match DateTime::from_unix_duration(Duration::from_secs(number_at(settings, 0))) {
        Ok(moment) => Some(AskedSettings {
            moment,
            explicit_policy: flags % 2 == 1,
            inhibit_policy_mapping: flags / 2 % 2 == 1,
            inhibit_any_policy: flags / 4 % 2 == 1,
            is_unchained: flags / 8 % 2 == 1,
            allows_version_1: flags / 16 % 2 == 1,
            constrain_common_names: flags / 32 == 1,
            key_usage: KeyUsage(KeyUsages::from_bits_retain(usage as u16)),
            purposes,
        }),
        Err(_) => None,
    }
}

/// The purposes that the number stands for, and another, if there is one.
pub(crate) fn purposes_of<'a>(
    alloc: Global,
    number: u64,
    own: &'a [u8],
) -> Result<Vec<&'a [u8]>, AllocError>
    ensures { IfOk result (λ found. octets_of found.items ≡ named_purposes number known_purposes ++ own_purposes own.now) }
{
    let mut found = Vec::new(alloc);
    let mut left = number;
    for purpose in &KNOWN_PURPOSES {
        if left % 2 == 1 {
            found.push(purpose.as_slice())?;
        }
        left /= 2;
    }
    if !own.is_empty() {
        found.push(own)?;
    }
    Ok(found)
}

/// The purposes, if there are any.
pub(crate) fn unless_empty<'s, 'a>(purposes: &'s [&'a [u8]]) -> Option<&'s [&'a [u8]]>
    ensures { option_map (λ lent. octets_of lent.now) result ≡ unless_none (octets_of purposes.now) }
{
    if purposes.is_empty() {
        return None;
    }
    Some(purposes)
}
