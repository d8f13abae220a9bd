//! An entry of a checked CRL, taken apart.

ghost use Rattle.std.specs.Prelude.{◌≡◌, ◌≤◌, length, option_map, List, ℕ, Option, Ok, IsOk};
ghost use Rattle.x509_base.specs.Time.{time};
ghost use Rattle.x509_cert.specs.RevokedCert.{revoked_cert, revoked_cert_contents};
ghost use Rattle.x509_cert.specs.declared.crl.revoked_cert.RevokedCert as revoked;
ghost use Rattle.x509_check.specs.CrlRefs.{lent_entry};
ghost use Rattle.x509_check.specs.ExtensionRefs.{SpellsOptional, extensions_left};
ghost use Rattle.x509_der.specs.Element.{limit};
ghost use Rattle.x509_der.specs.Frames.{field_at};
ghost use Rattle.x509_der.specs.Outcome.{Answers};
ghost use Rattle.x509_ext.specs.declared.extension.Extension.{Extension};

use x509_base::{GeneralizedTime, Profile, Time, UtcTime};
use x509_check::{ExtensionRefs, RevokedCertRef};
use x509_der::{Error, Tag, expect_tag, split_usual};

/// The time with this identifier octet and these content octets (RFC 5280 4.1.2.5).
///
/// # Errors
///
/// `Malformed` exactly where they are those of no time.
#[tactic(auto, unfolding(x509_der::specs::Choice::either_reading))]
#[inline(always)]
fn read_time(tag: u8, content: &[u8]) -> Result<Time, Error>
    ensures { Answers result (time.reading tag content.now) }
{
    if tag == Tag::UtcTime.octet() {
        let time = UtcTime::from_content(content)?;
        return Ok(Time::UtcTime(time));
    }
    expect_tag(tag, Tag::GeneralizedTime)?;
    let time = GeneralizedTime::from_content(content)?;
    Ok(Time::GeneralTime(time))
}

/// The time that is known to stand at the front, and what follows it.
#[inline(always)]
fn known_time(bytes: &[u8]) -> (Time, &[u8])
    requires { IsOk (field_at time.reading bytes.now) }
    ensures { field_at time.reading bytes.now ≡ Ok (result.0, result.1.now) }
{
    let Ok(date) = split_usual(bytes, Tag::UtcTime) else {
        unreachable!()
    };
    let Ok(time) = read_time(date.tag, date.content) else {
        unreachable!()
    };
    (time, date.rest)
}

/// The extensions of which the bytes are the list, as is known; none where there are no bytes.
#[inline(always)]
fn known_extensions(bytes: &[u8]) -> Option<ExtensionRefs<'_>>
    requires { (list : Option (List Extension)) × SpellsOptional list bytes.now }
    ensures { (list : Option (List Extension)) → SpellsOptional list bytes.now → option_map extensions_left result ≡ list }
{
    if bytes.is_empty() {
        return None;
    }
    Some(ExtensionRefs::of_checked(bytes))
}

/// The entry of which these are the content octets, as is known.
#[inline(always)]
fn known_content<P: Profile>(octets: &[u8]) -> RevokedCertRef<'_>
    requires within { length octets.now ≤ limit }
    requires known { IsOk ((revoked_cert_contents {P = P} P.serial_check).reading octets.now) }
    ensures { (entry : revoked.RevokedCert P) → (revoked_cert_contents {P = P} P.serial_check).reading octets.now ≡ Ok entry → lent_entry result ≡ entry }
{
    let Ok(number) = split_usual(octets, Tag::Integer) else {
        unreachable!()
    };
    let date = known_time(number.rest);
    RevokedCertRef {
        serial_number: number.content,
        revocation_date: date.0,
        crl_entry_extensions: known_extensions(date.1),
    }
}

/// The entry that is known to stand at the front.
pub(crate) fn known_entry<P: Profile>(bytes: &[u8]) -> RevokedCertRef<'_>
    requires within { length bytes.now ≤ limit }
    requires known { IsOk (field_at (revoked_cert {P = P} P.serial_check).reading bytes.now) }
    ensures { (entry : revoked.RevokedCert P) (rest : List ℕ) → field_at (revoked_cert {P = P} P.serial_check).reading bytes.now ≡ Ok (entry, rest)
        → lent_entry result ≡ entry }
{
    let Ok(piece) = split_usual(bytes, Tag::Sequence) else {
        unreachable!()
    };
    known_content::<P>(piece.content)
}
