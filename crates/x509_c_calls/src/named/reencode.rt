//! Decoding a value of the type with a name, and encoding it again.

ghost use Rattle.std.specs.Prelude.{◌≡◌, false, None};
ghost use Rattle.std.specs.Str.{is_utf8};
ghost use Rattle.x509_c_calls.specs.Named.{IsNamedAnswer, profile_of};
ghost use Rattle.x509_c_calls.specs.Status.{Fills};
ghost use Rattle.x509_c_calls.specs.declared.status.status.Status.TheVariants.{Refused};
ghost use Rattle.x509_der.specs.declared.error.ErrorKind.TheVariants.{Failed};

use crate::named::text::text_of;
use crate::{Status, fill};
use std::alloc::Global;
use x509_codec::{Codec, ProfileName};
use x509_der::ErrorKind;

/// The profile with a number: 0 is RFC 5280, 1 is none.
fn profile_of(number: u32) -> Option<ProfileName>
    ensures { result ≡ profile_of number }
{
    match number {
        0 => Some(ProfileName::Rfc5280),
        1 => Some(ProfileName::Raw),
        _ => None,
    }
}

/// Decodes a value of the type with that name under the profile with that number, and encodes it at the front of the
/// buffer `room`.
///
/// # Errors
///
/// [`Status::NoRoom`] where the buffer is too small; then `written` is the needed length. `Failed` where the profile is
/// unknown or the name isn't UTF-8. Else the codec's errors, `Failed` among them where the type is unknown; `Memory`
/// when out of memory.
#[tactic(auto, unfolding(crate::specs::Status::Fills))]
pub fn reencode_named<C: Codec>(
    alloc: Global,
    name: &[u8],
    profile: u32,
    input: &[u8],
    room: &mut [u8],
    written: &mut usize,
) -> Status
    ensures filled { Fills (IsNamedAnswer C.reencodes name.now (profile_of profile) input.now) room.old room.new written.old written.new result }
    ensures profile { profile_of profile ≡ None → result ≡ Refused Failed }
    ensures name { is_utf8 name.now ≡ false → result ≡ Refused Failed }
{
    let Some(profile) = profile_of(profile) else {
        return Status::Refused(ErrorKind::Failed);
    };
    let Some(name) = text_of(name) else {
        return Status::Refused(ErrorKind::Failed);
    };
    match C::reencode(alloc, name, profile, input) {
        Ok(bytes) => fill(bytes.as_slice(), room, written),
        Err(e) => e.into(),
    }
}
