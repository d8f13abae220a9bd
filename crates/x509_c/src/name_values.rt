//! Names that are built of values.

ghost use Rattle.std.specs.Prelude.{◌≡◌, nat_eq, not};
ghost use Rattle.x509_c_calls.specs.NameMembers.{BuildsName, EncodesAttribute, EncodesRelativeName, Escapes};
ghost use Rattle.x509_c_calls.specs.Status.{Fills, Tells};

use std::alloc::Global;
use x509_c_calls::{attribute_encode, build_name, escape, relative_name_encode};

/// Puts the encoding of an attribute of a text at the front of the room. Where `is_bounded` isn't 0, the number of its
/// characters is looked at.
#[unsafe(no_mangle)]
pub extern "C" fn x509_attribute_encode(
    alloc: Global,
    oid: &[u8],
    string_type: u32,
    text: &[u8],
    is_bounded: u32,
    room: &mut [u8],
    written: &mut usize,
) -> i32
    ensures { Tells (λ status. Fills (EncodesAttribute oid.now string_type text.now (not (nat_eq is_bounded 0))) room.old room.new written.old written.new
        status) result }
{
    attribute_encode(
        alloc,
        oid,
        string_type,
        text,
        is_bounded != 0,
        room,
        written,
    )
    .code()
}

/// Puts the encoding of a relative distinguished name at the front of the room.
#[unsafe(no_mangle)]
pub extern "C" fn x509_relative_name_encode(
    alloc: Global,
    attributes: &[u8],
    room: &mut [u8],
    written: &mut usize,
) -> i32
    ensures { Tells (λ status. Fills (EncodesRelativeName attributes.now) room.old room.new written.old written.new status) result }
{
    relative_name_encode(alloc, attributes, room, written).code()
}

/// Puts the encoding of a name at the front of the room.
#[unsafe(no_mangle)]
pub extern "C" fn x509_name_build(
    alloc: Global,
    relative_names: &[u8],
    room: &mut [u8],
    written: &mut usize,
) -> i32
    ensures { Tells (λ status. Fills (BuildsName relative_names.now) room.old room.new written.old written.new status) result }
{
    build_name(alloc, relative_names, room, written).code()
}

/// Puts a text with escapes, as it stands for one value in the text of a name, at the front of the room.
#[unsafe(no_mangle)]
pub extern "C" fn x509_name_escape(
    alloc: Global,
    text: &[u8],
    room: &mut [u8],
    written: &mut usize,
) -> i32
    ensures { Tells (λ status. Fills (Escapes text.now) room.old room.new written.old written.new status) result }
{
    escape(alloc, text, room, written).code()
}
