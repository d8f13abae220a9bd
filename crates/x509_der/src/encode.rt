//! Encoding a value as its one encoding.

ghost use Rattle.std.specs.Prelude.{◌≡◌, ◌≤◌, ◌⊎◌, None, IfOk, IfErr};
ghost use Rattle.x509_der.specs.Element.{header, limit};
ghost use Rattle.x509_der.specs.Writing.{Puts, writes, written_spelling, IsWritable, IsUnwritable};
ghost use Rattle.x509_der.specs.declared.error.ErrorKind.TheVariants.{Memory};

use crate::grammar::Grammar;
use crate::room::{Counting, Fixed, Growing, Room, bytes_after, share};
use crate::{Error, Length};
use std::alloc::Global;

/// A type that is encoded in DER, in one pass from the end. Where the encoding [`is_long`](Encode::is_long), a pass before
/// that one counts its length.
pub trait Encode: Grammar {
    ghost use Rattle.std.specs.Prelude.{◌≡◌, ◌+◌, ◌-◌, ◌≤◌, ◌++◌, ◌⊎◌, None, IfOk, IfErr, OnOk, length, take, min};
    ghost use Rattle.std.specs.Borrow.{sem, Array, u8};
    ghost use Rattle.std.specs.Io.BufRead.{Rests};
    ghost use Rattle.x509_der.specs.Element.{limit};
    ghost use Rattle.x509_der.specs.Form.{spelling};
    ghost use Rattle.x509_der.specs.Writing.{Writing, plain, writes, Puts, IsWritable, IsUnwritable, written_spelling};
    ghost use Rattle.x509_der.specs.declared.error.ErrorKind.TheVariants as errors;

    /// How values are encoded.
    ghost writing: { Writing Self } = { plain };

    /// Whether `to_der` counts the length before it takes memory. That is worth it where the encoding has many parts and
    /// 64 KB or more; its bytes and errors don't depend on it.
    fn is_long(&self) -> bool {
        false
    }

    /// Puts the content octets in front of the bytes that stand in the room.
    ///
    /// # Errors
    ///
    /// The error of a part that can't be encoded; `Overlength` where there is no place in the room; `Memory` when out
    /// of memory, only for a room that takes memory.
    fn put_content<R: Room>(&self, room: &mut R) -> Result<(), Error>
        ensures { Puts R.kind (Self.form.content (writes writing self.now).value) (writes writing self.now).refusal result room.old room.new };

    ghost same_tag: { (value : Self) → Self.form.tag (writes writing value).value ≡ Self.form.tag value };

    /// Puts the element in front of the bytes that stand in the room. Its content stands before its header is put.
    ///
    /// # Errors
    ///
    /// The error of a part that can't be encoded; `Overlength` where there is no place in the room; `Memory` when out
    /// of memory, only for a room that takes memory.
    #[inline(always)]
    final fn put_element<R: Room>(&self, room: &mut R) -> Result<(), Error>
        ensures { Puts R.kind (spelling Self.form (writes writing self.now).value) (writes writing self.now).refusal result room.old room.new }
    {
        let before = room.len();
        self.put_content(room)?;
        let len = room.len() - before;
        put_header(self.identifier().octet(), len as u32, room)
    }

    /// The one encoding of the value.
    ///
    /// # Errors
    ///
    /// `Overlength` exactly where it is longer than [`Length::MAX`](crate::Length::MAX), or the error of a part that
    /// can't be encoded. `Memory` when out of memory.
    final fn to_der(&self, alloc: Global) -> Result<Vec<u8>, Error>
        ensures ok { IfOk result (λ bytes. (bytes.items ≡ written_spelling Self.form (writes writing self.now))
            × IsWritable Self.form (writes writing self.now) limit) }
        ensures err { IfErr result (λ e. (e.kind ≡ errors.Memory) ⊎ IsUnwritable Self.form (writes writing self.now) limit e.kind) }
    {
        if self.is_long() {
            return to_counted_der(self, alloc);
        }
        let mut room = Growing::new(alloc);
        self.put_element(&mut room)?;
        Ok(room.into_vec())
    }

    /// The length of what `to_der` gives. It takes no memory.
    ///
    /// # Errors
    ///
    /// Those of `to_der` other than `Memory`, and exactly where they come there.
    final fn encoded_len(&self) -> Result<Length, Error>
        ensures ok { IfOk result (λ len. (len.octets ≡ length (written_spelling Self.form (writes writing self.now)))
            × IsWritable Self.form (writes writing self.now) limit) }
        ensures err { IfErr result (λ e. IsUnwritable Self.form (writes writing self.now) limit e.kind) }
    {
        let mut room = Counting::new();
        self.put_element(&mut room)?;
        Ok(room.count())
    }

    /// The length of the content of what `to_der` gives. It takes no memory.
    ///
    /// # Errors
    ///
    /// Those of `to_der` other than `Memory`, and exactly where they come there.
    final fn value_len(&self) -> Result<Length, Error>
        ensures ok { IfOk result (λ len. (len.octets ≡ length (Self.form.content (writes writing self.now).value))
            × IsWritable Self.form (writes writing self.now) limit) }
        ensures err { IfErr result (λ e. IsUnwritable Self.form (writes writing self.now) limit e.kind) }
    {
        let mut room = Counting::new();
        self.put_content(&mut room)?;
        let content = room.count();
        put_header(self.identifier().octet(), content.as_u32(), &mut room)?;
        Ok(content)
    }

    /// Writes the encoding of the value at the end of the buffer `room`, and answers how many bytes of the buffer come
    /// before it; those stay as they were. It takes no memory.
    ///
    /// # Errors
    ///
    /// `Overlength` exactly where the encoding is longer than the buffer or than [`Length::MAX`](crate::Length::MAX),
    /// or the error of a part that can't be encoded. Then the buffer may hold a part of the encoding.
    final fn encode_into(&self, room: &mut [u8]) -> Result<usize, Error>
        ensures ok { OnOk result (IsWritable Self.form (writes writing self.now) (min (length room.old) limit)) }
        ensures bytes { IfOk result (λ before. room.new ≡ take before room.old ++ written_spelling Self.form (writes writing self.now)) }
        ensures before { IfOk result (λ before. before + length (written_spelling Self.form (writes writing self.now)) ≡ length room.old) }
        ensures err { IfErr result (λ e. IsUnwritable Self.form (writes writing self.now) (min (length room.old) limit) e.kind) }
    {
        let mut fixed = Fixed::new(room);
        self.put_element(&mut fixed)?;
        Ok(fixed.start())
    }

    /// Writes the encoding of the value at the end of the buffer `room`, and answers that part of it, as
    /// [`encode_into`]: what comes before it stays as it was. It takes no memory.
    ///
    /// # Errors
    ///
    /// Those of [`encode_into`].
    ///
    /// [`encode_into`]: Encode::encode_into
    final fn encode_to_slice<'a>(&self, room: &'a mut [u8]) -> Result<&'a [u8], Error>
        ensures ok { OnOk result (IsWritable Self.form (writes writing self.now) (min (length room.old) limit)) }
        ensures bytes { IfOk result (λ bytes. bytes.now ≡ written_spelling Self.form (writes writing self.now)) }
        ensures err { IfErr result (λ e. IsUnwritable Self.form (writes writing self.now) (min (length room.old) limit) e.kind) }
        ensures* place { sem 𝓛 (Rests (Array u8 0) room.entry
            (λ last. IfOk result (λ bytes. last ≡ take (length room.old - length bytes.now) room.old ++ bytes.now))) }
    {
        let before = self.encode_into(&mut *room);
        bytes_after(before, share(room))
    }
}

/// [`to_der`](Encode::to_der) into memory of just the length, which is counted first.
///
/// # Errors
///
/// Those of `to_der`.
#[inline(never)]
pub fn to_counted_der<T: Encode>(value: &T, alloc: Global) -> Result<Vec<u8>, Error>
    ensures ok { IfOk result (λ bytes. (bytes.items ≡ written_spelling T.form (writes T.writing value.now))
        × IsWritable T.form (writes T.writing value.now) limit) }
    ensures err { IfErr result (λ e. (e.kind ≡ Memory) ⊎ IsUnwritable T.form (writes T.writing value.now) limit e.kind) }
{
    let len = value.encoded_len()?.as_u32() as usize;
    let mut bytes = Vec::with_capacity(alloc, len)?;
    bytes.resize(len, 0)?;
    value.encode_into(bytes.as_mut_slice())?;
    Ok(bytes)
}

/// Puts an identifier octet and the length of what follows into the room.
///
/// # Errors
///
/// `Overlength` where there is no place in the room; `Memory` when out of memory, only for a room that takes memory.
#[tactic(auto, unfolding(crate::specs::Element::length_octets))]
#[inline(always)]
pub fn put_header<R: Room>(tag: u8, len: u32, room: &mut R) -> Result<(), Error>
    requires { len ≤ limit }
    ensures { Puts R.kind (header tag len) None result room.old room.new }
{
    if len < 128 {
        return room.put(&[tag, len as u8]);
    }
    put_long_header(tag, len, room)
}

/// Puts a header whose length takes more than one octet (X.690 8.1.3.5).
#[tactic(auto, unfolding(crate::specs::Element::length_octets))]
#[inline(never)]
fn put_long_header<R: Room>(tag: u8, len: u32, room: &mut R) -> Result<(), Error>
    requires long { 128 ≤ len }
    requires within { len ≤ limit }
    ensures { Puts R.kind (header tag len) None result room.old room.new }
{
    let [a, b, c, d] = len.to_be_bytes();
    if len < 256 {
        room.put(&[tag, 0x81, d])
    } else if len < 65_536 {
        room.put(&[tag, 0x82, c, d])
    } else if len < 16_777_216 {
        room.put(&[tag, 0x83, b, c, d])
    } else {
        room.put(&[tag, 0x84, a, b, c, d])
    }
}
