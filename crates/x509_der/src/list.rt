//! SEQUENCE OF (X.690 8.10).

ghost use Rattle.std.specs.Prelude.{◌≡◌, ◌<◌, ◌≤◌, ◌^◌, ◌↔◌, ◌++◌, [], ◌∷◌, length, IsTrue, IfOk, IfErr, OnOk, OnErr, slice_get};
ghost use Rattle.std.specs.Iterator.Adapters.{IterYieldsInOrder, IterYieldsInReverse};
ghost use Rattle.std.specs.Option.{option_copied};
ghost use Rattle.std.specs.Slice.Iter.{iter_rest};
ghost use Rattle.x509_der.specs.declared.error.ErrorKind.TheVariants.{Memory};
ghost use Rattle.x509_der.specs.Outcome.{GivesBy};
ghost use Rattle.x509_der.specs.Writing.{Puts, writes};
ghost use Rattle.x509_der.specs.List.{list_reading, with_front, members_text, members_refusal};

use crate::frames::reading::read_field;
use crate::{
    Content, Decode, Encode, Error, Room, Tag, TryClone, ValueOrd, cmp_members, split_element,
};
use std::alloc::Global;
use std::cmp::Ordering;
use std::hash::{Hash, Hasher};
use std::marker::Model;
use std::{fmt, slice};

/// SEQUENCE OF: values one after the other, which contracts see as a list (X.690 8.10). It is made from a vector and
/// gives it back without a copy.
#[derive(Drop)]
pub struct SequenceOf<T> {
    items: Vec<T>,
}

impl<T> Model for SequenceOf<T> {
    ghost use Rattle.std.specs.Prelude.{List};

    ghost Value = { List T };

    ghost view = { λ sequence. sequence.items.items };
}

impl<T> SequenceOf<T> {
    /// No values. It takes no memory.
    pub fn new(alloc: Global) -> SequenceOf<T>
        ensures { result ≡ [] }
    {
        SequenceOf {
            items: Vec::new(alloc),
        }
    }

    /// The values.
    pub fn as_slice(&self) -> &[T]
        ensures { result.now ≡ self.now }
    {
        self.items.as_slice()
    }

    /// The values, in their order.
    pub fn iter(&self) -> slice::Iter<'_, T>
        ensures rest { iter_rest result ≡ self.now }
        ensures bound { length (iter_rest result) < 2 ^ 64 }
        ensures runs { IterYieldsInOrder T }
        ensures runs_back { IterYieldsInReverse T }
    {
        self.as_slice().iter()
    }

    /// The value at that index, from 0 on.
    pub fn get(&self, index: usize) -> Option<&T>
        ensures { option_copied result ≡ slice_get self.now index }
    {
        self.as_slice().get(index)
    }

    /// How many values there are.
    pub fn len(&self) -> usize
        ensures { result ≡ length self.now }
    {
        self.items.len()
    }

    /// Whether there are none.
    pub fn is_empty(&self) -> bool
        ensures { IsTrue result ↔ (self.now ≡ []) }
    {
        self.items.is_empty()
    }

    /// Adds the value behind the others.
    ///
    /// # Errors
    ///
    /// `Memory` when out of memory, and nothing else; then the values are unchanged, and the item is dropped.
    pub fn push(&mut self, item: T) -> Result<(), Error>
    where
        T: Drop,
        ensures ok { OnOk result (self.new ≡ self.old ++ item ∷ []) }
        ensures err { IfErr result (λ e. e.kind ≡ Memory) }
        ensures unchanged { OnErr result (self.new ≡ self.old) }
    {
        self.items.push(item)?;
        Ok(())
    }

    /// The vector of the values, without a copy.
    pub fn into_vec(self) -> Vec<T>
        ensures { result.items ≡ self }
    {
        let SequenceOf { items } = self;
        items
    }
}

impl<T> From<Vec<T>> for SequenceOf<T> {
    ghost from_gives = { λ items sequence. sequence ≡ items.items };

    fn from(items: Vec<T>) -> SequenceOf<T> {
        SequenceOf { items }
    }
}

impl<T> From<SequenceOf<T>> for Vec<T> {
    ghost from_gives = { λ sequence items. items.items ≡ sequence };

    fn from(sequence: SequenceOf<T>) -> Vec<T> {
        sequence.into_vec()
    }
}

impl<T: TryClone + Drop> TryClone for SequenceOf<T> {
    fn try_clone(&self, alloc: Global) -> Result<SequenceOf<T>, Error> {
        Ok(SequenceOf {
            items: clone_members(alloc, self.as_slice())?,
        })
    }
}

impl<T: PartialEq> PartialEq for SequenceOf<T> {
    ghost use Rattle.std.specs.Cmp.Lexicographic.{pointwise, lists_per};

    ghost eq = { pointwise T.eq };

    ghost laws = { lists_per T.laws };

    fn eq(&self, other: &SequenceOf<T>) -> bool {
        self.as_slice() == other.as_slice()
    }
}

impl<T: Eq> Eq for SequenceOf<T> {
    ghost use Rattle.std.specs.Cmp.Lexicographic.{lists_equiv};

    ghost laws = { lists_equiv T.Eq.laws };
}

impl<T: Hash> Hash for SequenceOf<T> {
    ghost use Rattle.std.specs.Hash as fed;
    ghost use Rattle.std.specs.Hash.{items_Alike};

    ghost hash_input = { fed.slice T.hash_input };

    ghost respects_eq = { (items_Alike (record { fed = T.respects_eq })).fed };

    fn hash<H: Hasher>(&self, state: &mut H) {
        self.as_slice().hash(state);
    }
}

impl<T: fmt::Debug> fmt::Debug for SequenceOf<T> {
    fn fmt<W: fmt::Write>(&self, f: &mut fmt::Formatter<W>) -> fmt::Result {
        fmt::Debug::fmt(&self.as_slice(), f)
    }
}

/// Copies of the members, in their order.
///
/// # Errors
///
/// `Memory` when out of memory, and nothing else.
pub fn clone_members<T: TryClone + Drop>(alloc: Global, members: &[T]) -> Result<Vec<T>, Error>
    ensures ok { IfOk result (λ copies. copies.items ≡ members.now) }
    ensures err { IfErr result (λ e. e.kind ≡ Memory) }
{
    let mut copies = Vec::with_capacity(alloc, members.len())?;
    for member in members {
        copies.push(member.try_clone(alloc)?)?;
    }
    Ok(copies)
}

/// For how many members a list takes memory at once. For more it grows, so that bytes that seem to have many members,
/// and turn out to have none, cost little.
const FORESEEN: usize = 1024;

/// For how many members at the front of the bytes a list takes memory, up to [`FORESEEN`]: the identifiers of elements
/// with short lengths aren't checked.
fn count_elements(bytes: &[u8]) -> usize
    ensures { result ≤ 1024 }
{
    let mut rest = bytes;
    for count in 0..FORESEEN {
        match rest {
            [_, len, after @ ..] if *len < 128 && *len as usize <= after.len() => {
                rest = &after[*len as usize..];
            }
            _ => match split_element(rest) {
                Ok(piece) => rest = piece.rest,
                Err(_) => return count,
            },
        }
    }
    FORESEEN
}

/// The values of the elements that the bytes are, one after the other.
///
/// # Errors
///
/// `Malformed`, or an error of the type's own, exactly where the bytes are no such elements. `Memory` when out of
/// memory.
#[inline(always)]
pub fn read_members<T: Decode + Drop>(alloc: Global, bytes: &[u8]) -> Result<Vec<T>, Error>
    ensures exact { GivesBy (λ v. v.items) result (list_reading T.form.reading bytes.now) }
{
    let items = Vec::with_capacity(alloc, count_elements(bytes))?;
    read_behind(alloc, items, bytes)
}

/// The first value, and behind it those that [`read_members`] answers.
///
/// # Errors
///
/// Those of [`read_members`].
#[inline(never)]
pub fn read_further<T: Decode + Drop>(
    alloc: Global,
    first: T,
    bytes: &[u8],
) -> Result<Vec<T>, Error>
    ensures exact { GivesBy (λ v. v.items) result (with_front (first ∷ []) (list_reading T.form.reading bytes.now)) }
{
    let mut items = Vec::with_capacity(alloc, 1 + count_elements(bytes))?;
    items.push(first)?;
    read_behind(alloc, items, bytes)
}

/// The items, and behind them the values that [`read_members`] answers.
#[inline(always)]
fn read_behind<T: Decode + Drop>(
    alloc: Global,
    mut items: Vec<T>,
    bytes: &[u8],
) -> Result<Vec<T>, Error>
    ensures exact { GivesBy (λ v. v.items) result (with_front items.items (list_reading T.form.reading bytes.now)) }
{
    let mut rest = bytes;
    while !rest.is_empty() {
        let item = read_field::<T>(alloc, &mut rest)?;
        items.push(item)?;
    }
    Ok(items)
}

/// Puts the elements of the values in front of the bytes that stand in the room, the last first.
///
/// # Errors
///
/// The error of a value that can't be encoded; `Overlength` where there is no place in the room for all; `Memory` when
/// out of memory, only for a room that takes memory.
pub fn put_members<T: Encode, R: Room>(items: &[T], room: &mut R) -> Result<(), Error>
    ensures { Puts R.kind (members_text T.form (writes T.writing) items.now) (members_refusal (writes T.writing) items.now) result room.old room.new }
{
    let mut i = items.len();
    while i > 0 {
        i -= 1;
        let item = &items[i];
        item.put_element(room)?;
    }
    Ok(())
}

impl<T: Decode + Encode + Drop> Content for SequenceOf<T> {
    ghost use Rattle.x509_der.specs.declared.tag.Tag.TheVariants.{Sequence};
    ghost use Rattle.x509_der.specs.List.{list_of, members_writing};
    ghost use Rattle.x509_der.specs.ListLaws.{list_lawful};

    ghost contents = { list_of T.form };

    ghost refusals = { T.refuses };

    ghost written_as = { members_writing T.writing };

    ghost IDENTIFIER = { Sequence };

    const IDENTIFIER: Tag = Tag::Sequence;

    fn read_content(alloc: Global, octets: &[u8]) -> Result<SequenceOf<T>, Error> {
        Ok(SequenceOf {
            items: read_members::<T>(alloc, octets)?,
        })
    }

    #[tactic(auto, using(crate::specs::ListWriting::puts_list))]
    fn write_content<R: Room>(&self, room: &mut R) -> Result<(), Error> {
        put_members(self.as_slice(), room)
    }

    ghost contents_lawful = { list_lawful T.form T.lawful };
}

impl<T: Decode + ValueOrd + Drop> ValueOrd for SequenceOf<T> {
    ghost use Rattle.x509_der.specs.ListOrder.{list_ordered};
    ghost use Rattle.x509_der.specs.Writing.{writes};
    ghost use Rattle.x509_der.specs.Order.{der_order};
    ghost use Rattle.x509_der.specs.Ordered.{by_members};

    ghost order = { by_members (der_order T.form (writes T.writing) T.order) };

    fn value_cmp(&self, other: &SequenceOf<T>) -> Ordering {
        cmp_members(self.as_slice(), other.as_slice())
    }

    ghost ordered = { list_ordered T.form T.writing T.order T.ordered };
}
