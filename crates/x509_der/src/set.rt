//! SET OF (X.690 8.12, 11.6).

ghost use Rattle.std.specs.Prelude.{◌≡◌, ◌<◌, ◌^◌, ◌↔◌, ◌⊎◌, [], ◌∷◌, length, IsTrue, Contains, IfOk, IfErr, OnOk, OnErr, IsErrAnd, slice_get};
ghost use Rattle.std.specs.Option.{option_copied};
ghost use Rattle.std.specs.List.Sorted.{IsStrictlySortedBy, IsPermutation};
ghost use Rattle.std.specs.Iterator.Adapters.{IterYieldsInOrder, IterYieldsInReverse};
ghost use Rattle.std.specs.Slice.Iter.{iter_rest};
ghost use Rattle.x509_der.specs.Writing.{writes};
ghost use Rattle.x509_der.specs.declared.error.ErrorKind.TheVariants as errors;
ghost use Rattle.x509_der.specs.Order.{der_order};
ghost use Rattle.x509_der.specs.Set.{AreDistinct};

use crate::set::members::Members;
use crate::set::places::{is_rising, place};
use crate::set::sorting::sort;
use crate::{
    Content, Decode, DerOrd, Error, ErrorKind, Room, SetMember, SetOrd, Spelled, Tag, TryClone,
    ValueOrd, cmp_members, members_have_spellings, put_members,
};
use std::alloc::Global;
use std::cmp::Ordering;
use std::hash::{Hash, Hasher};
use std::marker::Model;
use std::{fmt, slice};

mod members;
mod places;
mod sorting;

/// SET OF: the members, no two of them equal, in the byte order of their encodings (X.690 11.6). Contracts see their
/// list.
#[derive(Drop)]
pub struct SetOfVec<T: SetOrd> {
    members: Members<T>,
}

impl<T: SetOrd> Model for SetOfVec<T> {
    ghost use Rattle.std.specs.Prelude.{List};
    ghost use Rattle.std.specs.List.Sorted.{IsStrictlySortedBy};

    ghost Value = { List T };

    ghost view = { λ set. set.members };

    ghost invariant = { λ set. IsStrictlySortedBy T.set_order set.members };
}

/// Inserts the item in its place among the members. On an error they are unchanged.
fn put<T: DerOrd + Drop>(members: &mut Members<T>, item: T) -> Result<(), Error>
    requires { IsStrictlySortedBy (der_order T.form (writes T.writing) T.order) members.old }
    ensures put { OnOk result (IsPermutation (item ∷ members.old) members.new) }
    ensures sorted { IsStrictlySortedBy (der_order T.form (writes T.writing) T.order) members.new }
    ensures duplicate { Contains members.old item → IsErrAnd result (λ e. e.kind ≡ errors.SetDuplicate) }
    ensures err { IfErr result (λ e. (e.kind ≡ errors.Memory) ⊎ ((e.kind ≡ errors.SetDuplicate) × Contains members.old item)) }
    ensures unchanged { OnErr result (members.new ≡ members.old) }
{
    match place(members.as_slice(), &item) {
        Ok(_) => Err(ErrorKind::SetDuplicate.into()),
        Err(at) => {
            members.insert(at, item)?;
            Ok(())
        }
    }
}

impl<T: SetMember> SetOfVec<T> {
    /// No members. It takes no memory.
    pub fn new(alloc: Global) -> SetOfVec<T>
        ensures { result ≡ [] }
    {
        SetOfVec {
            members: Members::new(alloc),
        }
    }

    /// The set of one member. It takes no memory.
    pub fn from_one(alloc: Global, member: T) -> SetOfVec<T>
        ensures { result ≡ member ∷ [] }
    {
        SetOfVec {
            members: Members::from_one(alloc, member),
        }
    }

    /// The set of the items, in O(n log n) comparisons and without memory.
    ///
    /// # Errors
    ///
    /// `SetDuplicate` exactly where two of the items are equal.
    pub fn try_from_vec(mut items: Vec<T>) -> Result<SetOfVec<T>, Error>
    where
        T: Drop,
        ensures ok { IfOk result (λ set. IsPermutation items.items set × IsStrictlySortedBy (der_order T.form (writes T.writing) T.order) set) }
        ensures distinct { OnOk result (AreDistinct items.items) }
        ensures err { IfErr result (λ e. (e.kind ≡ errors.SetDuplicate) × (¬ AreDistinct items.items)) }
    {
        if !sort(items.as_mut_slice()) {
            return Err(ErrorKind::SetDuplicate.into());
        }
        Ok(SetOfVec {
            members: Members::from_vec(items),
        })
    }

    /// Inserts the item in its place.
    ///
    /// # Errors
    ///
    /// `SetDuplicate` exactly where an equal member is there; else `Memory` when out of memory. On an error the set is
    /// unchanged, and the item is dropped.
    pub fn insert(&mut self, item: T) -> Result<(), Error>
    where
        T: Drop,
        ensures put { OnOk result (IsPermutation (item ∷ self.old) self.new) }
        ensures sorted { IsStrictlySortedBy (der_order T.form (writes T.writing) T.order) self.new }
        ensures duplicate { Contains self.old item → IsErrAnd result (λ e. e.kind ≡ errors.SetDuplicate) }
        ensures err { IfErr result (λ e. (e.kind ≡ errors.Memory) ⊎ ((e.kind ≡ errors.SetDuplicate) × Contains self.old item)) }
        ensures unchanged { OnErr result (self.new ≡ self.old) }
    {
        put(&mut self.members, item)
    }

    /// The members, in their order.
    pub fn as_slice(&self) -> &[T]
        ensures members { result.now ≡ self.now }
        ensures sorted { IsStrictlySortedBy (der_order T.form (writes T.writing) T.order) self.now }
    {
        self.members.as_slice()
    }

    /// The members, in their order.
    pub fn iter(&self) -> slice::Iter<'_, T>
        ensures rest { iter_rest result ≡ self.now }
        ensures bound { length (iter_rest result) < 2 ^ 64 }
        ensures runs { IterYieldsInOrder T }
        ensures runs_back { IterYieldsInReverse T }
    {
        self.as_slice().iter()
    }

    /// The member at that index, from 0 on.
    pub fn get(&self, index: usize) -> Option<&T>
        ensures { option_copied result ≡ slice_get self.now index }
    {
        self.as_slice().get(index)
    }

    /// How many members there are.
    pub fn len(&self) -> usize
        ensures { result ≡ length self.now }
    {
        self.as_slice().len()
    }

    /// Whether there are none.
    pub fn is_empty(&self) -> bool
        ensures { IsTrue result ↔ (self.now ≡ []) }
    {
        self.as_slice().is_empty()
    }

    /// The vector of the members, in their order. One alone is moved into a vector, which takes memory.
    ///
    /// # Errors
    ///
    /// `Memory` when out of memory, only for one member.
    pub fn into_vec(self) -> Result<Vec<T>, Error>
    where
        T: Drop,
        ensures members { IfOk result (λ members. members.items ≡ self) }
        ensures err { IfErr result (λ e. (e.kind ≡ errors.Memory) × (length self ≡ 1)) }
        ensures sorted { IsStrictlySortedBy (der_order T.form (writes T.writing) T.order) self }
    {
        let SetOfVec { members } = self;
        members.into_vec()
    }
}

impl<T: Decode + SetMember + Drop> Content for SetOfVec<T> {
    ghost use Rattle.x509_der.specs.declared.tag.Tag.TheVariants.{Set};
    ghost use Rattle.x509_der.specs.List.{members_writing};
    ghost use Rattle.x509_der.specs.Writing.{writes};
    ghost use Rattle.x509_der.specs.Order.{der_order};
    ghost use Rattle.x509_der.specs.Set.{set_of};
    ghost use Rattle.x509_der.specs.SetLaws.{set_lawful};

    ghost contents = { set_of T.form (der_order T.form (writes T.writing) T.order) };

    ghost refusals = { T.refuses };

    ghost written_as = { members_writing T.writing };

    ghost IDENTIFIER = { Set };

    const IDENTIFIER: Tag = Tag::Set;

    #[tactic(auto, unfolding(crate::specs::Set::set_reading))]
    #[inline(always)]
    fn read_content(alloc: Global, octets: &[u8]) -> Result<SetOfVec<T>, Error> {
        let members = Members::<T>::read(alloc, octets)?;
        if !is_rising(members.as_slice()) {
            return Err(ErrorKind::Malformed.into());
        }
        Ok(SetOfVec { members })
    }

    #[tactic(auto, using(crate::specs::ListWriting::puts_list))]
    fn write_content<R: Room>(&self, room: &mut R) -> Result<(), Error> {
        put_members(self.as_slice(), room)
    }

    ghost contents_lawful = { set_lawful T.form (der_order T.form (writes T.writing) T.order) T.lawful };
}

#[tactic(auto, unfolding(crate::specs::Set::set_good))]
impl<T: Decode + SetMember + Spelled + Drop> Spelled for SetOfVec<T> {
    ghost use Rattle.std.specs.List.{All};

    ghost premise = { All T.premise };

    fn has_spelling(&self) {
        members_have_spellings(self.as_slice());
    }
}

impl<T: Decode + SetMember + Drop> ValueOrd for SetOfVec<T> {
    ghost use Rattle.x509_der.specs.Writing.{writes};
    ghost use Rattle.x509_der.specs.Order.{der_order};
    ghost use Rattle.x509_der.specs.Ordered.{by_members};
    ghost use Rattle.x509_der.specs.SetLaws.{set_ordered};

    ghost order = { by_members (der_order T.form (writes T.writing) T.order) };

    fn value_cmp(&self, other: &SetOfVec<T>) -> Ordering {
        cmp_members(self.as_slice(), other.as_slice())
    }

    ghost ordered = { set_ordered T.form T.writing T.order T.ordered };
}

impl<T: SetMember + TryClone + Drop> TryClone for SetOfVec<T> {
    fn try_clone(&self, alloc: Global) -> Result<SetOfVec<T>, Error> {
        Ok(SetOfVec {
            members: self.members.copy(alloc)?,
        })
    }
}

impl<T: SetMember + PartialEq> PartialEq for SetOfVec<T> {
    ghost use Rattle.std.specs.Cmp.Lexicographic.{pointwise, lists_per};

    ghost eq = { pointwise T.eq };

    ghost laws = { lists_per T.PartialEq.laws };

    fn eq(&self, other: &SetOfVec<T>) -> bool {
        self.as_slice() == other.as_slice()
    }
}

impl<T: SetMember + Eq> Eq for SetOfVec<T> {
    ghost use Rattle.std.specs.Cmp.Lexicographic.{lists_equiv};

    ghost laws = { lists_equiv T.Eq.laws };
}

impl<T: SetMember + Hash> Hash for SetOfVec<T> {
    ghost use Rattle.std.specs.Hash as fed;
    ghost use Rattle.std.specs.Hash.{items_Alike};

    ghost hash_input = { fed.slice T.hash_input };

    ghost respects_eq = { (items_Alike (record { fed = T.respects_eq })).fed };

    fn hash<H: Hasher>(&self, state: &mut H) {
        self.as_slice().hash(state);
    }
}

impl<T: SetMember + fmt::Debug> fmt::Debug for SetOfVec<T> {
    fn fmt<W: fmt::Write>(&self, f: &mut fmt::Formatter<W>) -> fmt::Result {
        fmt::Debug::fmt(&self.as_slice(), f)
    }
}
