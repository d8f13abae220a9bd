//! A walk over the members of a list (X.690 8.10, 8.12), one a call. The place of the walk is 0 to begin; behind a member it is the place
//! behind its element.

ghost use Rattle.std.specs.Prelude.{◌≡◌, ◌≤◌, List, ℕ, length, IfOk, IfErr, OnErr, MatchOption};
ghost use Rattle.x509_c_calls.specs.Cursor.{IsLeft, IsNowhere, IsNext, IsEnd, Stops};
ghost use Rattle.x509_der.specs.Tag.{octet_of};

use crate::Span;
use std::alloc::Global;
use x509_der::{Decode, ErrorKind, Length, Tag, read_field, split_element};

/// What is left of the content of the list from the place on.
pub(crate) fn left(list: Tag, input: &[u8], at: usize) -> Result<&[u8], ErrorKind>
    ensures ok { IfOk result (λ left. IsLeft (octet_of list) input.now at left.now) }
    ensures err { IfErr result (λ e. IsNowhere (octet_of list) input.now at e) }
{
    if input.len() > Length::MAX.as_u32() as usize {
        return Err(ErrorKind::Overlength);
    }
    let Ok(whole) = split_element(input) else {
        return Err(ErrorKind::Malformed);
    };
    if whole.tag != list.octet() || !whole.rest.is_empty() {
        return Err(ErrorKind::Malformed);
    }
    if at == 0 {
        return Ok(whole.content);
    }
    let begin = input.len() - whole.content.len();
    if at < begin || at > input.len() {
        return Err(ErrorKind::Malformed);
    }
    Ok(whole.content.split_at(at - begin).1)
}

/// The next member of the list that the bytes are, with the place of its element, and the place moves behind it; `None`
/// at the end of the list. On an error the place is unchanged.
///
/// # Errors
///
/// `Overlength` exactly where the bytes are too many. `Malformed` where they aren't one element with that tag, where
/// the place isn't 0 and not in its content, or, as the type's own errors, where no value of the type stands there.
/// `Memory` when out of memory, only where decoding the type may take memory.
pub fn next<T: Decode>(
    alloc: Global,
    list: Tag,
    input: &[u8],
    at: &mut usize,
) -> Result<Option<(T, Span)>, ErrorKind>
    ensures found { IfOk result (λ next. MatchOption next (IsEnd (octet_of list) input.now at.old at.new) (λ member. (more : List ℕ)
        × IsNext T.form (octet_of list) input.now at.old at.new member.0 more member.1)) }
    ensures refused { IfErr result (λ e. Stops T.form T.refuses T.wants_memory (octet_of list) input.now at.old e) }
    ensures unchanged { OnErr result (at.new ≡ at.old) }
{
    let mut rest = left(list, input, *at)?;
    if rest.is_empty() {
        return Ok(None);
    }
    let place = input.len() - rest.len();
    let value = match read_field::<T>(alloc, &mut rest) {
        Ok(value) => value,
        Err(e) => return Err(e.kind()),
    };
    let end = input.len() - rest.len();
    *at = end;
    Ok(Some((
        value,
        Span {
            place,
            len: end - place,
        },
    )))
}
