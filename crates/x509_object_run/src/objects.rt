//! The objects that bytes stand for, which are lent from them.

ghost use Rattle.std.specs.Option.{option_map};
ghost use Rattle.std.specs.Prelude.{◌≡◌, ◌≢◌, ◌∷◌, ◌<◌, ℕ, List, MatchOption, IfNone, OnSome, [], length};
ghost use Rattle.x509_der.specs.Any.{any};
ghost use Rattle.x509_der.specs.Form.{spelling};
ghost use Rattle.x509_der.specs.List.{joined};
ghost use Rattle.x509_der.specs.declared.any.Any.{Any};
ghost use Rattle.x509_object_run.specs.Objects.{AreLeft, IsNext, IsTaken, octets_left};
ghost use Rattle.x509_object_run.specs.SignedData.{objects_of};

use crate::signed_data::elements_of;
use x509_der::split_element;

/// The objects that are left.
#[derive(Drop)]
pub(crate) struct Objects<'a> {
    /// Bytes that stand for themselves.
    whole: Option<&'a [u8]>,

    /// Certificates, one after the other.
    certificates: &'a [u8],

    /// The CRLs behind them.
    crls: &'a [u8],
}

/// Takes the element at the front of `rest`.
fn take_element<'a>(rest: &mut &'a [u8]) -> Option<&'a [u8]>
    ensures taken { (elements : List Any) → rest.old.now ≡ joined (spelling any) elements
        → IsTaken elements (option_map (λ element. element.now) result) rest.new.now }
    ensures less { OnSome result (length rest.new.now < length rest.old.now) }
    ensures same { IfNone result (rest.new.now ≡ rest.old.now) }
{
    let octets = *rest;
    let Ok(piece) = split_element(octets) else {
        return None;
    };
    let (element, behind) = octets.split_at(octets.len().saturating_sub(piece.rest.len()));
    *rest = behind;
    Some(element)
}

impl<'a> Objects<'a> {
    /// Bytes alone, which stand for themselves.
    fn alone(bytes: &'a [u8]) -> Objects<'a>
        ensures { AreLeft result (bytes.now ∷ []) }
    {
        Objects {
            whole: Some(bytes),
            certificates: &[],
            crls: &[],
        }
    }

    /// Those that bytes stand for.
    pub(crate) fn of(bytes: &'a [u8]) -> Objects<'a>
        ensures { AreLeft result (objects_of bytes.now) }
    {
        let Some(found) = elements_of(bytes) else {
            return Objects::alone(bytes);
        };
        if found.are_none() {
            return Objects::alone(bytes);
        }
        Objects {
            whole: None,
            certificates: found.certificates,
            crls: found.crls,
        }
    }

    /// Takes the next one.
    pub(crate) fn next(&mut self) -> Option<&'a [u8]>
        ensures taken { (objects : List (List ℕ)) → AreLeft self.old objects → IsNext objects (option_map (λ object. object.now) result) self.new }
        ensures less { OnSome result (octets_left self.new < octets_left self.old) }
    {
        if let Some(bytes) = self.whole.take() {
            return Some(bytes);
        }
        match take_element(&mut self.certificates) {
            Some(certificate) => Some(certificate),
            None => take_element(&mut self.crls),
        }
    }
}

/// The object that bytes stand for, where it is one and no other.
pub(crate) fn only_of(bytes: &[u8]) -> Option<&[u8]>
    ensures { MatchOption result (length (objects_of bytes.now) ≢ 1) (λ object. objects_of bytes.now ≡ object.now ∷ []) }
{
    let mut objects = Objects::of(bytes);
    let only = objects.next();
    match objects.next() {
        Some(_) => None,
        None => only,
    }
}
