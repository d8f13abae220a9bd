//! The members of a list of extensions from which one is left out.

ghost use Rattle.std.specs.Prelude.{◌≡◌, ◌≤◌, ◌++◌, length, true, false};
ghost use Rattle.x509_check.specs.ExtensionRefs.{extensions_left};
ghost use Rattle.x509_der.specs.Form.{spelling};
ghost use Rattle.x509_der.specs.List.{joined};
ghost use Rattle.x509_ext.specs.Extension.{extension};
ghost use Rattle.x509_log.specs.Logged.{member_octets};

use crate::around::Around;
use crate::put::{Changed, InElement, Octets, put_in_element};
use x509_der::{Error, PutPart, Room};

/// An authority key identifier (RFC 5280 4.2.1.1).
#[derive(Clone, Copy, Debug)]
pub(crate) struct KeyIdentifier<'a> {
    /// Whether it is critical.
    pub(crate) critical: bool,

    /// The encoding of its value.
    pub(crate) value: &'a [u8],
}

/// The members of a list at two places of which nothing is left, or an authority key identifier with another value; the others are as they stand in the list.
#[derive(Clone, Copy, Debug)]
pub(crate) struct Members<'a> {
    /// Those before the first place.
    pub(crate) before: &'a [u8],

    /// What stands at the first place.
    pub(crate) first: Option<KeyIdentifier<'a>>,

    /// Those between the two places.
    pub(crate) between: &'a [u8],

    /// What stands at the second place.
    pub(crate) second: Option<KeyIdentifier<'a>>,

    /// Those behind the second place.
    pub(crate) behind: &'a [u8],
}

impl<'a> Members<'a> {
    /// The members around one that is left out.
    pub(crate) fn around(left_out: &Around<'a>) -> Members<'a>
        ensures { member_octets result ≡ left_out.now.before.now ++ joined (spelling extension) (extensions_left left_out.now.behind) }
    {
        Members {
            before: left_out.before,
            first: None,
            between: &[],
            second: None,
            behind: left_out.behind.as_bytes(),
        }
    }

    /// Whether there are none.
    fn is_empty(&self) -> bool
        ensures none { result ≡ true → length (member_octets self.now) ≡ 0 }
        ensures some { result ≡ false → 1 ≤ length (member_octets self.now) }
    {
        if self.first.is_some() {
            return false;
        }
        if self.second.is_some() {
            return false;
        }
        if !self.before.is_empty() {
            return false;
        }
        if !self.between.is_empty() {
            return false;
        }
        self.behind.is_empty()
    }
}

/// {3}Extensions?: the list of the members, in its tag; nothing where there are none.
impl PutPart for Members<'_> {
    ghost use Rattle.std.specs.Prelude.{None};
    ghost use Rattle.x509_der.specs.Element.{element};
    ghost use Rattle.x509_der.specs.Frames.{optional_octets};
    ghost use Rattle.x509_log.specs.Logged.{list_of_members, member_octets};

    ghost text = { λ members. optional_octets (element 0xA3) (list_of_members (member_octets members)) };

    ghost refusal = { λ members. None };

    #[tactic(auto, using(x509_der::specs::WritingLaws::puts_nothing, crate::specs::Logged::no_list, crate::specs::Logged::some_list))]
    fn put_part<R: Room>(&self, room: &mut R) -> Result<(), Error> {
        if self.is_empty() {
            return Ok(());
        }
        let behind = (
            Octets(self.between),
            (Changed(self.second), Octets(self.behind)),
        );
        let members = (Octets(self.before), (Changed(self.first), behind));
        put_in_element(&InElement(0x30, members), 0xA3, room)
    }
}
