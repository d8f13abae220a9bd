//! User notices.

use crate::pkix::display_text::DisplayText;
use std::alloc::Global;
use x509_der::{
    Content, Error, PutPart, Room, SequenceOf, Spelled, Tag, TryClone, end, option_has_spelling,
    optional, read_field, read_optional,
};
use x509_prim::Uint;

/// A notice to whoever relies on the certificate (RFC 5280 4.2.1.4).
///
/// ```text
/// UserNotice ::= SEQUENCE {
///     noticeRef     NoticeReference OPTIONAL,
///     explicitText  DisplayText OPTIONAL }
/// ```
#[derive(Debug, PartialEq, Eq)]
pub struct UserNotice {
    /// A reference to the notice's text.
    pub notice_ref: Option<NoticeReference>,

    /// The notice's text.
    pub explicit_text: Option<DisplayText>,
}

impl Drop for UserNotice {
    fn drop(self) {
        let UserNotice {
            notice_ref: _,
            explicit_text: _,
        } = self;
    }
}

impl TryClone for UserNotice {
    fn try_clone(&self, alloc: Global) -> Result<UserNotice, Error> {
        Ok(UserNotice {
            notice_ref: self.notice_ref.try_clone(alloc)?,
            explicit_text: self.explicit_text.try_clone(alloc)?,
        })
    }
}

#[tactic(auto, unfolding(crate::specs::UserNotice::user_notice_fields, x509_der::specs::Frames::fields_reading, x509_der::specs::Frames::fields_octets))]
impl Content for UserNotice {
    ghost use Rattle.x509_der.specs.declared.tag.Tag.TheVariants.{Sequence};
    ghost use Rattle.x509_ext.specs.UserNotice as grammar;

    ghost contents = { grammar.user_notice_contents };

    ghost IDENTIFIER = { Sequence };

    const IDENTIFIER: Tag = Tag::Sequence;

    fn read_content(alloc: Global, octets: &[u8]) -> Result<UserNotice, Error> {
        let mut rest = octets;
        let notice_ref = read_optional::<NoticeReference>(alloc, &mut rest)?;
        let explicit_text = read_optional::<DisplayText>(alloc, &mut rest)?;
        end(rest)?;
        Ok(UserNotice {
            notice_ref,
            explicit_text,
        })
    }

    fn write_content<R: Room>(&self, room: &mut R) -> Result<(), Error> {
        let parts = (optional(&self.notice_ref), optional(&self.explicit_text));
        parts.put_part(room)
    }

    ghost contents_lawful = { grammar.user_notice_contents_lawful };
}

#[tactic(auto, unfolding(crate::specs::UserNotice::user_notice_fields, x509_der::specs::Frames::fields_good))]
impl Spelled for UserNotice {
    fn has_spelling(&self) {
        option_has_spelling(&self.notice_ref);
        option_has_spelling(&self.explicit_text);
    }
}

/// A reference to notices by their numbers (RFC 5280 4.2.1.4). The numbers may be absent.
///
/// ```text
/// NoticeReference ::= SEQUENCE {
///     organization   DisplayText,
///     noticeNumbers  SEQUENCE OF INTEGER (0..MAX) OPTIONAL }
/// ```
#[derive(Debug, PartialEq, Eq)]
pub struct NoticeReference {
    /// The organization that wrote the notices.
    pub organization: DisplayText,

    /// The numbers of the notices.
    pub notice_numbers: Option<SequenceOf<Uint>>,
}

impl Drop for NoticeReference {
    fn drop(self) {
        let NoticeReference {
            organization: _,
            notice_numbers: _,
        } = self;
    }
}

impl TryClone for NoticeReference {
    fn try_clone(&self, alloc: Global) -> Result<NoticeReference, Error> {
        Ok(NoticeReference {
            organization: self.organization.try_clone(alloc)?,
            notice_numbers: self.notice_numbers.try_clone(alloc)?,
        })
    }
}

#[tactic(auto, unfolding(crate::specs::NoticeReference::notice_reference_fields, x509_der::specs::Frames::fields_reading, x509_der::specs::Frames::fields_octets))]
impl Content for NoticeReference {
    ghost use Rattle.x509_der.specs.declared.tag.Tag.TheVariants.{Sequence};
    ghost use Rattle.x509_ext.specs.NoticeReference as grammar;

    ghost contents = { grammar.notice_reference_contents };

    ghost IDENTIFIER = { Sequence };

    const IDENTIFIER: Tag = Tag::Sequence;

    fn read_content(alloc: Global, octets: &[u8]) -> Result<NoticeReference, Error> {
        let mut rest = octets;
        let organization = read_field::<DisplayText>(alloc, &mut rest)?;
        let notice_numbers = read_optional::<SequenceOf<Uint>>(alloc, &mut rest)?;
        end(rest)?;
        Ok(NoticeReference {
            organization,
            notice_numbers,
        })
    }

    fn write_content<R: Room>(&self, room: &mut R) -> Result<(), Error> {
        let parts = (&self.organization, optional(&self.notice_numbers));
        parts.put_part(room)
    }

    ghost contents_lawful = { grammar.notice_reference_contents_lawful };
}

#[tactic(auto, unfolding(crate::specs::NoticeReference::notice_reference_fields, x509_der::specs::Frames::fields_good))]
impl Spelled for NoticeReference {
    fn has_spelling(&self) {
        self.organization.has_spelling();
        option_has_spelling(&self.notice_numbers);
    }
}
