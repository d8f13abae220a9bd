//! Types with one identifier.

ghost use Rattle.std.specs.Prelude.{◌≤◌, length};
ghost use Rattle.x509_check.specs.Checking.{checked};
ghost use Rattle.x509_der.specs.Element.{limit};
ghost use Rattle.x509_der.specs.Outcome.{Answers};

use crate::check::Check;
use x509_der::{Content, Error, FixedTag, Newtype, expect_tag};

/// A type of which each value is a content under one identifier (X.690 8.1), and a content is told from other octets
/// without a value and without memory. From it comes [`Check`].
pub trait CheckContent: Content {
    ghost use Rattle.std.specs.Prelude.{length, ◌≤◌};
    ghost use Rattle.x509_check.specs.Checking.{checked, Finds};
    ghost use Rattle.x509_der.specs.Element.{limit};
    ghost use Rattle.x509_der.specs.Outcome.{Answers};

    /// Checks content octets, of which there are at most [`Length::MAX`](x509_der::Length::MAX).
    ///
    /// # Errors
    ///
    /// `Malformed`, or an error of the type's own, exactly where they are the content octets of no value.
    fn check_content(octets: &[u8]) -> Result<(), Error>
        requires { length octets.now ≤ limit }
        ensures { Answers result (checked (Self.contents.reading octets.now)) };

    /// As [`CheckContent::check_content`], which a type writes. This one is for callers: where it passes, their proofs
    /// know a value.
    ///
    /// # Errors
    ///
    /// Those of [`CheckContent::check_content`].
    #[inline(always)]
    final fn pass_content(octets: &[u8]) -> Result<(), Error>
        requires { length octets.now ≤ limit }
        ensures { Finds result (Self.contents.reading octets.now) }
    {
        Self::check_content(octets)
    }
}

impl<T: CheckContent> Check for T {
    #[inline(always)]
    fn check_element(tag: u8, content: &[u8]) -> Result<(), Error> {
        expect_tag(tag, T::IDENTIFIER)?;
        T::check_content(content)
    }
}

/// A type with one identifier of which a value is plain data: it is decoded without an allocator.
pub trait PlainContent: Content {
    ghost use Rattle.x509_der.specs.Outcome.{Answers};

    /// The value of the content octets.
    ///
    /// # Errors
    ///
    /// `Malformed`, or an error of the type's own, exactly where they are the content octets of no value.
    fn plain_value(octets: &[u8]) -> Result<Self, Error>
        ensures { Answers result (Self.contents.reading octets.now) };
}

/// Checks the content octets of a type with one field, as that field is checked.
///
/// # Errors
///
/// Those of the field's type.
#[inline(always)]
pub fn check_inner<T: Newtype>(octets: &[u8]) -> Result<(), Error>
where
    T::Inner: FixedTag + Check,
    requires { length octets.now ≤ limit }
    ensures { Answers result (checked (⟦<T as Content>⟧.contents.reading octets.now)) }
{
    T::Inner::pass_element(T::Inner::TAG.octet(), octets)
}
