//! The grammar of a type.

use crate::Tag;
use crate::decode::Decode;
use crate::encode::Encode;

/// A type of which each value is one element, with its form (the grammar as one record), on which decoding and encoding
/// rest.
pub trait Grammar: Sized {
    ghost use Rattle.std.specs.Prelude.{◌≡◌};
    ghost use Rattle.x509_der.specs.declared.error.ErrorKind.{ErrorKind};
    ghost use Rattle.x509_der.specs.Form.{Form, IsForm, is_in};
    ghost use Rattle.x509_der.specs.Tag.{octet_of};

    ghost form: { Form Self };

    /// The errors of decoding besides `Malformed`.
    ghost refuses: { ErrorKind → Type 0 } = { λ _. ⊥ };

    /// The identifier of the value's element.
    fn identifier(&self) -> Tag
        ensures { octet_of result ≡ form.tag self.now };

    /// Whether the element of a value may begin with the identifier octet.
    fn is_start(octet: u8) -> bool
        ensures { result ≡ is_in octet form.starts };

    /// The identifier that most values have: the one that decoders look for first.
    fn usual() -> Tag {
        Tag::Sequence
    }

    ghost lawful: { IsForm refuses form };
}

/// A value with an identifier.
pub trait Tagged {
    ghost use Rattle.std.specs.Prelude.{◌≡◌, ℕ};
    ghost use Rattle.x509_der.specs.Tag.{octet_of};

    ghost identifier_octet: { Self → ℕ };

    /// The identifier of the value.
    fn tag(&self) -> Tag
        ensures { octet_of result ≡ identifier_octet self.now };
}

impl<T: Grammar> Tagged for T {
    ghost identifier_octet = { T.form.tag };

    fn tag(&self) -> Tag {
        self.identifier()
    }
}

/// A type whose values have one identifier. Each type with [`Content`](crate::Content) is one.
pub trait FixedTag: Decode + Encode {
    ghost use Rattle.std.specs.Prelude.{◌≡◌};
    ghost use Rattle.x509_der.specs.declared.tag.Tag.{Tag};
    ghost use Rattle.x509_der.specs.Form.{HasTag, one_tag};
    ghost use Rattle.x509_der.specs.Tag.{octet_of};

    ghost TAG: { Tag };

    /// The identifier.
    const TAG: Tag;

    ghost fixed: { HasTag (octet_of TAG) Self.form };

    ghost starts_so: { one_tag Self.form ≡ octet_of TAG };
}
