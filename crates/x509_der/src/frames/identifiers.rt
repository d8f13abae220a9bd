//! Tags of the context-specific class.

ghost use Rattle.std.specs.Prelude.{◌≡◌, ◌<◌, ◌+◌};
ghost use Rattle.x509_der.specs.Form.{one_tag};
ghost use Rattle.x509_der.specs.Tag.{constructed_bit, octet_of};
ghost use Rattle.x509_der.specs.Frames.{implicit_tag};

use crate::{FixedTag, Tag, TagNumber};

/// The tag under [n], which is implicit, of a type with a tag of its own (X.690 8.14.3); n is 0 to 30.
pub fn implicit_identifier<T: FixedTag>(n: u8) -> Tag
    requires { n < 31 }
    ensures { octet_of result ≡ implicit_tag n (one_tag T.form) }
{
    context(T::TAG.octet() % 64 >= 32, n)
}

/// The explicit tag {n} of an element around another (X.690 8.14.2); n is 0 to 30.
pub fn explicit_identifier(n: u8) -> Tag
    requires { n < 31 }
    ensures { octet_of result ≡ 160 + n }
{
    context(true, n)
}

/// The tag with this number in the class.
fn context(constructed: bool, n: u8) -> Tag
    requires { n < 31 }
    ensures { octet_of result ≡ 128 + constructed_bit constructed + n }
{
    match TagNumber::new(n) {
        Ok(number) => Tag::ContextSpecific {
            constructed,
            number,
        },
        Err(_) => unreachable!(),
    }
}
