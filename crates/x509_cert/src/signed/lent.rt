//! Elements lent from the front of bytes, whatever stands in them.

ghost use Rattle.std.specs.Prelude.{◌≡◌, ◌<◌, IfErr, option_copied};
ghost use Rattle.x509_cert.specs.ElementParts.{any_element, lent, lent_explicit, lent_inside, lent_optional};
ghost use Rattle.x509_der.specs.Outcome.{GivesBy};
ghost use Rattle.x509_der.specs.declared.error.ErrorKind.TheVariants.{Malformed};
ghost use Rattle.x509_der.specs.Form.{whole_reading};

use x509_der::{Error, ErrorKind, split_element};

/// The content of the one element that the bytes are, which has this identifier octet.
///
/// # Errors
///
/// `Malformed` exactly where the bytes are no such element.
#[tactic(auto, unfolding(x509_der::specs::Form::whole_reading))]
pub fn content_of(tag: u8, bytes: &[u8]) -> Result<&[u8], Error>
    ensures exact { GivesBy (λ x. x.now) result (whole_reading (any_element tag).reading bytes.now) }
    ensures err { IfErr result (λ e. e.kind ≡ Malformed) }
{
    let piece = split_element(bytes)?;
    if !piece.rest.is_empty() || piece.tag != tag {
        return Err(ErrorKind::Malformed.into());
    }
    Ok(piece.content)
}

/// The element at the front, which has this identifier octet, and what follows it.
///
/// # Errors
///
/// `Malformed` exactly where no such element stands there.
#[tactic(auto, unfolding(crate::specs::ElementParts::lent, x509_der::specs::Frames::field_at))]
pub fn take(tag: u8, bytes: &[u8]) -> Result<(&[u8], &[u8]), Error>
    ensures exact { GivesBy (λ x. (x.0.now, x.1.now)) result ((lent tag).reading bytes.now) }
    ensures err { IfErr result (λ e. e.kind ≡ Malformed) }
{
    let piece = split_element(bytes)?;
    if piece.tag != tag {
        return Err(ErrorKind::Malformed.into());
    }
    Ok((&bytes[..bytes.len() - piece.rest.len()], piece.rest))
}

/// Splits off an element that may be absent: it is there where the next identifier octet is that one.
///
/// # Errors
///
/// `Malformed` exactly where it is there and no whole element follows.
#[tactic(auto, unfolding(crate::specs::ElementParts::lent_optional, crate::specs::ElementParts::lent, x509_der::specs::Frames::optional_at))]
pub fn take_optional(tag: u8, bytes: &[u8]) -> Result<(Option<&[u8]>, &[u8]), Error>
    ensures exact { GivesBy (λ x. (option_copied x.0, x.1.now)) result ((lent_optional tag).reading bytes.now) }
    ensures err { IfErr result (λ e. e.kind ≡ Malformed) }
{
    match bytes {
        [octet, ..] if *octet == tag => {
            let (element, rest) = take(tag, bytes)?;
            Ok((Some(element), rest))
        }
        _ => Ok((None, bytes)),
    }
}

/// The element inside an explicit tag (X.690 8.14.2), and what follows that; n is 0 to 30.
///
/// # Errors
///
/// `Malformed` exactly where no such element stands there.
#[tactic(auto, unfolding(crate::specs::ElementParts::lent_inside, x509_der::specs::Frames::field_at))]
fn take_inside(n: u8, tag: u8, bytes: &[u8]) -> Result<(&[u8], &[u8]), Error>
    requires { n < 31 }
    ensures exact { GivesBy (λ x. (x.0.now, x.1.now)) result ((lent_inside n tag).reading bytes.now) }
    ensures err { IfErr result (λ e. e.kind ≡ Malformed) }
{
    let piece = split_element(bytes)?;
    if piece.tag != 0xA0 + n {
        return Err(ErrorKind::Malformed.into());
    }
    content_of(tag, piece.content)?;
    Ok((piece.content, piece.rest))
}

/// Splits off an element under an explicit tag \[n\] that may be absent; n is 0 to 30.
///
/// # Errors
///
/// `Malformed` exactly where the explicit tag is there and no such element stands under it.
#[tactic(auto, unfolding(crate::specs::ElementParts::lent_explicit, crate::specs::ElementParts::lent_inside, x509_der::specs::Frames::optional_at))]
pub fn take_explicit(n: u8, tag: u8, bytes: &[u8]) -> Result<(Option<&[u8]>, &[u8]), Error>
    requires { n < 31 }
    ensures exact { GivesBy (λ x. (option_copied x.0, x.1.now)) result ((lent_explicit n tag).reading bytes.now) }
    ensures err { IfErr result (λ e. e.kind ≡ Malformed) }
{
    match bytes {
        [octet, ..] if *octet == 0xA0 + n => {
            let (element, rest) = take_inside(n, tag, bytes)?;
            Ok((Some(element), rest))
        }
        _ => Ok((None, bytes)),
    }
}
