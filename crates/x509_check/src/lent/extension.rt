//! An extension, lent from its bytes.

ghost use Rattle.std.specs.Prelude.{◌≡◌, true, bytes_eq, IsOk, Ok};
ghost use Rattle.x509_check.specs.ExtensionRefs.{lent_extension};
ghost use Rattle.x509_check.specs.Lending.{LendsBy};
ghost use Rattle.x509_der.specs.Frames.{required};
ghost use Rattle.x509_ext.specs.Extension.{extension, extension_contents};
ghost use Rattle.x509_ext.specs.declared.extension.Extension.{Extension};

use crate::element::next_element;
use crate::lent::fields::{take_defaulted, take_octets, take_plain};
use x509_der::{Error, ErrorKind, ObjectIdentifier, Tag, end};

/// An extension (RFC 5280 4.1, 4.2), lent from its encoding. It is what [`Extension`](x509_ext::Extension) is, without a copy
/// of the value's encoding.
#[derive(Clone, Copy, Debug, PartialEq, Eq)]
pub struct ExtensionRef<'a> {
    /// The OID of the extension.
    pub extn_id: ObjectIdentifier,

    /// Whether an implementation that doesn't know the extension, or can't process its value, has to refuse the
    /// certificate or CRL (RFC 5280 4.2).
    pub critical: bool,

    /// The encoding of the extension's value. It isn't decoded here.
    pub extn_value: &'a [u8],
}

/// The extension of which these are the content octets.
#[tactic(auto, unfolding(x509_ext::specs::Extension::extension_fields, x509_der::specs::Frames::fields_reading))]
#[inline(always)]
fn read_content(octets: &[u8]) -> Result<ExtensionRef<'_>, Error>
    ensures { LendsBy lent_extension result (extension_contents.reading octets.now) }
{
    let mut rest = octets;
    let extn_id = take_plain::<ObjectIdentifier>(&mut rest)?;
    let critical = take_defaulted::<bool>(&mut rest)?;
    let extn_value = take_octets(&mut rest)?;
    end(rest)?;
    Ok(ExtensionRef {
        extn_id,
        critical,
        extn_value,
    })
}

/// Whether two OIDs or serial numbers may be the same: they have as many content octets, and the same last one.
#[inline(always)]
fn is_like(one: &[u8], other: &[u8]) -> bool
    ensures { one.now ≡ other.now → result ≡ true }
{
    match (one, other) {
        ([.., last], [.., other_last]) => one.len() == other.len() && last == other_last,
        _ => one.len() == other.len(),
    }
}

/// Whether two OIDs or serial numbers have the same content octets. OIDs of extensions begin alike, as serial numbers of one issuer often do, so the last
/// octets are compared first.
#[inline(always)]
pub(crate) fn is_same(one: &[u8], other: &[u8]) -> bool
    ensures { result ≡ bytes_eq one.now other.now }
{
    if !is_like(one, other) {
        return false;
    }
    one == other
}

/// Whether the extension with these content octets, as is known, has the OID, which stands in front.
#[inline(always)]
pub(crate) fn has_oid(octets: &[u8], oid: &[u8]) -> bool
    ensures { (e : Extension) → extension_contents.reading octets.now ≡ Ok e → result ≡ bytes_eq e.extn_id oid.now }
{
    match next_element(octets, Tag::ObjectIdentifier) {
        Ok(piece) => is_same(piece.content, oid),
        Err(_) => false,
    }
}

/// The extension with these content octets, as is known.
#[inline(always)]
pub(crate) fn known_extension(octets: &[u8]) -> ExtensionRef<'_>
    requires { IsOk (extension_contents.reading octets.now) }
    ensures { (e : Extension) → extension_contents.reading octets.now ≡ Ok e → lent_extension result ≡ e }
{
    let Ok(extension) = read_content(octets) else {
        unreachable!()
    };
    extension
}

/// The extension at the front, and what follows it.
///
/// # Errors
///
/// `Malformed` exactly where no extension stands there.
#[tactic(auto, unfolding(x509_der::specs::Frames::field_at))]
#[inline(always)]
pub(crate) fn split_extension(bytes: &[u8]) -> Result<(ExtensionRef<'_>, &[u8]), Error>
    ensures { LendsBy (λ x. (lent_extension x.0, x.1.now)) result ((required extension).reading bytes.now) }
{
    let piece = next_element(bytes, Tag::Sequence)?;
    if piece.tag != Tag::Sequence.octet() {
        return Err(ErrorKind::Malformed.into());
    }
    match read_content(piece.content) {
        Ok(extension) => Ok((extension, piece.rest)),
        Err(e) => Err(e),
    }
}
