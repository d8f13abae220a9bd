//! Making extensions of their values.

ghost use Rattle.x509_der.specs.Writing.{writes};
ghost use Rattle.x509_ext.specs.ToExtension.{Makes};

use crate::criticality::Criticality;
use crate::extension::Extension;
use std::alloc::Global;
use x509_der::{AssociatedOid, Encode, Error, ObjectIdentifier};
use x509_name::name::Name;
use x509_prim::OctetString;

/// What an extension can be made of: an extension, or a value with or without an OID and a criticality.
pub trait ToExtension: Sized {
    ghost use Rattle.std.specs.Prelude.{List, Result};
    ghost use Rattle.x509_der.specs.declared.error.Error.{Error};
    ghost use Rattle.x509_name.specs.declared.attr.type_and_value.AttributeTypeAndValue.{AttributeTypeAndValue};
    ghost use Rattle.x509_ext.specs.declared.extension.Extension.{Extension};

    /// What the call answers, with that subject and after those extensions.
    ghost makes: { Self → List (List AttributeTypeAndValue) → List Extension → Result Extension Error → Type 0 };

    /// The extension, for a certificate with that subject, after those extensions. An extension stays as it is. The
    /// extension of a value holds the bytes of the value's [`Encode::to_der`].
    ///
    /// # Errors
    ///
    /// None for an extension. For a value those of [`Encode::to_der`]; where that succeeds, `Overlength` exactly where
    /// the OCTET STRING that is to hold the bytes would be longer than [`Length::MAX`](x509_der::Length::MAX).
    /// `Memory` when out of memory.
    fn to_extension(
        self,
        alloc: Global,
        subject: &Name,
        extensions: &[Extension],
    ) -> Result<Extension, Error>
        ensures { makes self subject.now extensions.now result };
}

/// A payload of at most so many octets is encoded on the stack; of a longer one the encoding is copied into memory of just its length.
const MAX_SHORT: usize = 512;

/// The extension that holds the encoding of the value, of more than [`MAX_SHORT`] octets, or why there is none.
#[inline(never)]
fn hold_long<T: Encode>(
    alloc: Global,
    extn_id: ObjectIdentifier,
    critical: bool,
    payload: &T,
) -> Result<Extension, Error>
    ensures { Makes extn_id critical T.form (writes T.writing payload.now) result }
{
    let octets = payload.to_der(alloc)?;
    Ok(Extension {
        extn_id,
        critical,
        extn_value: OctetString::new(alloc, octets.as_slice())?,
    })
}

/// The extension that holds the encoding of the value.
fn hold<T: Encode>(
    alloc: Global,
    extn_id: ObjectIdentifier,
    critical: bool,
    payload: &T,
) -> Result<Extension, Error>
    ensures { Makes extn_id critical T.form (writes T.writing payload.now) result }
{
    let mut short = [0; MAX_SHORT];
    if let Ok(octets) = payload.encode_to_slice(&mut short) {
        return Ok(Extension {
            extn_id,
            critical,
            extn_value: OctetString::new(alloc, octets)?,
        });
    }
    hold_long(alloc, extn_id, critical, payload)
}

/// The extension as it is. It takes no memory.
impl ToExtension for Extension {
    ghost use Rattle.std.specs.Prelude.{◌≡◌, Ok};

    ghost makes = { λ extension subject extensions result. result ≡ Ok extension };

    fn to_extension(
        self,
        _alloc: Global,
        _subject: &Name,
        _extensions: &[Extension],
    ) -> Result<Extension, Error> {
        Ok(self)
    }
}

/// A value, under the OID of its type and as critical as it says.
impl<T: AssociatedOid + Criticality + Encode> ToExtension for &T {
    ghost use Rattle.x509_der.specs.Writing.{writes};
    ghost use Rattle.x509_ext.specs.ToExtension.{Makes};

    ghost makes = { λ payload subject extensions result. Makes T.OID (T.is_critical payload.now subject extensions) T.form
        (writes T.writing payload.now) result };

    fn to_extension(
        self,
        alloc: Global,
        subject: &Name,
        extensions: &[Extension],
    ) -> Result<Extension, Error> {
        let critical = self.criticality(subject, extensions);
        hold(alloc, T::OID, critical, self)
    }
}

/// A value under that OID, as critical as it says.
impl<T: Criticality + Encode> ToExtension for (ObjectIdentifier, &T) {
    ghost use Rattle.x509_der.specs.Writing.{writes};
    ghost use Rattle.x509_ext.specs.ToExtension.{Makes};

    ghost makes = { λ made subject extensions result. Makes made.0 (T.is_critical made.1.now subject extensions) T.form (writes T.writing made.1.now) result };

    fn to_extension(
        self,
        alloc: Global,
        subject: &Name,
        extensions: &[Extension],
    ) -> Result<Extension, Error> {
        let (extn_id, payload) = self;
        let critical = payload.criticality(subject, extensions);
        hold(alloc, extn_id, critical, payload)
    }
}

/// A value under the OID of its type, critical or not as is said.
impl<T: AssociatedOid + Encode> ToExtension for (bool, &T) {
    ghost use Rattle.x509_der.specs.Writing.{writes};
    ghost use Rattle.x509_ext.specs.ToExtension.{Makes};

    ghost makes = { λ made subject extensions result. Makes T.OID made.0 T.form (writes T.writing made.1.now) result };

    fn to_extension(
        self,
        alloc: Global,
        _subject: &Name,
        _extensions: &[Extension],
    ) -> Result<Extension, Error> {
        let (critical, payload) = self;
        hold(alloc, T::OID, critical, payload)
    }
}

/// A value under that OID, critical or not as is said.
impl<T: Encode> ToExtension for (ObjectIdentifier, bool, &T) {
    ghost use Rattle.x509_der.specs.Writing.{writes};
    ghost use Rattle.x509_ext.specs.ToExtension.{Makes};

    ghost makes = { λ made subject extensions result. Makes made.0 made.1 T.form (writes T.writing made.2.now) result };

    fn to_extension(
        self,
        alloc: Global,
        _subject: &Name,
        _extensions: &[Extension],
    ) -> Result<Extension, Error> {
        let (extn_id, critical, payload) = self;
        hold(alloc, extn_id, critical, payload)
    }
}
