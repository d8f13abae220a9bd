//! Lists of extensions, lent from their bytes.

ghost use Rattle.std.specs.Prelude.{◌≡◌, ◌||◌, bytes_eq, List, Ok, IsOk};
ghost use Rattle.x509_der.specs.Form.{Spells};
ghost use Rattle.x509_der.specs.List.{list_reading};
ghost use Rattle.x509_ext.specs.Extension.{extension, extension_contents, extensions};
ghost use Rattle.x509_ext.specs.declared.extension.Extension.{Extension};

use crate::check::Check;
use crate::element::next_element;
use crate::lent::extension::{ExtensionRef, has_oid, known_extension, split_extension};
use std::alloc::Global;
use x509_der::{AssociatedOid, Decode, Error, ErrorKind, ObjectIdentifier, Tag};
use x509_ext::Extensions;

/// An iterator over the extensions of a list (RFC 5280 4.1.2.9), which lends each from the bytes of the list. The bytes
/// were checked, so each is there; it is decoded when it is asked for, without memory.
#[derive(Clone, Copy, Debug)]
pub struct ExtensionRefs<'a> {
    rest: &'a [u8],
    ghost are_extensions: { IsOk (list_reading extension.reading rest.now) },
}

impl<'a> ExtensionRefs<'a> {
    ghost use Rattle.std.specs.List.{list_any};
    ghost use Rattle.std.specs.Prelude.{◌≡◌, ◌<◌, ◌≤◌, ◌||◌, ◌∷◌, ◌++◌, List, [], bytes_eq, length, IfOk, IfErr, IfSome, IsErrAnd, IsOkAnd, MatchOption, Ok};
    ghost use Rattle.x509_check.specs.ExtensionRefs.{FindsLent, extensions_left, lent_extension};
    ghost use Rattle.x509_der.specs.Element.{limit};
    ghost use Rattle.x509_der.specs.Form.{Spells, spelling};
    ghost use Rattle.x509_der.specs.declared.error.ErrorKind.TheVariants as errors;
    ghost use Rattle.x509_der.specs.List.{joined};
    ghost use Rattle.x509_ext.specs.Extension.{extension, extension_contents, extensions};
    ghost use Rattle.x509_ext.specs.LookUp.{Finds, with_oid};
    ghost use Rattle.x509_ext.specs.declared.extension.Extension.{Extension};

    /// No extensions.
    pub fn empty() -> ExtensionRefs<'a>
        ensures { extensions_left result ≡ [] }
    {
        ExtensionRefs { rest: &[] }
    }

    /// The extensions of the list that the bytes are the encoding of. It takes no memory.
    ///
    /// # Errors
    ///
    /// `Overlength` exactly where the bytes are more than [`Length::MAX`](x509_der::Length::MAX). Within that length
    /// `Malformed` exactly where they are the encoding of no list of extensions.
    pub fn from_der(bytes: &'a [u8]) -> Result<ExtensionRefs<'a>, Error>
        ensures found { IfOk result (λ refs. Spells extensions (extensions_left refs) bytes.now) }
        ensures overlength { limit < length bytes.now → IsErrAnd result (λ e. e.kind ≡ errors.Overlength) }
        ensures refused { length bytes.now ≤ limit → IfErr result (λ e. e.kind ≡ errors.Malformed) }
        ensures one { (list : List Extension) → Spells extensions list bytes.now → IsOkAnd result (λ refs. extensions_left refs ≡ list) }
    {
        Extensions::check(bytes)?;
        Ok(ExtensionRefs::of_checked(bytes))
    }

    /// The extensions of a list, of which the bytes are known to be the encoding. They aren't checked again.
    #[inline(always)]
    pub fn of_checked(bytes: &'a [u8]) -> ExtensionRefs<'a>
        requires { (list : List Extension) × Spells extensions list bytes.now }
        ensures { (list : List Extension) → Spells extensions list bytes.now → extensions_left result ≡ list }
    {
        ExtensionRefs {
            rest: members_of(bytes),
        }
    }

    /// The encodings of those that were not given yet, one after the other.
    pub fn as_bytes(&self) -> &'a [u8]
        ensures { result.now ≡ joined (spelling extension) (extensions_left self.now) }
    {
        self.rest
    }

    /// The content octets of the next extension, which aren't decoded.
    #[inline(always)]
    fn next_content(&mut self) -> Option<&'a [u8]>
        ensures { MatchOption result ((extensions_left self.old ≡ []) × (extensions_left self.new ≡ []))
            (λ octets. (e : Extension) × (extension_contents.reading octets.now ≡ Ok e) × (extensions_left self.old ≡ e ∷ extensions_left self.new)) }
    {
        let Ok(piece) = next_element(self.rest, Tag::Sequence) else {
            return None;
        };
        self.rest = piece.rest;
        Some(piece.content)
    }

    /// The next extension with the OID of these content octets; `None` exactly where none is left that has it, and then no other is left. Those that
    /// are passed over aren't decoded.
    pub fn next_with(&mut self, oid: &[u8]) -> Option<ExtensionRef<'a>>
        ensures found { MatchOption result ((with_oid oid.now (extensions_left self.old) ≡ []) × (extensions_left self.new ≡ []))
            (λ found. with_oid oid.now (extensions_left self.old) ≡ lent_extension found ∷ with_oid oid.now (extensions_left self.new)) }
        ensures behind { IfSome result (λ found. (before : List Extension)
            × (extensions_left self.old ≡ before ++ lent_extension found ∷ extensions_left self.new)) }
    {
        while let Some(octets) = self.next_content() {
            if has_oid(octets, oid) {
                return Some(known_extension(octets));
            }
        }
        None
    }

    /// The extension with the OID; `None` exactly where none has it. An extension may appear once at most (RFC 5280 4.2).
    ///
    /// # Errors
    ///
    /// `Failed` exactly where two or more have the OID (a repeated extension).
    pub fn find_extension(&self, oid: ObjectIdentifier) -> Result<Option<ExtensionRef<'a>>, Error>
        ensures { FindsLent (with_oid oid (extensions_left self.now)) result }
    {
        let mut rest = *self;
        let Some(extension) = rest.next_with(oid.as_bytes()) else {
            return Ok(None);
        };
        match rest.next_with(oid.as_bytes()) {
            Some(_) => Err(ErrorKind::Failed.into()),
            None => Ok(Some(extension)),
        }
    }

    /// Whether an extension is critical or has the OID. None is decoded.
    #[inline(always)]
    pub fn has_critical_or(&self, oid: &ObjectIdentifier) -> bool
        ensures { result ≡ list_any (λ e. e.critical || bytes_eq e.extn_id oid.now) (extensions_left self.now) }
    {
        let mut rest = self.rest;
        while !rest.is_empty() {
            let Ok(piece) = next_element(rest, Tag::Sequence) else {
                return false;
            };
            if is_critical_or(piece.content, oid.as_bytes()) {
                return true;
            }
            rest = piece.rest;
        }
        false
    }

    /// The extension of type `T`, found by the OID of the type: whether it is critical, and its value; `None` exactly
    /// where no extension has the OID.
    ///
    /// # Errors
    ///
    /// `Failed` where two or more extensions have the OID (a repeated extension), whatever they hold. Where one has it,
    /// the errors of [`Decode::from_der`] on the octets that it holds, `Memory` only where decoding the type may take
    /// memory.
    pub fn get_extension<T: AssociatedOid + Decode>(
        &self,
        alloc: Global,
    ) -> Result<Option<(bool, T)>, Error>
        ensures { Finds T.form T.refuses T.wants_memory (with_oid T.OID (extensions_left self.now)) result }
    {
        match self.find_extension(T::OID) {
            Ok(None) => Ok(None),
            Ok(Some(extension)) => {
                let value = T::from_der(alloc, extension.extn_value)?;
                Ok(Some((extension.critical, value)))
            }
            Err(e) => Err(e),
        }
    }
}

/// The content of the list that the bytes are the encoding of.
#[inline(always)]
fn members_of(bytes: &[u8]) -> &[u8]
    ensures { (list : List Extension) → Spells extensions list bytes.now → list_reading extension.reading result.now ≡ Ok list }
{
    match next_element(bytes, Tag::Sequence) {
        Ok(piece) => piece.content,
        Err(_) => &[],
    }
}

/// Whether the extension with these content octets, as is known, is critical or has the OID. A BOOLEAN stands behind the OID exactly where it is
/// critical (X.690 11.5).
#[inline(always)]
fn is_critical_or(octets: &[u8], oid: &[u8]) -> bool
    ensures { (e : Extension) → extension_contents.reading octets.now ≡ Ok e → result ≡ (e.critical || bytes_eq e.extn_id oid.now) }
{
    match next_element(octets, Tag::ObjectIdentifier) {
        Ok(piece) => matches!(piece.rest, [0x01, ..]) || piece.content == oid,
        Err(_) => false,
    }
}

impl<'a> Iterator for ExtensionRefs<'a> {
    ghost use Rattle.std.specs.Iterator.{YieldsFirstBy, item_count};
    ghost use Rattle.x509_check.specs.ExtensionRefs.{extensions_left, lent_extension};

    type Item = ExtensionRef<'a>;

    ghost next_gives = { YieldsFirstBy lent_extension extensions_left };

    ghost remaining = { item_count extensions_left };

    #[inline(always)]
    fn next(&mut self) -> Option<ExtensionRef<'a>> {
        let Ok((extension, others)) = split_extension(self.rest) else {
            return None;
        };
        self.rest = others;
        Some(extension)
    }
}
