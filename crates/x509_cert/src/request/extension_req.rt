//! The extensions that a CSR asks for.

ghost use Rattle.std.specs.Prelude.{◌≡◌, []};
ghost use Rattle.x509_ext.specs.Filter.{extensions_left};
ghost use Rattle.x509_ext.specs.LookUp.{Finds, with_oid};
ghost use Rattle.x509_cert.specs.Attributes.{MakesAttribute};
ghost use Rattle.x509_cert.specs.Identifiers.{pkcs_9};
ghost use Rattle.x509_der.specs.Writing.{plain, writes};
ghost use Rattle.x509_ext.specs.Extension.{extensions};

use crate::request::attributes::attribute_of;
use std::alloc::Global;
use x509_der::{AssociatedOid, Decode, Error, Newtype, ObjectIdentifier, oid};
use x509_ext::{Extensions, FilterExtensions, filter_extensions, get_extension};
use x509_name::attr::Attribute;

/// The extensions that a CSR asks for, as the value of an attribute (RFC 2985 5.4.2, RFC 5272 3.1). Its OID is
/// 1.2.840.113549.1.9.14. An empty sequence is decoded and encoded too.
///
/// ```text
/// ExtensionReq ::= SEQUENCE OF Extension
/// ```
#[derive(Debug, Drop, PartialEq, Eq)]
pub struct ExtensionReq(pub Extensions);

impl ExtensionReq {
    /// No extensions. It takes no memory.
    pub fn new(alloc: Global) -> ExtensionReq
        ensures { result.0 ≡ [] }
    {
        ExtensionReq(Extensions::new(alloc))
    }

    /// The extension of type `T`, found by the OID of the type: whether it is critical, and its value; `None` exactly
    /// where no extension has the OID.
    ///
    /// # Errors
    ///
    /// `Failed` where two or more extensions have the OID (a repeated extension), whatever they hold; where one has it,
    /// the errors of [`Decode::from_der`] on the octets that it holds.
    pub fn get_extension<T: AssociatedOid + Decode>(
        &self,
        alloc: Global,
    ) -> Result<Option<(bool, T)>, Error>
        ensures { Finds T.form T.refuses T.wants_memory (with_oid T.OID self.now.0) result }
    {
        get_extension(alloc, self.0.as_slice())
    }

    /// The extensions of type `T`, found by the OID of the type, in their order.
    pub fn filter_extensions<T: AssociatedOid + Decode>(
        &self,
        alloc: Global,
    ) -> FilterExtensions<'_, T>
        ensures { extensions_left T.OID result ≡ with_oid T.OID self.now.0 }
    {
        filter_extensions(alloc, self.0.as_slice())
    }
}

/// The attribute whose one value is the encoding of the extensions (RFC 2985 5.4.2).
///
/// # Errors
///
/// `Overlength` exactly where that encoding is longer than [`Length::MAX`](x509_der::Length::MAX). `Memory`
/// when out of memory.
pub fn extension_req_attribute(alloc: Global, req: ExtensionReq) -> Result<Attribute, Error>
    ensures { MakesAttribute (pkcs_9 14) extensions (writes plain req.0) result }
{
    attribute_of(alloc, ExtensionReq::OID, &req)
}

impl AssociatedOid for ExtensionReq {
    ghost OID = { pkcs_9 14 };

    const OID: ObjectIdentifier = oid!(0x2A, 0x86, 0x48, 0x86, 0xF7, 0x0D, 0x01, 0x09, 14);
}

impl Newtype for ExtensionReq {
    ghost use Rattle.std.specs.Prelude.{refl};

    type Inner = Extensions;

    ghost round = { record { to = λ req. req.0; from = λ extensions. record { 0 = extensions }; back = λ req. refl; there = λ extensions. refl } };

    fn inner(&self) -> &Extensions {
        &self.0
    }

    fn from_inner(inner: Extensions) -> ExtensionReq {
        ExtensionReq(inner)
    }
}

impl From<Extensions> for ExtensionReq {
    ghost from_gives = { λ extensions req. req.0 ≡ extensions };

    fn from(extensions: Extensions) -> ExtensionReq {
        ExtensionReq(extensions)
    }
}

impl From<ExtensionReq> for Extensions {
    ghost from_gives = { λ req extensions. extensions ≡ req.0 };

    fn from(req: ExtensionReq) -> Extensions {
        let ExtensionReq(extensions) = req;
        extensions
    }
}

impl AsRef<Extensions> for ExtensionReq {
    fn as_ref(&self) -> &Extensions
        ensures { result.now ≡ self.now.0 }
    {
        &self.0
    }
}

impl AsMut<Extensions> for ExtensionReq {
    ghost use Rattle.std.specs.Borrow.{Lends, sem};
    ghost use Rattle.x509_cert.specs.Rows.{extensions_row};
    ghost use Rattle.x509_cert.specs.contracts.request.extension_req.ExtensionReq.{the_row};

    fn as_mut(&mut self) -> &mut Extensions
        ensures* writes_back { sem 𝓛 (Lends the_row extensions_row self.entry result (λ w. record { 0 = w })) }
        ensures value { result.now ≡ self.old.0 }
    {
        &mut self.0
    }
}
