//! The builder of PKCS #10 requests (CSRs).

ghost use Rattle.std.specs.BTreeSet.{insert_key};
ghost use Rattle.std.specs.Prelude.{◌≡◌, ◌⊎◌, [], ◌∷◌, ◌++◌, Contains, Ok, Err, IfErr, IfOk, IsOkAnd, OnOk, OnErr};
ghost use Rattle.x509_build.specs.declared.error.Error.TheVariants.{Asn1};
ghost use Rattle.x509_build.specs.RequestParts.{first_part, next_part};
ghost use Rattle.x509_build.specs.Answer.{Gives};
ghost use Rattle.x509_build.specs.Refusals.{LacksMemory};
ghost use Rattle.x509_cert.specs.Attributes.{MakesAttribute};
ghost use Rattle.x509_der.specs.declared.error.Error.{Error};
ghost use Rattle.x509_der.specs.declared.error.ErrorKind.TheVariants.{Memory, SetDuplicate};
ghost use Rattle.x509_der.specs.Writing.{writes};
ghost use Rattle.x509_ext.specs.declared.extension.Extension.{Extension};
ghost use Rattle.x509_name.specs.Attribute.{attribute_cmp};
ghost use Rattle.x509_name.specs.declared.attr.attribute.Attribute.{Attribute};

use crate::extensions::followed_by;
use crate::profile::null_algorithm::no_algorithm;
use crate::{Builder, Result, Signer};
use std::alloc::Global;
use x509_base::SubjectPublicKeyInfo;
use x509_cert::request::attributes::AsAttribute;
use x509_cert::request::{CertReq, CertReqInfo, ExtensionReq, Version, extension_req_attribute};
use x509_der::{Encode, Error, TryClone};
use x509_ext::{Extensions, ToExtension};
use x509_name::attr::{Attribute, Attributes};
use x509_name::name::Name;
use x509_prim::BitString;

/// A builder of a PKCS #10 request (CSR, RFC 2986 4).
///
/// The signed part holds the signer's key, the attributes that were added, and one more, which asks for the extensions
/// that were added (RFC 2985 5.4.2). That one stands there where no extension was added too.
pub struct RequestBuilder {
    info: CertReqInfo,
    attributes: Attributes,
    extension_req: ExtensionReq,
}

impl Drop for RequestBuilder {
    fn drop(self) {
        let RequestBuilder {
            info: _,
            attributes: _,
            extension_req: _,
        } = self;
    }
}

impl RequestBuilder {
    /// A builder of a CSR for that subject. Until [`finalize`](Builder::finalize) the signed part has no attributes,
    /// and a key with the algorithm 0.0.0 and no bits. It takes no memory.
    ///
    /// # Errors
    ///
    /// None: it is never refused. It answers a `Result` as the Rust crate's call does.
    pub fn new(alloc: Global, subject: Name) -> Result<RequestBuilder>
        ensures { IsOkAnd result (λ builder. builder ≡ record { info = first_part subject; attributes = []; extension_req = record { 0 = [] } }) }
    {
        let public_key = SubjectPublicKeyInfo {
            algorithm: no_algorithm(),
            subject_public_key: BitString::from_bytes(alloc, &[])?,
        };
        let info = CertReqInfo {
            version: Version::V1,
            subject,
            public_key,
            attributes: Attributes::new(alloc),
        };
        Ok(RequestBuilder {
            info,
            attributes: Attributes::new(alloc),
            extension_req: ExtensionReq::new(alloc),
        })
    }

    /// Adds an extension behind those that were added before; it is made for the subject and for those.
    ///
    /// # Errors
    ///
    /// `Asn1` of the error of [`ToExtension::to_extension`]. `Asn1` of `Memory` when out of memory. On an error the
    /// builder is unchanged, and the extension is dropped.
    pub fn add_extension<E: ToExtension>(&mut self, alloc: Global, extension: E) -> Result<()>
        ensures ok { OnOk result ((made : Extension) × E.makes extension self.old.info.subject self.old.extension_req.0 (Ok made)
            × (self.new ≡ record self.old { extension_req = record { 0 = self.old.extension_req.0 ++ made ∷ [] } })) }
        ensures err { IfErr result (λ e. LacksMemory e ⊎ ((refusal : Error) × (e ≡ Asn1 refusal)
            × E.makes extension self.old.info.subject self.old.extension_req.0 (Err refusal))) }
        ensures unchanged { OnErr result (self.new ≡ self.old) }
    {
        let added = &mut self.extension_req.0;
        let made = extension.to_extension(alloc, &self.info.subject, added.as_slice())?;
        added.push(made)?;
        Ok(())
    }

    /// Adds an attribute.
    ///
    /// # Errors
    ///
    /// `Asn1` of the error of [`AsAttribute::to_attribute`], and else `Asn1` of `SetDuplicate` exactly where an equal
    /// attribute was added before. `Asn1` of `Memory` when out of memory. On an error the builder is unchanged.
    pub fn add_attribute<A: AsAttribute>(&mut self, alloc: Global, attribute: &A) -> Result<()>
        ensures ok { OnOk result ((made : Attribute) × MakesAttribute A.OID A.form (writes A.writing attribute.now) (Ok made)
            × (¬ Contains self.old.attributes made) × (self.new ≡ record self.old { attributes = insert_key attribute_cmp self.old.attributes made })) }
        ensures err { IfErr result (λ e. LacksMemory e ⊎ ((refusal : Error) × (e ≡ Asn1 refusal)
            × (MakesAttribute A.OID A.form (writes A.writing attribute.now) (Err refusal)
            ⊎ ((made : Attribute) × MakesAttribute A.OID A.form (writes A.writing attribute.now) (Ok made) × (refusal.kind ≡ SetDuplicate)
            × Contains self.old.attributes made)))) }
        ensures unchanged { OnErr result (self.new ≡ self.old) }
    {
        let made = attribute.to_attribute(alloc)?;
        add(&mut self.attributes, made)?;
        Ok(())
    }

    /// The builder, with these extensions, as they are, behind those that were added before.
    ///
    /// # Errors
    ///
    /// `Asn1` of `Memory` when out of memory, and nothing else; then the builder is dropped.
    pub fn with_extensions(self, extensions: Extensions) -> Result<RequestBuilder>
        ensures ok { IfOk result (λ builder. builder ≡ record self { extension_req = record { 0 = self.extension_req.0 ++ extensions } }) }
        ensures err { IfErr result LacksMemory }
    {
        let RequestBuilder {
            info,
            attributes,
            extension_req,
        } = self;
        let ExtensionReq(added) = extension_req;
        let extensions = followed_by(added, extensions)?;
        Ok(RequestBuilder {
            info,
            attributes,
            extension_req: ExtensionReq(extensions),
        })
    }

    /// The builder, with this set of attributes in place of those that were added before. It takes no memory.
    pub fn with_attributes(self, attributes: Attributes) -> RequestBuilder
        ensures { result ≡ record self { attributes = attributes } }
    {
        let mut builder = self;
        builder.attributes = attributes;
        builder
    }
}

/// The signed part for a signer with that key, of the subject of the other part, of the attributes and of the one that
/// asks for the extensions.
fn next_part(
    alloc: Global,
    part: CertReqInfo,
    attributes: Attributes,
    extension_req: ExtensionReq,
    public_key: SubjectPublicKeyInfo,
) -> Result<CertReqInfo>
    ensures { Gives (λ part. part) (next_part part.subject attributes extension_req.0 public_key) result }
{
    let asked = extension_req_attribute(alloc, extension_req)?;
    let mut all = attributes;
    add(&mut all, asked)?;
    let mut next = part;
    next.version = Version::V1;
    next.public_key = public_key;
    next.attributes = all;
    Ok(next)
}

/// Puts the attribute in its place among the others. On an error they are unchanged.
fn add(attributes: &mut Attributes, attribute: Attribute) -> std::result::Result<(), Error>
    ensures ok { OnOk result ((¬ Contains attributes.old attribute) × (attributes.new ≡ insert_key attribute_cmp attributes.old attribute)) }
    ensures err { IfErr result (λ e. (e.kind ≡ Memory) ⊎ ((e.kind ≡ SetDuplicate) × Contains attributes.old attribute)) }
    ensures unchanged { OnErr result (attributes.new ≡ attributes.old) }
{
    let _in_order = attributes.as_slice();
    attributes.insert(attribute)
}

impl Builder for RequestBuilder {
    ghost use Rattle.std.specs.Prelude.{◌≡◌};
    ghost use Rattle.x509_build.specs.RequestParts as parts;

    type Output = CertReq;

    type Signed = CertReqInfo;

    ghost current = { λ builder. builder.info };

    ghost next = { λ builder algorithm key. parts.next_part builder.info.subject builder.attributes builder.extension_req.0 key };

    ghost keeps = { λ old new. (new.attributes ≡ old.attributes) × (new.extension_req ≡ old.extension_req) };

    ghost asks_algorithm = { ⊥ };

    ghost asks_key = { Unit {0} };

    ghost assembles_by_algorithm = { Unit {0} };

    ghost whole = { λ part algorithm bits. record { info = part; algorithm = algorithm; signature = bits } };

    fn finalize<S: Signer>(&mut self, alloc: Global, signer: &S) -> Result<Vec<u8>> {
        let public_key = signer.public_key(alloc)?;
        let given = self.info.try_clone(alloc)?;
        let attributes = self.attributes.try_clone(alloc)?;
        let extension_req = self.extension_req.try_clone(alloc)?;
        let part = next_part(alloc, given, attributes, extension_req, public_key)?;
        let bytes = part.to_der(alloc)?;
        self.info = part;
        Ok(bytes)
    }

    fn finalize_once<S: Signer>(
        self,
        alloc: Global,
        signer: &S,
    ) -> Result<(RequestBuilder, Vec<u8>)> {
        let public_key = signer.public_key(alloc)?;
        let RequestBuilder {
            info,
            attributes,
            extension_req,
        } = self;
        let part = next_part(alloc, info, attributes, extension_req, public_key)?;
        let message = part.to_der(alloc)?;
        let builder = RequestBuilder {
            info: part,
            attributes: Attributes::new(alloc),
            extension_req: ExtensionReq::new(alloc),
        };
        Ok((builder, message))
    }

    fn assemble<S: Signer>(
        self,
        alloc: Global,
        signature: BitString,
        signer: &S,
    ) -> Result<CertReq> {
        let RequestBuilder {
            info,
            attributes: _,
            extension_req: _,
        } = self;
        Ok(CertReq {
            info,
            algorithm: signer.algorithm(alloc)?,
            signature,
        })
    }
}
