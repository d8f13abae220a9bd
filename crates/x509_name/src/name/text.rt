//! The texts of RDNs and of names, read and written (RFC 4514 sections 2.1, 2.2 and 3).

ghost use Rattle.std.specs.Prelude.{◌≡◌, ◌⊎◌, false, length, IfOk, IfErr};
ghost use Rattle.std.specs.Fmt.{WritesOnOk};
ghost use Rattle.x509_der.specs.declared.error.ErrorKind.TheVariants as errors;
ghost use Rattle.x509_name.specs.Cutting.{cut};
ghost use Rattle.x509_name.specs.Text.{Reads};
ghost use Rattle.x509_name.specs.NameText as texts;
ghost use Rattle.x509_name.specs.Attributes.{AttributeRefused};

use crate::attr::AttributeTypeAndValue;
use crate::name::name::Name;
use crate::name::rdn::RelativeDistinguishedName;
use crate::name::rdn_sequence::RdnSequence;
use crate::text::{Parts, count_parts, read_attribute, write_attribute};
use std::alloc::Global;
use std::fmt;
use x509_der::{Encode, Error};

// The attribute that a part says.
fn read_one(alloc: Global, part: &[u8]) -> Result<AttributeTypeAndValue, Error>
    ensures ok { IfOk result (λ attribute. Reads part.now attribute) }
    ensures err { IfErr result (λ e. (e.kind ≡ errors.Memory) ⊎ AttributeRefused part.now e.kind) }
{
    let (oid, value) = read_attribute(alloc, part)?;
    Ok(AttributeTypeAndValue { oid, value })
}

// The RDN of the one attribute that a text says.
fn read_single(alloc: Global, text: &[u8]) -> Result<RelativeDistinguishedName, Error>
    requires { length (cut 43 text.now false) ≡ 1 }
    ensures ok { IfOk result (λ rdn. texts.RdnReads text.now rdn) }
    ensures err { IfErr result (λ e. (e.kind ≡ errors.Memory) ⊎ texts.RdnRefused text.now e.kind) }
{
    let attribute = read_one(alloc, text)?;
    Ok(RelativeDistinguishedName::from_one(alloc, attribute))
}

// The RDN of the attributes that a text says; for `count` of them memory is taken at once.
fn read_several(
    alloc: Global,
    text: &[u8],
    count: usize,
) -> Result<RelativeDistinguishedName, Error>
    ensures ok { IfOk result (λ rdn. texts.RdnReads text.now rdn) }
    ensures err { IfErr result (λ e. (e.kind ≡ errors.Memory) ⊎ texts.RdnRefused text.now e.kind) }
{
    let mut attributes = Vec::with_capacity(alloc, count)?;
    for part in Parts::new(text, b'+') {
        attributes.push(read_one(alloc, part)?)?;
    }
    RelativeDistinguishedName::try_from_vec(attributes)
}

/// The RDN that a text says.
pub(crate) fn read_rdn(alloc: Global, text: &[u8]) -> Result<RelativeDistinguishedName, Error>
    ensures ok { IfOk result (λ rdn. texts.RdnReads text.now rdn) }
    ensures err { IfErr result (λ e. (e.kind ≡ errors.Memory) ⊎ texts.RdnRefused text.now e.kind) }
{
    let count = count_parts(text, b'+');
    // Most RDNs have one attribute.
    if count == 1 {
        return read_single(alloc, text);
    }
    read_several(alloc, text, count)
}

/// The RDNs that a text says, the last of them first.
pub(crate) fn read_name(alloc: Global, text: &[u8]) -> Result<RdnSequence, Error>
    ensures ok { IfOk result (λ name. texts.NameReads text.now name) }
    ensures err { IfErr result (λ e. (e.kind ≡ errors.Memory) ⊎ texts.NameRefused text.now e.kind) }
{
    if text.is_empty() {
        return Ok(RdnSequence::new(alloc));
    }
    let mut rdns = Vec::with_capacity(alloc, count_parts(text, b','))?;
    for part in Parts::new(text, b',') {
        rdns.push(read_rdn(alloc, part)?)?;
    }
    rdns.reverse();
    Ok(RdnSequence::from(rdns))
}

/// Writes the attributes, with a plus sign between each two.
#[tactic(auto, unfolding(crate::specs::NameText::rdn_text))]
pub(crate) fn write_rdn<W: fmt::Write>(
    f: &mut fmt::Formatter<W>,
    attributes: &[AttributeTypeAndValue],
) -> fmt::Result
    ensures { WritesOnOk W.write_str_gives f.old result (texts.rdn_text attributes.now) f.new }
{
    for (i, attribute) in attributes.iter().enumerate() {
        if i > 0 {
            f.write_str("+")?;
        }
        write_attribute(f, &attribute.oid, &attribute.value)?;
    }
    Ok(())
}

/// Writes the RDNs from the last to the first, with a comma between each two.
#[tactic(auto, unfolding(crate::specs::NameText::name_text))]
pub(crate) fn write_name<W: fmt::Write>(
    f: &mut fmt::Formatter<W>,
    rdns: &[RelativeDistinguishedName],
) -> fmt::Result
    ensures { WritesOnOk W.write_str_gives f.old result (texts.name_text rdns.now) f.new }
{
    for i in 0..rdns.len() {
        if i > 0 {
            f.write_str(",")?;
        }
        write_rdn(f, rdns[rdns.len() - 1 - i].as_slice())?;
    }
    Ok(())
}

impl RelativeDistinguishedName {
    /// The RDN that a text says: attributes with plus signs between, in any order (RFC 4514 sections 2.2 and 3).
    ///
    /// # Errors
    ///
    /// Those of [`AttributeTypeAndValue::from_str`] for the leftmost attribute that is refused: `Failed` for a bad
    /// text, `Overlength` for a value that is too long. Where all are read, `SetDuplicate` exactly where two of the
    /// attributes are equal. `Memory` when out of memory.
    pub fn from_str(alloc: Global, text: &str) -> Result<RelativeDistinguishedName, Error>
        ensures ok { IfOk result (λ rdn. texts.RdnReads text.now rdn) }
        ensures err { IfErr result (λ e. (e.kind ≡ errors.Memory) ⊎ texts.RdnRefused text.now e.kind) }
    {
        read_rdn(alloc, text.as_bytes())
    }
}

impl fmt::Display for RelativeDistinguishedName {
    ghost use Rattle.std.specs.Prelude.{Some};
    ghost use Rattle.x509_name.specs.NameText.{rdn_text};

    ghost output = { λ rdn. Some (rdn_text rdn) };

    fn fmt<W: fmt::Write>(&self, f: &mut fmt::Formatter<W>) -> fmt::Result {
        write_rdn(f, self.as_slice())
    }
}

impl RdnSequence {
    /// The RDNs that a text says, which has the last of them first and commas between. The empty text says none (RFC
    /// 4514 sections 2.1 and 3).
    ///
    /// # Errors
    ///
    /// Those of [`RelativeDistinguishedName::from_str`] for the leftmost RDN that is refused. `Memory` when out of
    /// memory.
    pub fn from_str(alloc: Global, text: &str) -> Result<RdnSequence, Error>
        ensures ok { IfOk result (λ rdns. texts.NameReads text.now rdns) }
        ensures err { IfErr result (λ e. (e.kind ≡ errors.Memory) ⊎ texts.NameRefused text.now e.kind) }
    {
        read_name(alloc, text.as_bytes())
    }

    /// The encoding of the RDNs that a text says.
    ///
    /// # Errors
    ///
    /// Those of `from_str`; where the text is read, `Overlength` exactly where the encoding is longer than
    /// [`Length::MAX`](x509_der::Length::MAX). `Memory` when out of memory.
    pub fn encode_from_string(alloc: Global, text: &str) -> Result<Vec<u8>, Error>
        ensures ok { IfOk result (λ bytes. texts.NameEncodes text.now bytes.items) }
        ensures err { IfErr result (λ e. (e.kind ≡ errors.Memory) ⊎ texts.NameNotEncoded text.now e.kind) }
    {
        let rdns = RdnSequence::from_str(alloc, text)?;
        rdns.to_der(alloc)
    }
}

impl fmt::Display for RdnSequence {
    ghost use Rattle.std.specs.Prelude.{Some};
    ghost use Rattle.x509_name.specs.NameText.{name_text};

    ghost output = { λ rdns. Some (name_text rdns) };

    fn fmt<W: fmt::Write>(&self, f: &mut fmt::Formatter<W>) -> fmt::Result {
        write_name(f, self.as_slice())
    }
}

impl Name {
    /// The name that a text says, such as `CN=Good CA,C=US`, as [`RdnSequence::from_str`] reads it.
    ///
    /// # Errors
    ///
    /// Those of [`RdnSequence::from_str`].
    pub fn from_str(alloc: Global, text: &str) -> Result<Name, Error>
        ensures ok { IfOk result (λ name. texts.NameReads text.now name) }
        ensures err { IfErr result (λ e. (e.kind ≡ errors.Memory) ⊎ texts.NameRefused text.now e.kind) }
    {
        let rdns = RdnSequence::from_str(alloc, text)?;
        Ok(Name::hazmat_from_rdn_sequence(rdns))
    }
}

impl fmt::Display for Name {
    ghost use Rattle.std.specs.Prelude.{Some};
    ghost use Rattle.x509_name.specs.NameText.{name_text};

    ghost output = { λ name. Some (name_text name) };

    fn fmt<W: fmt::Write>(&self, f: &mut fmt::Formatter<W>) -> fmt::Result {
        let rdns: &RdnSequence = self.as_ref();
        write_name(f, rdns.as_slice())
    }
}
