//! The bytes to be signed of a CSR.

ghost use Rattle.std.specs.Prelude.{◌≡◌, ◌⊎◌, ◌↔◌, IsTrue, MatchResult};
ghost use Rattle.x509_build.specs.RequestParts.{next_part};
ghost use Rattle.x509_c_calls.specs.Refusals.{Finalizes, FinalizesTo};
ghost use Rattle.x509_c_calls.specs.Status.{Fills};
ghost use Rattle.x509_c_calls.specs.Requests.{AreRequestInputs, Ask, BuildsRequest, IsSetOf, RefusesRequestInputs, RefusesSet};
ghost use Rattle.x509_c_calls.specs.Built.{FillsUnrepeated};
ghost use Rattle.x509_cert.specs.CertReq.{cert_req_info};
ghost use Rattle.x509_der.specs.declared.error.ErrorKind.TheVariants.{Memory};
ghost use Rattle.x509_der.specs.Writing.{plain};

use crate::build::input::{check_repeated, read_each};
use crate::build::teller::{Teller, finalized, kind_of};
use crate::{Status, fill, read};
use std::alloc::Global;
use x509_base::SubjectPublicKeyInfo;
use x509_build::Error;
use x509_build::profile::no_algorithm;
use x509_build::request::RequestBuilder;
use x509_cert::request::ExtensionReq;
use x509_der::{AssociatedOid, ErrorKind};
use x509_ext::{Extension, Extensions};
use x509_name::attr::{Attribute, Attributes};
use x509_name::name::Name;

/// What a CSR is built of.
#[derive(Drop)]
struct RequestInputs {
    subject: Name,
    key: SubjectPublicKeyInfo,
    attributes: Attributes,
    extensions: Vec<Extension>,
}

/// Whether one of the attributes asks for extensions (RFC 2985 5.4.2).
fn ask(attributes: &[Attribute]) -> bool
    ensures { IsTrue result ↔ Ask attributes.now }
{
    attributes
        .iter()
        .any(|attribute| attribute.oid == ExtensionReq::OID)
}

/// The set of the attributes whose encodings the bytes are, one after the other.
fn read_set(alloc: Global, bytes: &[u8]) -> Result<Attributes, ErrorKind>
    ensures { MatchResult result (λ set. IsSetOf bytes.now set) (λ e. (e ≡ Memory) ⊎ RefusesSet bytes.now e) }
{
    let attributes = read_each::<Attribute>(alloc, bytes)?;
    if ask(attributes.as_slice()) {
        return Err(ErrorKind::SetDuplicate);
    }
    match Attributes::try_from_vec(attributes) {
        Ok(set) => Ok(set),
        Err(e) => Err(e.kind()),
    }
}

/// What the bytes encode.
fn read_inputs(
    alloc: Global,
    subject: &[u8],
    key: &[u8],
    attributes: &[u8],
    extensions: &[u8],
) -> Result<RequestInputs, ErrorKind>
    ensures { MatchResult result
        (λ inputs. AreRequestInputs subject.now key.now attributes.now extensions.now inputs)
        (λ e. (e ≡ Memory) ⊎ RefusesRequestInputs subject.now key.now attributes.now extensions.now e) }
{
    let subject = read::<Name>(alloc, subject)?;
    let key = read::<SubjectPublicKeyInfo>(alloc, key)?;
    let attributes = read_set(alloc, attributes)?;
    let extensions = read_each::<Extension>(alloc, extensions)?;
    Ok(RequestInputs {
        subject,
        key,
        attributes,
        extensions,
    })
}

/// The bytes that the builder finalizes to.
fn request_part(alloc: Global, inputs: RequestInputs) -> Result<Vec<u8>, Error>
    ensures { FinalizesTo (λ bytes. bytes.items) cert_req_info plain (next_part inputs.subject inputs.attributes inputs.extensions.items inputs.key) result }
{
    let RequestInputs {
        subject,
        key,
        attributes,
        extensions,
    } = inputs;
    let builder = RequestBuilder::new(alloc, subject)?
        .with_attributes(attributes)
        .with_extensions(Extensions::from(extensions))?;
    // No algorithm stands in the signed part of a CSR.
    let teller = Teller {
        algorithm: no_algorithm(),
        key,
    };
    finalized(alloc, builder, &teller)
}

/// Puts the bytes that the builder finalizes to at the front of the buffer `room`.
///
/// # Errors
///
/// [`Status::NoRoom`] where the buffer is too small; then `written` is the needed length. Those of the builder.
#[tactic(auto, unfolding(crate::specs::Status::Fills))]
fn fill_part(alloc: Global, inputs: RequestInputs, room: &mut [u8], written: &mut usize) -> Status
    ensures { Fills (Finalizes cert_req_info plain (next_part inputs.subject inputs.attributes inputs.extensions.items inputs.key)) room.old room.new
        written.old written.new result }
{
    match request_part(alloc, inputs) {
        Ok(bytes) => fill(bytes.as_slice(), room, written),
        Err(e) => Status::Refused(kind_of(&e)),
    }
}

/// Puts the bytes to be signed of a CSR, CertificationRequestInfo (RFC 2986 4.1), at the front of the buffer `room`: those that
/// [`RequestBuilder`] finalizes to for a signer with that public key. The subject is a Name and the key a SubjectPublicKeyInfo; attributes and
/// extensions to be asked for are encodings of them one after the other, or none.
///
/// # Errors
///
/// [`Status::NoRoom`] where the buffer is too small; then `written` is the needed length. The error of decoding an input; where several are bad,
/// any of theirs; `SetDuplicate` among them where two attributes are equal, or one asks for extensions. Else [`Status::Repeated`] exactly where two of
/// the extensions have one OID; then nothing is written. `Overlength` where the part is too long. `Memory` when out of memory.
pub fn build_request(
    alloc: Global,
    subject: &[u8],
    key: &[u8],
    attributes: &[u8],
    extensions: &[u8],
    room: &mut [u8],
    written: &mut usize,
) -> Status
    ensures { FillsUnrepeated (BuildsRequest subject.now key.now attributes.now extensions.now) room.old room.new written.old written.new result }
{
    let inputs = match read_inputs(alloc, subject, key, attributes, extensions) {
        Ok(inputs) => inputs,
        Err(e) => return Status::Refused(e),
    };
    match check_repeated(alloc, inputs.extensions.as_slice()) {
        Ok(()) => fill_part(alloc, inputs, room, written),
        Err(status) => status,
    }
}
