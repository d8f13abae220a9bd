//! CRLs of which the entries stay encoded (RFC 5280 5.1).

ghost use Rattle.std.specs.Option.{option_copied};
ghost use Rattle.std.specs.Prelude.{◌≡◌, Ok};
ghost use Rattle.x509_base.specs.declared.profile.Raw.{Raw};
ghost use Rattle.x509_cert.specs.AnySerial.{any_certificate_list, any_revoked_cert, any_tbs_cert_list};
ghost use Rattle.x509_cert.specs.CertificateList.{certificate_list_contents, tbs_cert_list_contents};
ghost use Rattle.x509_cert.specs.Respelling.{no_check};
ghost use Rattle.x509_der.specs.Form.{universal, whole_reading};
ghost use Rattle.x509_der.specs.Frames.{optional, required};
ghost use Rattle.x509_der.specs.List.{list_of};
ghost use Rattle.x509_der.specs.declared.tag.Tag.TheVariants.{Sequence};
ghost use Rattle.x509_crl_index.specs.Split.{GivesSo, GivesSoBefore, IsKept, IsSplit, IsSplitPart, emptied, kept_octets, read_entries};

use std::alloc::Global;
use x509_base::{AlgorithmIdentifier, Raw, Time};
use x509_cert::certificate::Version;
use x509_cert::crl::{CertificateList, RevokedCert, TbsCertList};
use x509_check::check_members;
use x509_der::{
    Error, ErrorKind, Length, SequenceOf, Tag, end, read_field, read_optional,
    read_optional_explicit, split_usual,
};
use x509_ext::Extensions;
use x509_name::name::Name;
use x509_prim::BitString;

/// Reads the elements of entries, one after the other, each of which is let go.
fn read_each(alloc: Global, octets: &[u8]) -> Result<(), Error>
    ensures { GivesSo (λ _ _. Unit {0}) result (read_entries octets.now) }
{
    let mut rest = octets;
    while !rest.is_empty() {
        read_field::<RevokedCert<Raw>>(alloc, &mut rest)?;
    }
    Ok(())
}

/// Checks that the octets are the elements of entries, one after the other.
fn pass_entries(alloc: Global, octets: &[u8]) -> Result<(), Error>
    ensures { GivesSo (λ _ _. Unit {0}) result (read_entries octets.now) }
{
    // A check takes no more than that.
    if octets.len() > Length::MAX.as_u32() as usize {
        return read_each(alloc, octets);
    }
    check_members::<RevokedCert<Raw>>(octets)
}

/// The elements of the entries, of the list at the front.
#[tactic(auto, unfolding(x509_der::specs::Frames::field_at))]
fn take_list<'a>(alloc: Global, rest: &mut &'a [u8]) -> Result<&'a [u8], Error>
    ensures { GivesSoBefore (λ revoked octets. read_entries octets.now ≡ Ok revoked) result rest.new.now
        ((required (universal Sequence (list_of any_revoked_cert))).reading rest.old.now) }
{
    let piece = split_usual(*rest, Tag::Sequence)?;
    if piece.tag != Tag::Sequence.octet() {
        return Err(ErrorKind::Malformed.into());
    }
    pass_entries(alloc, piece.content)?;
    *rest = piece.rest;
    Ok(piece.content)
}

/// The elements of the entries, of the list at the front; `None` where it is left out.
#[tactic(auto, unfolding(x509_der::specs::Frames::optional_at))]
fn take_entries<'a>(alloc: Global, rest: &mut &'a [u8]) -> Result<Option<&'a [u8]>, Error>
    ensures { GivesSoBefore (λ revoked list. IsKept revoked (option_copied list)) result rest.new.now
        ((optional (universal Sequence (list_of any_revoked_cert))).reading rest.old.now) }
{
    match *rest {
        [octet, ..] if *octet == 0x30 => Ok(Some(take_list(alloc, rest)?)),
        _ => Ok(None),
    }
}

/// The list of entries without these, where there is one.
fn emptied(alloc: Global, list: Option<&[u8]>) -> Option<SequenceOf<RevokedCert<Raw>>>
    ensures { result ≡ emptied (option_copied list.entry) }
{
    match list {
        Some(_) => Some(SequenceOf::new(alloc)),
        None => None,
    }
}

/// The elements of the entries; none where the list is left out.
fn kept_octets(list: Option<&[u8]>) -> &[u8]
    ensures { result.now ≡ kept_octets (option_copied list.entry) }
{
    match list {
        Some(octets) => octets,
        None => &[],
    }
}

/// The part that is signed, of which these are the content octets, without its entries, and the elements of these.
#[tactic(auto, unfolding(x509_cert::specs::CertificateList::tbs_cert_list_fields, x509_der::specs::Frames::fields_reading))]
fn split_part<'a>(alloc: Global, octets: &'a [u8]) -> Result<(TbsCertList<Raw>, &'a [u8]), Error>
    ensures { GivesSo (λ part split. IsSplitPart part split.0 split.1.now) result ((tbs_cert_list_contents {P = Raw} no_check).reading octets.now) }
{
    let mut rest = octets;
    let version = read_optional::<Version>(alloc, &mut rest)?;
    let signature = read_field::<AlgorithmIdentifier>(alloc, &mut rest)?;
    let issuer = read_field::<Name>(alloc, &mut rest)?;
    let this_update = read_field::<Time>(alloc, &mut rest)?;
    let next_update = read_optional::<Time>(alloc, &mut rest)?;
    let list = take_entries(alloc, &mut rest)?;
    let crl_extensions = read_optional_explicit::<Extensions>(alloc, 0, &mut rest)?;
    end(rest)?;
    let part = TbsCertList {
        version,
        signature,
        issuer,
        this_update,
        next_update,
        revoked_certificates: emptied(alloc, list),
        crl_extensions,
    };
    Ok((part, kept_octets(list)))
}

/// Takes the part that is signed at the front.
#[tactic(auto, unfolding(x509_der::specs::Frames::field_at))]
fn take_part<'a>(alloc: Global, rest: &mut &'a [u8]) -> Result<(TbsCertList<Raw>, &'a [u8]), Error>
    ensures { GivesSoBefore (λ part split. IsSplitPart part split.0 split.1.now) result rest.new.now
        ((required (any_tbs_cert_list {P = Raw})).reading rest.old.now) }
{
    let piece = split_usual(*rest, Tag::Sequence)?;
    if piece.tag != Tag::Sequence.octet() {
        return Err(ErrorKind::Malformed.into());
    }
    *rest = piece.rest;
    split_part(alloc, piece.content)
}

/// A CRL of which these are the content octets, without its entries, and the elements of these.
#[tactic(auto, unfolding(x509_cert::specs::CertificateList::certificate_list_fields, x509_der::specs::Frames::fields_reading))]
fn split_content<'a>(
    alloc: Global,
    octets: &'a [u8],
) -> Result<(CertificateList<Raw>, &'a [u8]), Error>
    ensures { GivesSo (λ crl split. IsSplit crl split.0 split.1.now) result ((certificate_list_contents {P = Raw} no_check).reading octets.now) }
{
    let mut rest = octets;
    match take_part(alloc, &mut rest) {
        Ok((tbs_cert_list, entries)) => {
            let signature_algorithm = read_field::<AlgorithmIdentifier>(alloc, &mut rest)?;
            let signature = read_field::<BitString>(alloc, &mut rest)?;
            end(rest)?;
            let crl = CertificateList {
                tbs_cert_list,
                signature_algorithm,
                signature,
            };
            Ok((crl, entries))
        }
        Err(e) => Err(e),
    }
}

/// The CRL that the bytes are the encoding of, without its entries, and the elements of these, one after the other. The list of entries is empty
/// where there is one, and absent where there is none. The entries are checked, one at a time.
///
/// # Errors
///
/// `Malformed` exactly where the bytes are the encoding of no CRL. `Memory` when out of memory.
#[tactic(auto, unfolding(x509_der::specs::Form::whole_reading))]
pub fn split_crl<'a>(
    alloc: Global,
    bytes: &'a [u8],
) -> Result<(CertificateList<Raw>, &'a [u8]), Error>
    ensures { GivesSo (λ crl split. IsSplit crl split.0 split.1.now) result (whole_reading (any_certificate_list {P = Raw}).reading bytes.now) }
{
    let piece = split_usual(bytes, Tag::Sequence)?;
    if !piece.rest.is_empty() || piece.tag != Tag::Sequence.octet() {
        return Err(ErrorKind::Malformed.into());
    }
    split_content(alloc, piece.content)
}
