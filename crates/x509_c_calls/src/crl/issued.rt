//! The entries of an indirect CRL, one after the other, with the issuer of their certificates (RFC 5280 5.3.3).

ghost use Rattle.std.specs.Prelude.{◌≡◌, ◌≤◌, ◌++◌, [], ◌∷◌, None, Ok, Err, drop, length, List, ℕ, Bool, Option, IfSome, IfOk, IfErr, MatchOption};
ghost use Rattle.x509_c_calls.specs.Issued.{IsCarried, StepsIssued};
ghost use Rattle.x509_c_calls.specs.Place.{IsAt};
ghost use Rattle.x509_c_calls.specs.declared.place.span.Span as places;
ghost use Rattle.x509_cert.specs.Issuers.{FindsIssuer, issuers};
ghost use Rattle.x509_der.specs.Form.{spelling};
ghost use Rattle.x509_der.specs.List.{joined};
ghost use Rattle.x509_ext.specs.Extension as grammar;
ghost use Rattle.x509_ext.specs.Identifiers.{id_ce};
ghost use Rattle.x509_ext.specs.LookUp.{members, with_oid};
ghost use Rattle.x509_ext.specs.declared.extension.Extension.{Extension};
ghost use Rattle.x509_ext.specs.declared.pkix.certificate_issuer.CertificateIssuer as issuer;

use crate::crl::entry::CrlEntryView;
use crate::payloads::{ExtensionEntry, next};
use crate::{Span, Status, View, enter, step};
use std::alloc::Global;
use x509_base::Rfc5280;
use x509_cert::crl::RevokedCert;
use x509_der::{AssociatedOid, Decode, Error, Grammar, Tag};
use x509_ext::pkix::CertificateIssuer;
use x509_ext::{Extension, members};

/// Where the octets stand of the first of the extensions that names an issuer. Their bytes begin at the place.
fn first_issuer(input: &[u8], place: usize, extensions: &[Extension]) -> Option<Span>
    requires { place ≤ length input.now }
    ensures none { result ≡ None → with_oid (id_ce 29) extensions.now ≡ [] }
    ensures found { IfSome result (λ span. (more : List ℕ) → drop place input.now ≡ joined (spelling grammar.extension) extensions.now ++ more
        → (before : List Extension) × (first : Extension) × (after : List Extension) × (extensions.now ≡ before ++ first ∷ after)
        × (with_oid (id_ce 29) extensions.now ≡ first ∷ with_oid (id_ce 29) after)
        × IsAt first.extn_value (joined (spelling grammar.extension) after ++ more) input.now span) }
{
    let mut at = place;
    let mut rest = extensions;
    while let Some((first, others)) = rest.split_first() {
        if first.extn_id.as_bytes() == CertificateIssuer::OID.as_bytes() {
            return Some(ExtensionEntry::view(input, at, first).value);
        }
        step(input, &mut at, true);
        rest = others;
    }
    None
}

/// Where the octets stand of the one extension of an entry that names the issuer; `None` where it has none. The bytes of its extensions begin at the place.
///
/// # Errors
///
/// As of [`RevokedCert::get_extension`] with [`CertificateIssuer`].
fn own_issuer(
    alloc: Global,
    input: &[u8],
    place: usize,
    entry: &RevokedCert<Rfc5280>,
) -> Result<Option<Span>, Error>
    requires { place ≤ length input.now }
    ensures found { IfOk result (λ own. (found : Option (Bool × issuer.CertificateIssuer)) × FindsIssuer (issuers entry.now) (Ok found)) }
    ensures place { IfOk result (λ own. MatchOption own (issuers entry.now ≡ [])
        (λ span. (behind : List ℕ) (was : places.Span)
        → drop place input.now ≡ joined (spelling grammar.extension) (members entry.now.crl_entry_extensions) ++ behind
        → IsCarried input.now (members entry.now.crl_entry_extensions) behind (issuers entry.now) was span)) }
    ensures err { IfErr result (λ e. FindsIssuer (issuers entry.now) (Err e)) }
{
    match entry.get_extension::<CertificateIssuer>(alloc) {
        Ok(Some(_)) => Ok(first_issuer(input, place, members(entry.crl_entry_extensions.as_ref()))),
        Ok(None) => Ok(None),
        Err(e) => Err(e),
    }
}

/// Fills in the next entry of a list of entries, and moves the place behind it; and where it names the issuer of its certificate, by the extension
/// [`CertificateIssuer`], where the names stand. So what is in `issuer` behind an entry is in force for it, if it was the place 0 and no length in front of the
/// first one: both are 0 still where no entry up to there names one, and the issuer of the CRL is in force (RFC 5280 5.3.3).
///
/// # Errors
///
/// Those of [`member_next`](crate::member_next). Else `Failed` where the entry has that extension twice or more, and `Malformed` where it holds no names. What
/// is filled in is unchanged then.
#[tactic(auto, unfolding(crate::specs::Issued::StepsIssued))]
pub fn crl_issued_next(
    alloc: Global,
    input: &[u8],
    at: &mut usize,
    issuer: &mut Span,
    found: &mut CrlEntryView,
) -> Status
    ensures { StepsIssued ⟦<RevokedCert<Rfc5280> as Grammar>⟧.form ⟦<RevokedCert<Rfc5280> as Grammar>⟧.refuses ⟦<RevokedCert<Rfc5280> as Decode>⟧.wants_memory
        input.now at.old at.new issuer.old issuer.new found.old found.new result }
{
    let mut behind = *at;
    match next::<RevokedCert<Rfc5280>>(alloc, Tag::Sequence, input, &mut behind) {
        Ok(Some((entry, span))) => {
            let view = CrlEntryView::view(input, span.place, &entry);
            let mut inside = view.extensions.place;
            enter(input, &mut inside);
            match own_issuer(alloc, input, inside, &entry) {
                Ok(own) => {
                    *issuer = own.unwrap_or(*issuer);
                    *at = behind;
                    *found = view;
                    Status::Done
                }
                Err(e) => e.into(),
            }
        }
        Ok(None) => Status::Absent,
        Err(e) => Status::Refused(e),
    }
}
