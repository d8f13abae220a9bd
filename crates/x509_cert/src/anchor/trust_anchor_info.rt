//! The description of a trust anchor.

ghost use Rattle.std.specs.Prelude.{◌≡◌, IfErr, IfOk};
ghost use Rattle.x509_cert.specs.TrustAnchorInfo as grammar;
ghost use Rattle.x509_der.specs.Frames.{fields_reading};
ghost use Rattle.x509_der.specs.Outcome.{Gives, GivesBefore};
ghost use Rattle.x509_der.specs.declared.error.ErrorKind.TheVariants.{Memory};

use crate::anchor::cert_path_controls::CertPathControls;
use crate::anchor::version::Version;
use std::alloc::Global;
use x509_base::{Profile, Rfc5280, SubjectPublicKeyInfo};
use x509_der::{
    Content, Encode, Error, PutPart, Room, Spelled, Tag, TryClone, defaulted, end,
    option_has_spelling, optional, optional_explicit, optional_implicit, read_defaulted,
    read_field, read_optional, read_optional_explicit, read_optional_implicit,
};
use x509_ext::Extensions;
use x509_prim::{OctetString, Utf8String};

/// The description of a trust anchor: its key, and what is asked of paths from it (RFC 5914 2). How long the title is
/// isn't checked.
///
/// ```text
/// TrustAnchorInfo ::= SEQUENCE {
///     version         TrustAnchorInfoVersion DEFAULT v1,
///     pubKey          SubjectPublicKeyInfo,
///     keyId           OCTET STRING,
///     taTitle         UTF8String OPTIONAL,
///     certPath        CertPathControls OPTIONAL,
///     exts            [1] EXPLICIT Extensions OPTIONAL,
///     taTitleLangTag  [2] IMPLICIT UTF8String OPTIONAL }
/// ```
#[derive(Debug, PartialEq, Eq)]
pub struct TrustAnchorInfo<P: Profile = Rfc5280> {
    /// The version, which is never encoded, as there is one.
    pub version: Version,

    /// The public key of the anchor.
    pub pub_key: SubjectPublicKeyInfo,

    /// The key identifier.
    pub key_id: OctetString,

    /// A title for people to read.
    pub ta_title: Option<Utf8String>,

    /// Constraints on the paths from the anchor.
    pub cert_path: Option<CertPathControls<P>>,

    /// Extensions.
    pub extensions: Option<Extensions>,

    /// The language of the title.
    pub ta_title_lang_tag: Option<Utf8String>,
}

impl<P: Profile> Drop for TrustAnchorInfo<P> {
    fn drop(self) {
        let TrustAnchorInfo {
            version: _,
            pub_key: _,
            key_id: _,
            ta_title: _,
            cert_path: _,
            extensions: _,
            ta_title_lang_tag: _,
        } = self;
    }
}

/// The fields up to the title. Each half of the fields is read and copied by itself, as in [`TbsCertificateInner`](crate::certificate::TbsCertificateInner).
type Front = (
    Version,
    (SubjectPublicKeyInfo, (OctetString, Option<Utf8String>)),
);

/// The fields behind it.
type Behind<P> = (
    Option<CertPathControls<P>>,
    (Option<Extensions>, Option<Utf8String>),
);

/// Copies of the fields up to the title.
fn clone_front<P: Profile>(alloc: Global, info: &TrustAnchorInfo<P>) -> Result<Front, Error>
    ensures ok { IfOk result (λ copies. copies ≡ (info.now.version, (info.now.pub_key, (info.now.key_id, info.now.ta_title)))) }
    ensures err { IfErr result (λ e. e.kind ≡ Memory) }
{
    let pub_key = info.pub_key.try_clone(alloc)?;
    let key_id = info.key_id.try_clone(alloc)?;
    let ta_title = info.ta_title.try_clone(alloc)?;
    Ok((info.version, (pub_key, (key_id, ta_title))))
}

/// Copies of the fields behind it.
fn clone_behind<P: Profile>(alloc: Global, info: &TrustAnchorInfo<P>) -> Result<Behind<P>, Error>
    ensures ok { IfOk result (λ copies. copies ≡ (info.now.cert_path, (info.now.extensions, info.now.ta_title_lang_tag))) }
    ensures err { IfErr result (λ e. e.kind ≡ Memory) }
{
    let cert_path = info.cert_path.try_clone(alloc)?;
    let extensions = info.extensions.try_clone(alloc)?;
    let ta_title_lang_tag = info.ta_title_lang_tag.try_clone(alloc)?;
    Ok((cert_path, (extensions, ta_title_lang_tag)))
}

impl<P: Profile> TryClone for TrustAnchorInfo<P> {
    fn try_clone(&self, alloc: Global) -> Result<TrustAnchorInfo<P>, Error> {
        let (version, (pub_key, (key_id, ta_title))) = clone_front(alloc, self)?;
        let (cert_path, (extensions, ta_title_lang_tag)) = clone_behind(alloc, self)?;
        Ok(TrustAnchorInfo {
            version,
            pub_key,
            key_id,
            ta_title,
            cert_path,
            extensions,
            ta_title_lang_tag,
        })
    }
}

/// Reads the fields up to the title.
#[inline(always)]
fn read_front(alloc: Global, rest: &mut &[u8]) -> Result<Front, Error>
    ensures { GivesBefore result rest.new.now (grammar.trust_anchor_info_front.reading rest.old.now) }
{
    let version = read_defaulted::<Version>(alloc, rest)?;
    let pub_key = read_field::<SubjectPublicKeyInfo>(alloc, rest)?;
    let key_id = read_field::<OctetString>(alloc, rest)?;
    let ta_title = read_optional::<Utf8String>(alloc, rest)?;
    Ok((version, (pub_key, (key_id, ta_title))))
}

/// Reads the fields behind the title, which end the octets.
#[tactic(auto, unfolding(x509_der::specs::Frames::fields_reading))]
#[inline(always)]
fn read_behind<P: Profile>(alloc: Global, octets: &[u8]) -> Result<Behind<P>, Error>
    ensures { Gives result (fields_reading (λ behind. behind) (grammar.trust_anchor_info_behind P.serial_check) octets.now) }
{
    let mut rest = octets;
    let cert_path = read_optional::<CertPathControls<P>>(alloc, &mut rest)?;
    let extensions = read_optional_explicit::<Extensions>(alloc, 1, &mut rest)?;
    let ta_title_lang_tag = read_optional_implicit::<Utf8String>(alloc, 2, &mut rest)?;
    end(rest)?;
    Ok((cert_path, (extensions, ta_title_lang_tag)))
}

#[tactic(auto, unfolding(crate::specs::TrustAnchorInfo::trust_anchor_info_fields, x509_der::specs::Frames::fields_reading, x509_der::specs::Frames::fields_octets), using(x509_der::specs::FrameWriting::text_in_option, x509_der::specs::FrameWriting::refusal_in_option))]
impl<P: Profile> Content for TrustAnchorInfo<P> {
    ghost use Rattle.x509_base.specs.Checked.{CheckRefuses};
    ghost use Rattle.x509_cert.specs.TrustAnchorInfo as grammar;
    ghost use Rattle.x509_der.specs.declared.tag.Tag.TheVariants.{Sequence};

    ghost contents = { grammar.trust_anchor_info_contents P.serial_check };

    ghost refusals = { CheckRefuses P.serial_check };

    ghost written_as = { grammar.info_writing ⟦<CertPathControls<P> as Encode>⟧.writing };

    ghost IDENTIFIER = { Sequence };

    const IDENTIFIER: Tag = Tag::Sequence;

    fn read_content(alloc: Global, octets: &[u8]) -> Result<TrustAnchorInfo<P>, Error> {
        let mut rest = octets;
        let (version, (pub_key, (key_id, ta_title))) = read_front(alloc, &mut rest)?;
        let (cert_path, (extensions, ta_title_lang_tag)) = read_behind::<P>(alloc, rest)?;
        Ok(TrustAnchorInfo {
            version,
            pub_key,
            key_id,
            ta_title,
            cert_path,
            extensions,
            ta_title_lang_tag,
        })
    }

    fn write_content<R: Room>(&self, room: &mut R) -> Result<(), Error> {
        let front = (
            defaulted(&self.version),
            (&self.pub_key, (&self.key_id, optional(&self.ta_title))),
        );
        let behind = (
            optional(&self.cert_path),
            (
                optional_explicit(1, &self.extensions),
                optional_implicit(2, &self.ta_title_lang_tag),
            ),
        );
        (front, behind).put_part(room)
    }

    ghost contents_lawful = { grammar.trust_anchor_info_contents_lawful P.serial_check };
}

#[tactic(auto, unfolding(crate::specs::TrustAnchorInfo::trust_anchor_info_fields, x509_der::specs::Frames::fields_good))]
impl<P: Profile> Spelled for TrustAnchorInfo<P> {
    ghost use Rattle.std.specs.Prelude.{◌≡◌, Ok};
    ghost use Rattle.x509_cert.specs.AnchorMade.{MadeInfo};

    ghost premise = { MadeInfo (λ serial. P.serial_check serial ≡ Ok tt) };

    fn has_spelling(&self) {
        self.version.has_spelling();
        self.pub_key.has_spelling();
        self.key_id.has_spelling();
        option_has_spelling(&self.ta_title);
        option_has_spelling(&self.cert_path);
        option_has_spelling(&self.extensions);
        option_has_spelling(&self.ta_title_lang_tag);
    }
}
