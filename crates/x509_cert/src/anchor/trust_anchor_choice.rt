//! A trust anchor.

use crate::anchor::trust_anchor_info::TrustAnchorInfo;
use crate::certificate::{CertificateInner, TbsCertificateInner};
use std::alloc::Global;
use x509_base::{Profile, Rfc5280};
use x509_der::{
    Content, Decode, Encode, Error, ErrorKind, Grammar, Room, Spelled, Tag, TryClone,
    explicit_identifier, read_whole,
};

/// A trust anchor (RFC 5914 3).
///
/// ```text
/// TrustAnchorChoice ::= CHOICE {
///     certificate  Certificate,
///     tbsCert      [1] EXPLICIT TBSCertificate,
///     taInfo       [2] EXPLICIT TrustAnchorInfo }
/// ```
#[derive(Debug, PartialEq, Eq)]
pub enum TrustAnchorChoice<P: Profile = Rfc5280> {
    /// As a certificate.
    Certificate(CertificateInner<P>),

    /// As a TBSCertificate: a certificate without its signature.
    TbsCertificate(TbsCertificateInner<P>),

    /// As a name, a key and constraints.
    TaInfo(TrustAnchorInfo<P>),
}

impl<P: Profile> Drop for TrustAnchorChoice<P> {
    fn drop(self) {
        match self {
            TrustAnchorChoice::Certificate(_) => {}
            TrustAnchorChoice::TbsCertificate(_) => {}
            TrustAnchorChoice::TaInfo(_) => {}
        }
    }
}

impl<P: Profile> TryClone for TrustAnchorChoice<P> {
    fn try_clone(&self, alloc: Global) -> Result<TrustAnchorChoice<P>, Error> {
        Ok(match self {
            TrustAnchorChoice::Certificate(certificate) => {
                TrustAnchorChoice::Certificate(certificate.try_clone(alloc)?)
            }
            TrustAnchorChoice::TbsCertificate(certificate) => {
                TrustAnchorChoice::TbsCertificate(certificate.try_clone(alloc)?)
            }
            TrustAnchorChoice::TaInfo(info) => TrustAnchorChoice::TaInfo(info.try_clone(alloc)?),
        })
    }
}

#[tactic(auto, unfolding(x509_der::specs::Cases::choice_tag))]
impl<P: Profile> Grammar for TrustAnchorChoice<P> {
    ghost use Rattle.x509_base.specs.Checked.{CheckRefuses};
    ghost use Rattle.x509_cert.specs.TrustAnchorChoice as grammar;

    ghost form = { grammar.trust_anchor_choice P.serial_check };

    ghost refuses = { CheckRefuses P.serial_check };

    fn identifier(&self) -> Tag {
        match self {
            TrustAnchorChoice::Certificate(_) => Tag::Sequence,
            TrustAnchorChoice::TbsCertificate(_) => explicit_identifier(1),
            TrustAnchorChoice::TaInfo(_) => explicit_identifier(2),
        }
    }

    fn is_start(octet: u8) -> bool {
        matches!(octet, 0x30 | 0xA1 | 0xA2)
    }

    fn usual() -> Tag {
        Tag::Sequence
    }

    ghost lawful = { grammar.trust_anchor_choice_lawful P.serial_check };
}

#[tactic(auto, unfolding(x509_der::specs::Cases::choice_reading))]
impl<P: Profile> Decode for TrustAnchorChoice<P> {
    fn read(alloc: Global, tag: u8, content: &[u8]) -> Result<TrustAnchorChoice<P>, Error> {
        Ok(match tag {
            0x30 => TrustAnchorChoice::Certificate(CertificateInner::read_content(alloc, content)?),
            0xA1 => TrustAnchorChoice::TbsCertificate(read_whole(alloc, content)?),
            0xA2 => TrustAnchorChoice::TaInfo(read_whole(alloc, content)?),
            _ => return Err(ErrorKind::Malformed.into()),
        })
    }
}

#[tactic(auto, unfolding(x509_der::specs::Cases::choice_content))]
impl<P: Profile> Encode for TrustAnchorChoice<P> {
    ghost use Rattle.x509_cert.specs.TrustAnchorChoice as grammar;
    ghost use Rattle.x509_der.specs.Writing.{respelling};

    ghost writing = { respelling (grammar.written_anchor ⟦<CertificateInner<P> as Encode>⟧.writing ⟦<TbsCertificateInner<P> as Encode>⟧.writing
        ⟦<TrustAnchorInfo<P> as Encode>⟧.writing) };

    fn put_content<R: Room>(&self, room: &mut R) -> Result<(), Error> {
        match self {
            TrustAnchorChoice::Certificate(certificate) => certificate.put_content(room),
            TrustAnchorChoice::TbsCertificate(certificate) => certificate.put_element(room),
            TrustAnchorChoice::TaInfo(info) => info.put_element(room),
        }
    }

    ghost same_tag = { grammar.trust_anchor_choice_same_tag P.serial_check ⟦<CertificateInner<P> as Encode>⟧.writing
        ⟦<TbsCertificateInner<P> as Encode>⟧.writing ⟦<TrustAnchorInfo<P> as Encode>⟧.writing };
}

#[tactic(auto, unfolding(x509_der::specs::Cases::choice_good))]
impl<P: Profile> Spelled for TrustAnchorChoice<P> {
    ghost use Rattle.std.specs.Prelude.{◌≡◌, Ok};
    ghost use Rattle.x509_cert.specs.AnchorMade.{MadeAnchor};

    ghost premise = { MadeAnchor (λ serial. P.serial_check serial ≡ Ok tt) };

    fn has_spelling(&self) {
        match self {
            TrustAnchorChoice::Certificate(certificate) => certificate.has_spelling(),
            TrustAnchorChoice::TbsCertificate(certificate) => certificate.has_spelling(),
            TrustAnchorChoice::TaInfo(info) => info.has_spelling(),
        }
    }
}
