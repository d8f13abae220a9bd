//! Certificates, CRLs and CSRs: a part of the table.

use std::alloc::Global;
use std::marker::PhantomData;
use x509_base::Profile;
use x509_cert::certificate::{CertificateInner, TbsCertificateInner, Version};
use x509_cert::crl::{CertificateList, RevokedCert, TbsCertList};
use x509_cert::request::{CertReq, CertReqInfo, ExtensionReq};
use x509_der::{Error, SequenceOf};
use x509_types::{Reencode, Table};

/// Certificates, CRLs and CSRs. Other names are looked up in the next part of the table.
pub struct Certificates<P, T> {
    rest: PhantomData<(P, T)>,
}

#[tactic(auto, using(x509_types::specs::RowLaws::is_found, x509_types::specs::RowLaws::is_passed))]
impl<P: Profile, T: Table> Table for Certificates<P, T> {
    ghost use Rattle.std.specs.Prelude.{codes};
    ghost use Rattle.x509_types.specs.Table.{named, ◌otherwise◌};

    ghost table = { named (codes "CertReq") ⟦<CertReq as Reencode>⟧.reencodes otherwise
        named (codes "CertReqInfo") ⟦<CertReqInfo as Reencode>⟧.reencodes otherwise
        named (codes "Certificate") ⟦<CertificateInner<P> as Reencode>⟧.reencodes otherwise
        named (codes "CertificateList") ⟦<CertificateList<P> as Reencode>⟧.reencodes otherwise
        named (codes "ExtensionReq") ⟦<ExtensionReq as Reencode>⟧.reencodes otherwise
        named (codes "PkiPath") ⟦<SequenceOf<CertificateInner<P>> as Reencode>⟧.reencodes otherwise
        named (codes "RevokedCert") ⟦<RevokedCert<P> as Reencode>⟧.reencodes otherwise
        named (codes "TbsCertList") ⟦<TbsCertList<P> as Reencode>⟧.reencodes otherwise
        named (codes "TbsCertificate") ⟦<TbsCertificateInner<P> as Reencode>⟧.reencodes otherwise
        named (codes "Version") ⟦<Version as Reencode>⟧.reencodes otherwise
        T.table };

    fn reencode(alloc: Global, name: &str, bytes: &[u8]) -> Result<Vec<u8>, Error> {
        match name {
            "CertReq" => CertReq::reencode_as(alloc, bytes),
            "CertReqInfo" => CertReqInfo::reencode_as(alloc, bytes),
            "Certificate" => CertificateInner::<P>::reencode_as(alloc, bytes),
            "CertificateList" => CertificateList::<P>::reencode_as(alloc, bytes),
            "ExtensionReq" => ExtensionReq::reencode_as(alloc, bytes),
            "PkiPath" => SequenceOf::<CertificateInner<P>>::reencode_as(alloc, bytes),
            "RevokedCert" => RevokedCert::<P>::reencode_as(alloc, bytes),
            "TbsCertList" => TbsCertList::<P>::reencode_as(alloc, bytes),
            "TbsCertificate" => TbsCertificateInner::<P>::reencode_as(alloc, bytes),
            "Version" => Version::reencode_as(alloc, bytes),
            _ => T::reencode(alloc, name, bytes),
        }
    }
}
