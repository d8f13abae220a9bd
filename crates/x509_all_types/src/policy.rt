//! Policies: a part of the table.

use std::alloc::Global;
use std::marker::PhantomData;
use x509_der::Error;
use x509_ext::pkix::certpolicy::{
    DisplayText, NoticeReference, PolicyInformation, PolicyQualifierInfo, UserNotice,
};
use x509_ext::pkix::{
    CertificatePolicies, InhibitAnyPolicy, PolicyConstraints, PolicyMapping, PolicyMappings,
};
use x509_types::{Reencode, Table};

/// Policies. Other names are looked up in the next part of the table.
pub struct Policies<T> {
    rest: PhantomData<T>,
}

#[tactic(auto, using(x509_types::specs::RowLaws::is_found, x509_types::specs::RowLaws::is_passed))]
impl<T: Table> Table for Policies<T> {
    ghost use Rattle.std.specs.Prelude.{codes};
    ghost use Rattle.x509_types.specs.Table.{named, ◌otherwise◌};

    ghost table = { named (codes "CertificatePolicies") ⟦<CertificatePolicies as Reencode>⟧.reencodes otherwise
        named (codes "DisplayText") ⟦<DisplayText as Reencode>⟧.reencodes otherwise
        named (codes "InhibitAnyPolicy") ⟦<InhibitAnyPolicy as Reencode>⟧.reencodes otherwise
        named (codes "NoticeReference") ⟦<NoticeReference as Reencode>⟧.reencodes otherwise
        named (codes "PolicyConstraints") ⟦<PolicyConstraints as Reencode>⟧.reencodes otherwise
        named (codes "PolicyInformation") ⟦<PolicyInformation as Reencode>⟧.reencodes otherwise
        named (codes "PolicyMapping") ⟦<PolicyMapping as Reencode>⟧.reencodes otherwise
        named (codes "PolicyMappings") ⟦<PolicyMappings as Reencode>⟧.reencodes otherwise
        named (codes "PolicyQualifierInfo") ⟦<PolicyQualifierInfo as Reencode>⟧.reencodes otherwise
        named (codes "UserNotice") ⟦<UserNotice as Reencode>⟧.reencodes otherwise
        T.table };

    fn reencode(alloc: Global, name: &str, bytes: &[u8]) -> Result<Vec<u8>, Error> {
        match name {
            "CertificatePolicies" => CertificatePolicies::reencode_as(alloc, bytes),
            "DisplayText" => DisplayText::reencode_as(alloc, bytes),
            "InhibitAnyPolicy" => InhibitAnyPolicy::reencode_as(alloc, bytes),
            "NoticeReference" => NoticeReference::reencode_as(alloc, bytes),
            "PolicyConstraints" => PolicyConstraints::reencode_as(alloc, bytes),
            "PolicyInformation" => PolicyInformation::reencode_as(alloc, bytes),
            "PolicyMapping" => PolicyMapping::reencode_as(alloc, bytes),
            "PolicyMappings" => PolicyMappings::reencode_as(alloc, bytes),
            "PolicyQualifierInfo" => PolicyQualifierInfo::reencode_as(alloc, bytes),
            "UserNotice" => UserNotice::reencode_as(alloc, bytes),
            _ => T::reencode(alloc, name, bytes),
        }
    }
}
