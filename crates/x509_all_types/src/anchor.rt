//! Trust anchors.

use std::alloc::Global;
use std::marker::PhantomData;
use x509_base::Profile;
use x509_cert::anchor::{CertPathControls, CertPolicies, TrustAnchorChoice, TrustAnchorInfo};
use x509_der::Error;
use x509_types::{Reencode, Table};

/// Trust anchors.
pub struct Anchors<P, T> {
    rest: PhantomData<(P, T)>,
}

#[tactic(auto, using(x509_types::specs::RowLaws::is_found, x509_types::specs::RowLaws::is_passed))]
impl<P: Profile, T: Table> Table for Anchors<P, T> {
    ghost use Rattle.std.specs.Prelude.{codes};
    ghost use Rattle.x509_types.specs.Table.{named, ◌otherwise◌};

    ghost table = { named (codes "CertPathControls") ⟦<CertPathControls<P> as Reencode>⟧.reencodes otherwise
        named (codes "CertPolicies") ⟦<CertPolicies as Reencode>⟧.reencodes otherwise
        named (codes "TrustAnchorChoice") ⟦<TrustAnchorChoice<P> as Reencode>⟧.reencodes otherwise
        named (codes "TrustAnchorInfo") ⟦<TrustAnchorInfo<P> as Reencode>⟧.reencodes otherwise
        T.table };

    fn reencode(alloc: Global, name: &str, bytes: &[u8]) -> Result<Vec<u8>, Error> {
        match name {
            "CertPathControls" => CertPathControls::<P>::reencode_as(alloc, bytes),
            "CertPolicies" => CertPolicies::reencode_as(alloc, bytes),
            "TrustAnchorChoice" => TrustAnchorChoice::<P>::reencode_as(alloc, bytes),
            "TrustAnchorInfo" => TrustAnchorInfo::<P>::reencode_as(alloc, bytes),
            _ => T::reencode(alloc, name, bytes),
        }
    }
}
