//! A table for each profile.

use crate::table::Table;
use std::alloc::Global;
use std::marker::PhantomData;
use x509_codec::{Codec, ProfileName};
use x509_der::Error;

/// A table of types as they are decoded and encoded under the profile of RFC 5280, and one of them as they are under
/// none.
pub struct ByProfile<A, B> {
    tables: PhantomData<(A, B)>,
}

#[tactic(auto, unfolding(crate::specs::Table::IsAmong))]
impl<A: Table, B: Table> Codec for ByProfile<A, B> {
    ghost use Rattle.x509_types.specs.Table.{by_profile};

    ghost reencodes = { by_profile A.table B.table };

    fn reencode(
        alloc: Global,
        name: &str,
        profile: ProfileName,
        bytes: &[u8],
    ) -> Result<Vec<u8>, Error> {
        match profile {
            ProfileName::Rfc5280 => A::reencode(alloc, name, bytes),
            ProfileName::Raw => B::reencode(alloc, name, bytes),
        }
    }
}
