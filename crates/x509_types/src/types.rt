//! The types of names and below.

use crate::base::Base;
use crate::by_profile::ByProfile;
use crate::name::Names;
use crate::numbers::Numbers;
use crate::primitive::Primitives;
use std::alloc::Global;
use x509_base::{Raw, Rfc5280};
use x509_codec::{Codec, NameCodec, ProfileName};
use x509_der::{Decode, Error};
use x509_name::name::{Name, RdnSequence};

/// The types of names and below: what stands on no extension.
pub struct NameTypes;

type Tables = ByProfile<
    Primitives<Base<Rfc5280, Names<Numbers>>>,
    Primitives<Base<Raw, Names<Numbers>>>,
>;

impl Codec for NameTypes {
    ghost reencodes = { ⟦<Tables as Codec>⟧.reencodes };

    fn reencode(
        alloc: Global,
        name: &str,
        profile: ProfileName,
        bytes: &[u8],
    ) -> Result<Vec<u8>, Error> {
        Tables::reencode(alloc, name, profile, bytes)
    }
}

#[tactic(auto, unfolding(crate::specs::Naming::PrintsName, crate::specs::Naming::EncodesName))]
impl NameCodec for NameTypes {
    ghost use Rattle.x509_types.specs.Naming.{PrintsName, EncodesName};

    ghost prints_name = { PrintsName };

    ghost encodes_name = { EncodesName };

    fn print_name(alloc: Global, bytes: &[u8]) -> Result<String, Error> {
        let name = Name::from_der(alloc, bytes)?;
        Ok(name.to_string(alloc)?)
    }

    fn encode_name(alloc: Global, text: &str) -> Result<Vec<u8>, Error> {
        RdnSequence::encode_from_string(alloc, text)
    }
}
