//! The types of this library.

use crate::anchor::Anchors;
use crate::certificate::Certificates;
use crate::constraint::Constraints;
use crate::extension::Payloads;
use crate::general_name::GeneralNameTypes;
use crate::party::Parties;
use crate::policy::Policies;
use crate::revocation::Revocation;
use crate::timestamp::Timestamps;
use std::alloc::Global;
use x509_base::{Raw, Rfc5280};
use x509_codec::{Codec, NameCodec, ProfileName};
use x509_der::Error;
use x509_types::{Base, ByProfile, NameTypes, Names, Numbers, Primitives};

/// The types of this library.
pub struct Types;

type Under<P> = Primitives<Base<P, Names<Payloads<GeneralNameTypes<Parties<Issued<P>>>>>>>;

type Issued<P> = Timestamps<
    Constraints<Policies<Revocation<Certificates<P, Anchors<P, Numbers>>>>>,
>;

type Tables = ByProfile<Under<Rfc5280>, Under<Raw>>;

impl Codec for Types {
    ghost reencodes = { ⟦<Tables as Codec>⟧.reencodes };

    fn reencode(
        alloc: Global,
        name: &str,
        profile: ProfileName,
        bytes: &[u8],
    ) -> Result<Vec<u8>, Error> {
        Tables::reencode(alloc, name, profile, bytes)
    }
}

impl NameCodec for Types {
    ghost use Rattle.x509_types.specs.Naming.{PrintsName, EncodesName};

    ghost prints_name = { PrintsName };

    ghost encodes_name = { EncodesName };

    fn print_name(alloc: Global, bytes: &[u8]) -> Result<String, Error> {
        NameTypes::print_name(alloc, bytes)
    }

    fn encode_name(alloc: Global, text: &str) -> Result<Vec<u8>, Error> {
        NameTypes::encode_name(alloc, text)
    }
}
