//! Serial numbers, algorithms and keys.

ghost use Rattle.std.specs.Prelude.{◌≡◌};

use crate::content::CheckContent;
use crate::field::{check_field, check_optional};
use crate::primitive::check_integer;
use x509_base::{AlgorithmIdentifier, Profile, SerialNumber, SubjectPublicKeyInfo};
use x509_der::{Any, Error, ErrorKind, ObjectIdentifier, end};
use x509_prim::BitString;

/// The profile is asked of an INTEGER alone, as in decoding.
#[tactic(auto, unfolding(x509_base::specs::Checked::checked_reading, x509_der::specs::Tested::tested_reading))]
impl<P: Profile> CheckContent for SerialNumber<P> {
    #[inline(always)]
    fn check_content(octets: &[u8]) -> Result<(), Error> {
        if !check_integer(octets) {
            return Err(ErrorKind::Malformed.into());
        }
        P::check_serial_number(octets)
    }
}

#[tactic(auto, unfolding(x509_base::specs::AlgorithmIdentifier::algorithm_identifier_fields, x509_der::specs::Frames::fields_reading))]
impl CheckContent for AlgorithmIdentifier {
    fn check_content(octets: &[u8]) -> Result<(), Error> {
        let mut rest = octets;
        check_field::<ObjectIdentifier>(&mut rest)?;
        check_optional::<Any>(&mut rest)?;
        end(rest)
    }
}

#[tactic(auto, unfolding(x509_base::specs::SubjectPublicKeyInfo::subject_public_key_info_fields, x509_der::specs::Frames::fields_reading))]
impl CheckContent for SubjectPublicKeyInfo {
    fn check_content(octets: &[u8]) -> Result<(), Error> {
        let mut rest = octets;
        check_field::<AlgorithmIdentifier>(&mut rest)?;
        check_field::<BitString>(&mut rest)?;
        end(rest)
    }
}
