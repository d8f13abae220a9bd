//! Extensions.

use crate::content::CheckContent;
use crate::field::{check_defaulted, check_field};
use x509_der::{Error, ObjectIdentifier, end};
use x509_ext::Extension;
use x509_prim::OctetString;

#[tactic(auto, unfolding(x509_ext::specs::Extension::extension_fields, x509_der::specs::Frames::fields_reading))]
impl CheckContent for Extension {
    fn check_content(octets: &[u8]) -> Result<(), Error> {
        let mut rest = octets;
        check_field::<ObjectIdentifier>(&mut rest)?;
        check_defaulted::<bool>(&mut rest)?;
        check_field::<OctetString>(&mut rest)?;
        end(rest)
    }
}
