//! Whether names match.

ghost use Rattle.std.specs.Prelude.{◌≡◌};
ghost use Rattle.x509_c_calls.specs.NamesMatch.{TellsWhetherNamesMatch};
ghost use Rattle.x509_c_calls.specs.declared.status.status.Status.TheVariants.{Refused};
ghost use Rattle.x509_der.specs.declared.error.ErrorKind.TheVariants.{Memory};

use crate::Status;
use crate::payloads::flag;
use std::alloc::Global;
use x509_check::Check;
use x509_der::{ErrorKind, Grammar};
use x509_match::checked_names_match;
use x509_name::name::Name;

/// Tells whether two encoded names match (RFC 5280 7.1): 1 in `matches` where they do, else 0.
///
/// # Errors
///
/// Where one is no name, `Overlength` where its bytes are more than 268,435,455, else `Malformed`; of the first that is
/// none. `Memory` when out of memory, only where the encodings differ, and a value is a BMPString or a UTF8String beyond
/// ASCII, or an RDN has more than 16 attributes. `matches` is unchanged then.
#[tactic(auto, unfolding(crate::specs::NamesMatch::TellsWhetherNamesMatch))]
pub fn names_match(alloc: Global, a: &[u8], b: &[u8], matches: &mut u32) -> Status
    ensures told { TellsWhetherNamesMatch ⟦<Name as Grammar>⟧.form ⟦<Name as Grammar>⟧.refuses a.now b.now matches.old matches.new result }
    ensures equal { a.now ≡ b.now → result ≡ Refused Memory → ⊥ }
{
    if let Err(e) = Name::check(a) {
        return e.into();
    }
    if let Err(e) = Name::check(b) {
        return e.into();
    }
    match checked_names_match(alloc, a, b) {
        Ok(found) => {
            *matches = flag(found);
            Status::Done
        }
        Err(_) => Status::Refused(ErrorKind::Memory),
    }
}
