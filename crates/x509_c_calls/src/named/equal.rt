//! Whether names are equal.

ghost use Rattle.std.specs.Prelude.{◌≡◌};
ghost use Rattle.x509_c_calls.specs.NamesMatch.{TellsWhetherNamesEqual};
ghost use Rattle.x509_c_calls.specs.declared.status.status.Status.TheVariants.{Refused};
ghost use Rattle.x509_der.specs.declared.error.ErrorKind.TheVariants.{Memory};

use crate::Status;
use crate::payloads::flag;
use x509_check::Check;
use x509_der::Grammar;
use x509_name::name::Name;

/// Tells whether two encoded names are equal byte for byte: 1 in `equal` where they are, else 0. It takes no memory.
///
/// # Errors
///
/// Where one is no name, `Overlength` where its bytes are more than 268,435,455, else `Malformed`; of the first that is
/// none. `equal` is unchanged then.
#[tactic(auto, unfolding(crate::specs::NamesMatch::TellsWhetherNamesEqual))]
pub fn names_equal(a: &[u8], b: &[u8], equal: &mut u32) -> Status
    ensures told { TellsWhetherNamesEqual ⟦<Name as Grammar>⟧.form ⟦<Name as Grammar>⟧.refuses a.now b.now equal.old equal.new result }
    ensures memory { result ≡ Refused Memory → ⊥ }
{
    if let Err(e) = Name::check(a) {
        return e.into();
    }
    if let Err(e) = Name::check(b) {
        return e.into();
    }
    *equal = flag(a == b);
    Status::Done
}
