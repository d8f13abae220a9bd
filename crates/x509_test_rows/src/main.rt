//! Answers lines of a type's name, a profile and a hex text: decodes the bytes and encodes the value again, and looks whether the type's check says the same.
#![tactic(auto)]

mod checked;
mod checks;

use crate::checked::Checked;
use std::process::ExitCode;
use x509_test_rows_run::run;

fn main(rt: HostRuntime) -> ExitCode {
    let status = run::<Checked, _, _>(rt.alloc(), &mut rt.stdin(), &mut rt.stdout());
    ExitCode::from(status)
}
