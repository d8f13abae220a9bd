//! Runs one of the jobs that users wait for, over made inputs, and prints a digest of all that came of it.
#![tactic(auto)]

mod answers;
mod authority;
mod awkward;
mod certificates;
mod crls;
mod digest;
mod names;
mod objects;
mod paths;
mod random;
mod revoked;
mod shapes;
mod shown;
mod signers;
mod template;
mod texts;
mod words;
mod writer;

use std::process::ExitCode;

fn main(rt: HostRuntime) -> ExitCode {
    ExitCode::from(words::run(&rt))
}
