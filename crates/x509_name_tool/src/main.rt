//! Decodes a line of hex text and encodes it again, as `x509_tool` does, for the types of names and below alone.
#![tactic(auto)]

use std::process::ExitCode;
use x509_tool_run::{refuse_memory, run_without_paths, words};
use x509_types::NameTypes;

fn main(rt: HostRuntime) -> ExitCode {
    let alloc = rt.alloc();
    let mut writer = rt.stdout();
    let status = match words(alloc, &rt) {
        Ok(words) => run_without_paths::<NameTypes, _, _>(
            alloc,
            words.as_slice(),
            &mut rt.stdin(),
            &mut writer,
        ),
        Err(_) => refuse_memory(&mut writer),
    };
    ExitCode::from(status)
}
