//! Decodes a line of hex text and encodes it again.
#![tactic(auto)]

use std::process::ExitCode;
use x509_all_types::Types;
use x509_tool_run::{refuse_memory, run, words};

fn main(rt: HostRuntime) -> ExitCode {
    let alloc = rt.alloc();
    let mut writer = rt.stdout();
    let status = match words(alloc, &rt) {
        Ok(words) => run::<Types, _, _>(alloc, words.as_slice(), &mut rt.stdin(), &mut writer),
        Err(_) => refuse_memory(&mut writer),
    };
    ExitCode::from(status)
}
