//! Certificates, CRLs, CSRs and trust anchors in files or on standard input, in lines that a person reads or in JSON.
#![tactic(auto)]

mod beside;
mod pieces;
mod reason;
mod show;
mod timestamps;

use crate::beside::show;
use crate::show::Show;
use std::fs::File;
use std::io::IsTerminal;
use std::process::ExitCode;
use x509_object_run::{Counter, refuse_memory};
use x509_tool_run::words;

fn main(rt: HostRuntime) -> ExitCode {
    let alloc = rt.alloc();
    let mut reader = rt.stdin();
    let mut writer = rt.stdout();
    let errors = rt.stderr();
    let is_terminal = errors.is_terminal();
    let mut errors = Counter::new(errors, &rt, is_terminal);
    let status = match words(alloc, &rt) {
        Ok(words) => show::<_, File, _, _, _>(
            alloc,
            words.as_slice(),
            &rt,
            &mut reader,
            &mut writer,
            &mut errors,
        ),
        Err(_) => refuse_memory::<Show, _>(&mut errors),
    };
    ExitCode::from(status)
}
