//! Which rules certificates, CRLs, CSRs and trust anchors break, in files or on standard input.
#![tactic(auto)]

mod choice;
mod chosen;
mod count;
mod lines;
mod linter;
mod names;
mod run;
mod said;
mod summary;
mod values;
mod wrong;

use crate::linter::Linter;
use crate::run::lint;
use std::fs::File;
use std::io::IsTerminal;
use std::process::ExitCode;
use x509_object_run::{Counter, refuse_memory};
use x509_tool_run::words;

fn main(rt: HostRuntime) -> ExitCode {
    let alloc = rt.alloc();
    let mut reader = rt.stdin();
    let mut writer = rt.stdout();
    let errors = rt.stderr();
    let is_terminal = errors.is_terminal();
    let mut errors = Counter::new(errors, &rt, is_terminal);
    let status = match words(alloc, &rt) {
        Ok(words) => lint::<_, File, _, _, _>(
            alloc,
            words.as_slice(),
            &rt,
            &mut reader,
            &mut writer,
            &mut errors,
        ),
        Err(_) => refuse_memory::<Linter, _>(&mut errors),
    };
    ExitCode::from(status)
}
