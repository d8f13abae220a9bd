//! The program's words.

use crate::digest::Report;
use crate::{authority, certificates, crls, names, paths, shown};
use std::alloc::{AllocError, Global};
use std::env;
use x509_der::Error;

/// A workload.
#[derive(Clone, Copy)]
enum Workload {
    Certificates,
    Crls,
    Names,
    Paths,
    Authority,
    Shown,
}

/// All of them, with the count of a small run.
const WORKLOADS: [(Workload, &str, usize); 6] = [
    (Workload::Certificates, "certificates", 100),
    (Workload::Crls, "crls", 2_000),
    (Workload::Names, "names", 256),
    (Workload::Paths, "paths", 64),
    (Workload::Authority, "authority", 32),
    (Workload::Shown, "shown", 32),
];

/// What came of a workload.
fn work(alloc: Global, workload: Workload, count: usize, seed: u64) -> Result<Report, Error> {
    match workload {
        Workload::Certificates => certificates::run(alloc, count, seed),
        Workload::Crls => crls::run(alloc, count, seed),
        Workload::Names => names::run(alloc, count, seed),
        Workload::Paths => paths::run(alloc, count, seed),
        Workload::Authority => authority::run(alloc, count, seed),
        Workload::Shown => shown::run(alloc, count, seed),
    }
}

/// Prints what came of a workload.
fn print(rt: &HostRuntime, name: &str, count: usize, seed: u64, is_small: bool) -> u8 {
    for (workload, named, _) in WORKLOADS {
        if named == name {
            return match work(rt.alloc(), workload, count, seed) {
                Ok(report) => print_report(rt, name, &report, is_small),
                Err(_) => refuse(rt, "out of memory"),
            };
        }
    }
    refuse(rt, USAGE)
}

const USAGE: &str = "usage: x509_bench verify | WORKLOAD COUNT SEED";

/// Prints a line on standard error.
fn refuse(rt: &HostRuntime, line: &str) -> u8 {
    let _ = eprintln!(rt; "{line}");
    2
}

/// Prints a report, without its digest in a small run.
fn print_report(rt: &HostRuntime, name: &str, report: &Report, is_small: bool) -> u8 {
    let objects = report.objects;
    let right = report.right;
    let digest = report.digest.value();
    let printed = if is_small {
        println!(rt; "{name}: {right} of {objects}")
    } else {
        println!(rt; "{name} {objects} {right} {digest:016x}")
    };
    match printed {
        Ok(()) => 0,
        Err(_) => 1,
    }
}

/// A small run of each workload.
fn verify(rt: &HostRuntime) -> u8 {
    for (_, name, count) in WORKLOADS {
        if print(rt, name, count, 7, true) != 0 {
            return 1;
        }
    }
    0
}

/// The program's words.
fn words(rt: &HostRuntime) -> Result<Vec<String>, AllocError> {
    let mut words = Vec::new(rt.alloc());
    if let Ok(arguments) = env::args(rt) {
        for word in arguments.skip(1) {
            words.push(word)?;
        }
    }
    Ok(words)
}

/// The workload of these words.
fn run_words(rt: &HostRuntime, words: &[String]) -> u8 {
    match words {
        [only] => {
            if only.as_str() == "verify" {
                return verify(rt);
            }
        }
        [name, count, seed] => {
            if let (Ok(count), Ok(seed)) = (count.parse::<usize>(), seed.parse::<u64>()) {
                return print(rt, name.as_str(), count, seed, false);
            }
        }
        _ => {}
    }
    refuse(rt, USAGE)
}

/// Runs what the words ask for, and answers the status.
pub(crate) fn run(rt: &HostRuntime) -> u8 {
    match words(rt) {
        Ok(words) => run_words(rt, words.as_slice()),
        Err(AllocError) => refuse(rt, "out of memory"),
    }
}
