//! Runs of the program, also over readers and writers that fail, and its words.

use crate::fakes::{FakeEnv, FakeReader, FakeWriter, Lapse};
use std::alloc::Global;
use std::test::*;
use x509_all_types::Types;
use x509_tool_run::{run, words};

/// Whether the run of the program with these arguments, over what is read and what goes wrong, ends with the status and the text.
fn ends(
    alloc: Global,
    arguments: &[&[u8]],
    bytes: &[u8],
    lapse: Lapse,
    status: u8,
    text: &[u8],
) -> bool {
    let Ok(words) = words(alloc, &FakeEnv { arguments }) else {
        return false;
    };
    let mut reader = FakeReader {
        bytes,
        reads: 0,
        lapse,
    };
    let mut writer = FakeWriter {
        taken: Vec::new(alloc),
        writes: 0,
        lapse,
    };
    let ended = run::<Types, FakeReader, FakeWriter>(
        alloc,
        words.as_slice(),
        &mut reader,
        &mut writer,
    );
    ended == status && writer.taken.as_slice() == text
}

/// A validity from 2002 on, once as RFC 5280 doesn't spell it (4.1.2.5) and once as it does.
const LONG: &[u8] = b"3020180F32303032303130313132303130305A170D3330313233313038333030305A\n";

const SHORT: &[u8] = b"301E170D3032303130313132303130305A170D3330313233313038333030305A\n";

/// The organization B and behind it the common name A, as UTF8Strings, and the text of that name (RFC 4514 2.1).
const BYTES: &[u8] = b"3018310A3008060355040A0C0142310A300806035504030C0141\n";

const TEXT: &[u8] = b"CN=A,O=B\n";

const VALIDITY: &[&[u8]] = &[b"x509_tool", b"reencode", b"validity"];

const RAW: &[&[u8]] = &[b"x509_tool", b"reencode", b"validity", b"raw"];

const NAME: &[&[u8]] = &[b"x509_tool", b"name"];

const ENCODE_NAME: &[&[u8]] = &[b"x509_tool", b"encode-name"];

#[test]
fn commands(rt: HostRuntime) {
    let alloc = rt.alloc();
    let answers = [
        ends(alloc, VALIDITY, LONG, Lapse::Never, 0, SHORT),
        ends(alloc, RAW, LONG, Lapse::Never, 0, LONG),
        ends(alloc, NAME, BYTES, Lapse::Never, 0, TEXT),
        ends(alloc, ENCODE_NAME, TEXT, Lapse::Never, 0, BYTES),
    ];
    assert!(rt; answers == [true; 4]);
}

const PATH: &[&[u8]] = &[b"x509_tool", b"path", b"2020-01-01T00:00:00Z"];

const PATH_ANY: &[&[u8]] = &[
    b"x509_tool",
    b"path",
    b"--any-signature",
    b"2020-01-01T00:00:00Z",
];

/// The certificate of an authority, and below it one that is its own signature's message.
const SIGNED: &[u8] =
    b"3046303A020101300506032A03043000301E170D3130303130313038333030305A170D3330313233313038333030305A3000\
      300A300506032A0304030100300506032A0304030100 \
      308182303A020101300506032A03043000301E170D3130303130313038333030305A170D3330313233313038333030305A3000\
      300A300506032A0304030100300506032A0304\
      033D00303A020101300506032A03043000301E170D3130303130313038333030305A170D3330313233313038333030305A3000\
      300A300506032A0304030100\n";

const UNSIGNED: &[u8] =
    b"3046303A020101300506032A03043000301E170D3130303130313038333030305A170D3330313233313038333030305A3000\
      300A300506032A0304030100300506032A0304030100 \
      3046303A020101300506032A03043000301E170D3130303130313038333030305A170D3330313233313038333030305A3000\
      300A300506032A0304030100300506032A0304030100\n";

/// The certificates of `UNSIGNED` in PEM.
const PEM: &[u8] = b"-----BEGIN CERTIFICATE-----\n\
      MEYwOgIBATAFBgMqAwQwADAeFw0xMDAxMDEwODMwMDBaFw0zMDEyMzEwODMwMDBa\n\
      MAAwCjAFBgMqAwQDAQAwBQYDKgMEAwEA\n\
      -----END CERTIFICATE-----\n\
      -----BEGIN CERTIFICATE-----\n\
      MEYwOgIBATAFBgMqAwQwADAeFw0xMDAxMDEwODMwMDBaFw0zMDEyMzEwODMwMDBa\n\
      MAAwCjAFBgMqAwQDAQAwBQYDKgMEAwEA\n\
      -----END CERTIFICATE-----\n";

/// PEM behind a control character, as DER may hold it.
const PEM_IN_DER: &[u8] = b"\x0C\x7F\n-----BEGIN A-----\nMAA=\n-----END A-----\n\
      -----BEGIN A-----\nMAA=\n-----END A-----\n";

#[test]
fn paths(rt: HostRuntime) {
    let alloc = rt.alloc();
    let answers = [
        ends(alloc, PATH, SIGNED, Lapse::Never, 0, b"ok\n"),
        ends(
            alloc,
            PATH,
            UNSIGNED,
            Lapse::Never,
            1,
            b"fault 0 Signature\n",
        ),
        ends(alloc, PATH_ANY, PEM, Lapse::Never, 0, b"ok\n"),
        ends(
            alloc,
            PATH_ANY,
            PEM_IN_DER,
            Lapse::Never,
            1,
            b"refused: Failed\n",
        ),
    ];
    assert!(rt; answers == [true; 4]);
}

/// The first read that fails ends the reading, the first write that fails or takes nothing the run. None is tried again.
#[test]
fn interrupted(rt: HostRuntime) {
    let alloc = rt.alloc();
    let answers = [
        ends(alloc, NAME, BYTES, Lapse::Read(6), 1, b"refused: Read\n"),
        ends(alloc, NAME, BYTES, Lapse::Write(5), 1, b"CN=A"),
        ends(alloc, NAME, BYTES, Lapse::Full(9), 1, b"CN=A,O=B"),
    ];
    assert!(rt; answers == [true; 3]);
}

/// An argument that needs more space than the first, and one that just fits.
const LONG_WORD: &[u8] = &[b'x'; 200];

const JUST: &[u8] = &[b'y'; 64];

/// The program's name is left out, and what isn't UTF-8 is the empty word.
#[test]
fn words_of_any_length(rt: HostRuntime) -> Result<(), Fail> {
    let env = FakeEnv {
        arguments: &[b"program", LONG_WORD, JUST, b"\xFF"],
    };
    let words = words(rt.alloc(), &env)?;
    assert!(rt;
        match words.as_slice() {
            [long, just, last] => {
                long.as_bytes() == LONG_WORD && just.as_bytes() == JUST && last.is_empty()
            }
            _ => false,
        }
    );
    Ok(())
}
