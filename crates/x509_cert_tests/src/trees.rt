//! The hash of a tree whose leaves come one after the other.

use sha2::Sha256;
use std::test::*;
use x509_merkle::{Hash, MerkleTree};

/// The leaves of the tree of Certificate Transparency's own tests (`merkle_verifier_test.go` of `certificate-transparency`), and its root.
const LEAVES: [&[u8]; 8] = [
    b"",
    b"\x00",
    b"\x10",
    b"\x20\x21",
    b"\x30\x31",
    b"\x40\x41\x42\x43",
    b"\x50\x51\x52\x53\x54\x55\x56\x57",
    b"\x60\x61\x62\x63\x64\x65\x66\x67\x68\x69\x6a\x6b\x6c\x6d\x6e\x6f",
];

const ROOT_8: Hash = [
    0x5d, 0xc9, 0xda, 0x79, 0xa7, 0x06, 0x59, 0xa9, 0xad, 0x55, 0x9c, 0xb7, 0x01, 0xde, 0xd9, 0xa2,
    0xab, 0x9d, 0x82, 0x3a, 0xad, 0x2f, 0x49, 0x60, 0xcf, 0xe3, 0x70, 0xef, 0xf4, 0x60, 0x43, 0x28,
];

#[test]
fn of_eight_leaves(rt: HostRuntime) {
    let mut tree = MerkleTree::new();
    for leaf in LEAVES {
        assert!(rt; tree.push::<Sha256>(leaf) == Ok(()));
    }
    assert!(rt; tree.root::<Sha256>() == ROOT_8);
}
