//! Which addresses are reserved.

ghost use Rattle.std.specs.List.{list_any};
ghost use Rattle.std.specs.Prelude.{◌≡◌};
ghost use Rattle.x509_lint_web.specs.Address as address;

use x509_lint::lists::{Test, any_of};

/// The blocks of IPv4, of each the first address and the last.
const V4_BLOCKS: [(u32, u32); 18] = [
    // 0.0.0.0/8, this network
    (0x0000_0000, 0x00FF_FFFF),
    // 10.0.0.0/8, private use
    (0x0A00_0000, 0x0AFF_FFFF),
    // 100.64.0.0/10, shared by carriers
    (0x6440_0000, 0x647F_FFFF),
    // 127.0.0.0/8, loopback
    (0x7F00_0000, 0x7FFF_FFFF),
    // 169.254.0.0/16, link-local
    (0xA9FE_0000, 0xA9FE_FFFF),
    // 172.16.0.0/12, private use
    (0xAC10_0000, 0xAC1F_FFFF),
    // 192.0.0.0/24, IETF protocols
    (0xC000_0000, 0xC000_00FF),
    // 192.0.2.0/24, documentation
    (0xC000_0200, 0xC000_02FF),
    // 192.31.196.0/24, AS112
    (0xC01F_C400, 0xC01F_C4FF),
    // 192.52.193.0/24, AMT
    (0xC034_C100, 0xC034_C1FF),
    // 192.88.99.0/24, relays of 6to4
    (0xC058_6300, 0xC058_63FF),
    // 192.168.0.0/16, private use
    (0xC0A8_0000, 0xC0A8_FFFF),
    // 192.175.48.0/24, AS112
    (0xC0AF_3000, 0xC0AF_30FF),
    // 198.18.0.0/15, benchmarking
    (0xC612_0000, 0xC613_FFFF),
    // 198.51.100.0/24, documentation
    (0xC633_6400, 0xC633_64FF),
    // 203.0.113.0/24, documentation
    (0xCB00_7100, 0xCB00_71FF),
    // 224.0.0.0/4, multicast
    (0xE000_0000, 0xEFFF_FFFF),
    // 240.0.0.0/4, reserved
    (0xF000_0000, 0xFFFF_FFFF),
];

/// Those of IPv6.
const V6_BLOCKS: [(u128, u128); 15] = [
    // ::/127, unspecified and loopback
    (
        0x0000_0000_0000_0000_0000_0000_0000_0000,
        0x0000_0000_0000_0000_0000_0000_0000_0001,
    ),
    // ::ffff:0:0/96, IPv4-mapped
    (
        0x0000_0000_0000_0000_0000_FFFF_0000_0000,
        0x0000_0000_0000_0000_0000_FFFF_FFFF_FFFF,
    ),
    // 64:ff9b::/96, NAT64
    (
        0x0064_FF9B_0000_0000_0000_0000_0000_0000,
        0x0064_FF9B_0000_0000_0000_0000_FFFF_FFFF,
    ),
    // 64:ff9b:1::/48, NAT64
    (
        0x0064_FF9B_0001_0000_0000_0000_0000_0000,
        0x0064_FF9B_0001_FFFF_FFFF_FFFF_FFFF_FFFF,
    ),
    // 100::/64, discarded
    (
        0x0100_0000_0000_0000_0000_0000_0000_0000,
        0x0100_0000_0000_0000_FFFF_FFFF_FFFF_FFFF,
    ),
    // 100:0:0:1::/64, dummy
    (
        0x0100_0000_0000_0001_0000_0000_0000_0000,
        0x0100_0000_0000_0001_FFFF_FFFF_FFFF_FFFF,
    ),
    // 2001::/23, IETF protocols
    (
        0x2001_0000_0000_0000_0000_0000_0000_0000,
        0x2001_01FF_FFFF_FFFF_FFFF_FFFF_FFFF_FFFF,
    ),
    // 2001:db8::/32, documentation
    (
        0x2001_0DB8_0000_0000_0000_0000_0000_0000,
        0x2001_0DB8_FFFF_FFFF_FFFF_FFFF_FFFF_FFFF,
    ),
    // 2002::/16, 6to4
    (
        0x2002_0000_0000_0000_0000_0000_0000_0000,
        0x2002_FFFF_FFFF_FFFF_FFFF_FFFF_FFFF_FFFF,
    ),
    // 2620:4f:8000::/48, AS112
    (
        0x2620_004F_8000_0000_0000_0000_0000_0000,
        0x2620_004F_8000_FFFF_FFFF_FFFF_FFFF_FFFF,
    ),
    // 3fff::/20, documentation
    (
        0x3FFF_0000_0000_0000_0000_0000_0000_0000,
        0x3FFF_0FFF_FFFF_FFFF_FFFF_FFFF_FFFF_FFFF,
    ),
    // 5f00::/16, segment routing
    (
        0x5F00_0000_0000_0000_0000_0000_0000_0000,
        0x5F00_FFFF_FFFF_FFFF_FFFF_FFFF_FFFF_FFFF,
    ),
    // fc00::/7, unique local
    (
        0xFC00_0000_0000_0000_0000_0000_0000_0000,
        0xFDFF_FFFF_FFFF_FFFF_FFFF_FFFF_FFFF_FFFF,
    ),
    // fe80::/10, link-local
    (
        0xFE80_0000_0000_0000_0000_0000_0000_0000,
        0xFEBF_FFFF_FFFF_FFFF_FFFF_FFFF_FFFF_FFFF,
    ),
    // ff00::/8, multicast
    (
        0xFF00_0000_0000_0000_0000_0000_0000_0000,
        0xFFFF_FFFF_FFFF_FFFF_FFFF_FFFF_FFFF_FFFF,
    ),
];

/// An address, and that it lies in a block.
#[derive(Clone, Copy)]
struct LiesIn<N>(N);

impl Test<(u32, u32)> for LiesIn<u32> {
    ghost use Rattle.x509_lint_web.specs.Address.{lies_in};

    ghost holds_of = { λ test. lies_in test.0 };

    fn holds_of(&self, block: &(u32, u32)) -> bool {
        block.0 <= self.0 && self.0 <= block.1
    }
}

impl Test<(u128, u128)> for LiesIn<u128> {
    ghost use Rattle.x509_lint_web.specs.Address.{lies_in};

    ghost holds_of = { λ test. lies_in test.0 };

    fn holds_of(&self, block: &(u128, u128)) -> bool {
        block.0 <= self.0 && self.0 <= block.1
    }
}

#[tactic(auto, unfolding(crate::specs::Address::v4_blocks))]
fn is_reserved_v4(number: u32) -> bool
    ensures { result ≡ list_any (address.lies_in number) address.v4_blocks }
{
    any_of(&LiesIn(number), &V4_BLOCKS)
}

#[tactic(auto, unfolding(crate::specs::Address::v6_blocks))]
fn is_reserved_v6(number: u128) -> bool
    ensures { result ≡ list_any (address.lies_in number) address.v6_blocks }
{
    any_of(&LiesIn(number), &V6_BLOCKS)
}

/// Whether the octets are those of a reserved address.
pub(crate) fn is_reserved_address(octets: &[u8]) -> bool
    ensures { result ≡ address.is_reserved_address octets.now }
{
    if let Some(octets) = octets.as_array::<4>() {
        return is_reserved_v4(u32::from_be_bytes(*octets));
    }
    match octets.as_array::<16>() {
        Some(octets) => is_reserved_v6(u128::from_be_bytes(*octets)),
        None => false,
    }
}
