//! A digest of all results, and how many of them were right.

/// A digest of 64 bits. It tells results apart, and is no cryptographic one.
#[derive(Drop)]
pub(crate) struct Digest {
    state: u64,
}

impl Digest {
    /// The digest of nothing.
    pub(crate) fn new() -> Digest {
        Digest {
            state: 0x243F_6A88_85A3_08D3,
        }
    }

    /// Takes a number in.
    pub(crate) fn number(&mut self, number: u64) {
        let mixed = (self.state ^ number).wrapping_mul(0x9E37_79B9_7F4A_7C15);
        self.state = mixed.rotate_left(29) ^ (mixed >> 7);
    }

    /// Takes octets in, and how many they are.
    pub(crate) fn octets(&mut self, octets: &[u8]) {
        let (words, rest) = octets.as_chunks::<8>();
        for word in words {
            self.number(u64::from_le_bytes(*word));
        }
        let mut last = octets.len() as u64;
        for octet in rest {
            last = (last << 8) ^ u64::from(*octet);
        }
        self.number(last);
    }

    /// Takes a text in.
    pub(crate) fn text(&mut self, text: &str) {
        self.octets(text.as_bytes());
    }

    /// What came of it.
    pub(crate) fn value(&self) -> u64 {
        self.state
    }
}

/// The digest of a workload's results, how many objects it was given, and how many came out as they should.
#[derive(Drop)]
pub(crate) struct Report {
    /// The digest.
    pub(crate) digest: Digest,

    /// How many objects there were.
    pub(crate) objects: u64,

    /// How many came out as they should.
    pub(crate) right: u64,
}

impl Report {
    /// A report of nothing.
    pub(crate) fn new() -> Report {
        Report {
            digest: Digest::new(),
            objects: 0,
            right: 0,
        }
    }

    /// Counts an object, which came out as it should or not.
    pub(crate) fn count(&mut self, is_right: bool) {
        self.objects = self.objects.wrapping_add(1);
        if is_right {
            self.right = self.right.wrapping_add(1);
        }
        self.digest.number(u64::from(is_right));
    }
}
