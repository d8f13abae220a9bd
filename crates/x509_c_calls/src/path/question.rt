//! What is asked of a path.

/// What is asked of a path, apart from what is trusted.
#[derive(Clone, Copy)]
pub struct PathQuestion<'a> {
    /// The certificates one behind the other, the topmost first.
    pub path: &'a [u8],

    /// How many bytes each has.
    pub lens: &'a [usize],

    /// The initial permitted and excluded subtrees (RFC 5280 6.1.1 (h), (i)), as the encoding of a NameConstraints; no bytes where there are none.
    pub name_constraints: &'a [u8],

    /// The policies that the caller accepts (RFC 5280 6.1.1 (c)), as the encoding of a CertificatePolicies, whose qualifiers aren't looked at; no bytes
    /// where any.
    pub policies: &'a [u8],

    /// The time, in seconds since 1970-01-01T00:00:00Z; flags (RFC 5280 6.1.1 (e), (f), (g)): 1 where a policy is asked for, 2 where policies may not be
    /// mapped, 4 where any-policy counts for nothing, 8 where purposes are asked of the last certificate alone, 16 where those of version 1 are authorities,
    /// added up; the bits that the last certificate's KeyUsage has to have; the known purposes of which one is asked for, a bit for each; and how many octets
    /// another purpose has, and 64 places for them. Each number stands in eight octets, the lowest first; zeros may be left out behind the second, and stand
    /// behind it all.
    pub settings: &'a [u8],
}
