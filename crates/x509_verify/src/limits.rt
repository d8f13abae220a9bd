//! How long a path is searched for.

/// How long a path is searched for, and how long it may be.
#[derive(Clone, Copy, Debug, PartialEq, Eq)]
pub struct SearchLimits {
    /// How many candidates may stand between what is trusted and the certificate.
    pub max_depth: u8,

    /// How many times a candidate may be put above others.
    pub max_steps: u32,

    /// How many paths may be validated, of those that lead by their names from what is trusted to the certificate.
    pub max_paths: u32,

    /// How many signatures may be verified. What the verifier was asked once it isn't asked again.
    pub max_signatures: u32,
}

impl Default for SearchLimits {
    ghost use Rattle.std.specs.Prelude.{◌≡◌};

    /// At most 8 candidates, 200,000 steps, 1,000 paths and 100 signatures.
    fn default() -> SearchLimits
        ensures depth { result.max_depth ≡ 8 }
        ensures steps { result.max_steps ≡ 200000 }
        ensures paths { result.max_paths ≡ 1000 }
        ensures signatures { result.max_signatures ≡ 100 }
    {
        SearchLimits {
            max_depth: 8,
            max_steps: 200_000,
            max_paths: 1_000,
            max_signatures: 100,
        }
    }
}
