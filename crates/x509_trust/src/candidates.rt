//! The candidates of a search.

use x509_verify::Pool;

/// The candidates of a search.
#[derive(Drop)]
pub(crate) enum Candidates<'s, 'a> {
    /// All that are given.
    Given(&'s Pool<'a>),

    /// Those that are left.
    Left(Pool<'a>),
}

impl<'s, 'a> Candidates<'s, 'a> {
    ghost use Rattle.std.specs.Prelude.{◌≡◌};
    ghost use Rattle.x509_trust.specs.Searched.{pool_of};

    /// They, by their names.
    pub(crate) fn pool(&self) -> &Pool<'a>
        ensures { result.now ≡ pool_of self.now }
    {
        match self {
            Candidates::Given(pool) => pool,
            Candidates::Left(pool) => pool,
        }
    }
}
