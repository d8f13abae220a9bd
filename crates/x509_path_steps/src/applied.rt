//! The name constraints that apply to a certificate.

use std::alloc::{AllocError, Global};
use x509_constraints::ConstraintSets;
use x509_ext::pkix::NameConstraints;

/// The name constraints that apply, and whether there are any.
pub struct Applied {
    /// The constraints.
    pub sets: ConstraintSets,

    /// Whether there are any.
    pub is_any: bool,
}

impl Drop for Applied {
    fn drop(self) {
        let Applied { sets: _, is_any: _ } = self;
    }
}

impl Applied {
    ghost use Rattle.std.specs.Prelude.{◌++◌, ◌∷◌, [], List, OnOk};
    ghost use Rattle.x509_ext.specs.declared.pkix.name_constraints.NameConstraints as values;
    ghost use Rattle.x509_path_steps.specs.Steps.{Holds};

    /// None. It takes no memory.
    pub(crate) fn new(alloc: Global) -> Applied
        ensures { Holds result [] }
    {
        Applied {
            sets: ConstraintSets::new(alloc),
            is_any: false,
        }
    }

    /// Adds the constraints.
    pub(crate) fn add(
        &mut self,
        alloc: Global,
        constraints: &NameConstraints,
    ) -> Result<(), AllocError>
        ensures { (applied : List values.NameConstraints) → Holds self.old applied → OnOk result (Holds self.new (applied ++ constraints.now ∷ [])) }
    {
        self.is_any = true;
        self.sets.add(alloc, constraints)?;
        Ok(())
    }
}
