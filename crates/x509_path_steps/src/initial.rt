//! The name constraints that apply.

ghost use Rattle.std.specs.Prelude.{◌≡◌, ◌++◌, ◌⊎◌, List, MatchResult, OnOk, Option, option_to_list};
ghost use Rattle.x509_constraints.specs.Constraints.{IsUsable};
ghost use Rattle.x509_der.specs.Form.{Spells};
ghost use Rattle.x509_ext.specs.NameConstraints.{name_constraints};
ghost use Rattle.x509_ext.specs.declared.pkix.name_constraints.NameConstraints as values;
ghost use Rattle.x509_path_steps.specs.Inputs.{Inputs, LendsConstraints, LendsInputs};
ghost use Rattle.x509_path_steps.specs.Steps.{AddsLent, Holds, Starts};
ghost use Rattle.x509_path_steps.specs.declared.validation_fault.ValidationFault.TheVariants as faults;

use crate::applied::Applied;
use crate::settings::PathSettings;
use crate::trusted::Trusted;
use crate::validation_fault::ValidationFault;
use std::alloc::{AllocError, Global};
use x509_constraints::is_usable;
use x509_der::{Decode, ErrorKind};
use x509_ext::pkix::NameConstraints;

/// The constraints of which these are the octets, where they can be used.
fn usable_constraints(alloc: Global, octets: &[u8]) -> Result<NameConstraints, ValidationFault>
    ensures { (constraints : values.NameConstraints) → Spells name_constraints constraints octets.now → MatchResult result
        (λ found. (found ≡ constraints) × IsUsable constraints) (λ e. (e ≡ faults.Memory) ⊎ ((e ≡ faults.Initial) × (IsUsable constraints → ⊥))) }
{
    match NameConstraints::from_der(alloc, octets) {
        Ok(constraints) => {
            if !is_usable(&constraints) {
                return Err(ValidationFault::Initial);
            }
            Ok(constraints)
        }
        Err(e) => {
            if e.kind() == ErrorKind::Memory {
                return Err(ValidationFault::Memory);
            }
            Err(ValidationFault::Initial)
        }
    }
}

/// Adds the constraints that are lent, if there are any and they can be used.
fn add_lent(alloc: Global, sets: &mut Applied, lent: Option<&[u8]>) -> Result<(), ValidationFault>
    ensures { (found : Option values.NameConstraints) → LendsConstraints lent.entry found → (applied : List values.NameConstraints) → Holds sets.old applied
        → AddsLent found (applied ++ option_to_list found) sets.new result }
{
    let Some(octets) = lent else {
        return Ok(());
    };
    let constraints = usable_constraints(alloc, octets)?;
    match sets.add(alloc, &constraints) {
        Ok(()) => Ok(()),
        Err(_) => Err(ValidationFault::Memory),
    }
}

/// The constraints of what is trusted and of the caller.
///
/// # Errors
///
/// [`ValidationFault::Initial`] where one of the two can't be decoded or used (RFC 5280 4.2.1.10). [`ValidationFault::Memory`] when out of
/// memory.
pub fn initial_sets(
    alloc: Global,
    trusted: &Trusted<'_>,
    settings: &PathSettings<'_>,
) -> Result<Applied, ValidationFault>
    ensures { (inputs : Inputs) → LendsInputs trusted.now settings.now inputs → Starts inputs result }
{
    let mut sets = Applied::new(alloc);
    if let Err(fault) = add_lent(alloc, &mut sets, trusted.name_constraints) {
        return Err(fault);
    }
    if let Err(fault) = add_lent(alloc, &mut sets, settings.name_constraints) {
        return Err(fault);
    }
    Ok(sets)
}

/// Adds the constraints of a certificate, if it has any.
///
/// # Errors
///
/// Out of memory.
pub fn add_own(
    alloc: Global,
    sets: &mut Applied,
    constraints: &Option<NameConstraints>,
) -> Result<(), AllocError>
    ensures { (applied : List values.NameConstraints) → Holds sets.old applied → OnOk result (Holds sets.new (applied ++ option_to_list constraints.now)) }
{
    match constraints {
        Some(constraints) => sets.add(alloc, constraints),
        None => Ok(()),
    }
}
