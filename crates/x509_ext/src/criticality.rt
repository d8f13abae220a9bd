//! Whether extensions are critical.

use crate::extension::Extension;
use x509_name::name::Name;

/// A payload that says whether its extension is critical, where the caller does not (RFC 5280 4.2).
pub trait Criticality {
    ghost use Rattle.std.specs.Prelude.{◌≡◌, Bool, List};
    ghost use Rattle.x509_name.specs.declared.attr.type_and_value.AttributeTypeAndValue.{AttributeTypeAndValue};
    ghost use Rattle.x509_ext.specs.declared.extension.Extension.{Extension};

    /// Whether it is, under that subject and behind those extensions.
    ghost is_critical: { Self → List (List AttributeTypeAndValue) → List Extension → Bool };

    /// Whether the extension is critical in a certificate of that subject, behind those extensions.
    fn criticality(&self, subject: &Name, extensions: &[Extension]) -> bool
        ensures { result ≡ is_critical self.now subject.now extensions.now };
}

/// An answer that is the same for all extensions of a type: [`Always`] or [`Never`].
pub trait FixedAnswer {
    ghost use Rattle.std.specs.Prelude.{Bool};

    ghost ANSWER: { Bool };

    /// The answer.
    const ANSWER: bool;
}

/// The extension is critical in every certificate.
#[derive(Clone, Copy, Debug)]
pub struct Always;

impl FixedAnswer for Always {
    ghost use Rattle.std.specs.Prelude.{true};

    ghost ANSWER = { true };

    const ANSWER: bool = true;
}

/// The extension is critical in no certificate.
#[derive(Clone, Copy, Debug)]
pub struct Never;

impl FixedAnswer for Never {
    ghost use Rattle.std.specs.Prelude.{false};

    ghost ANSWER = { false };

    const ANSWER: bool = false;
}

/// A payload whose extensions are all critical, or none of them. From it comes [`Criticality`].
pub trait FixedCriticality {
    /// [`Always`] or [`Never`].
    type Critical: FixedAnswer;
}

impl<T: FixedCriticality> Criticality for T {
    ghost is_critical = { λ payload subject extensions. T.Critical.ANSWER };

    fn criticality(&self, _subject: &Name, _extensions: &[Extension]) -> bool {
        T::Critical::ANSWER
    }
}
