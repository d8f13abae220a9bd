//! What a type has whose values sets may have as members.

use crate::order::DerOrd;

/// The order of the encodings under one name, by which a type says its [`SetOrd`]. Each type with an order has it.
pub trait EncodingOrd: DerOrd {
    ghost use Rattle.x509_der.specs.Order.{Order};

    ghost encoding_order: { Order Self };
}

impl<T: DerOrd> EncodingOrd for T {
    ghost use Rattle.x509_der.specs.Writing.{writes};
    ghost use Rattle.x509_der.specs.Order.{der_order};

    ghost encoding_order = { der_order T.form (writes T.writing) T.order };
}

/// The order in which the members of a set stand. A set names it in its type, so each type of members says it for
/// itself, by the name that [`EncodingOrd`] has for it:
///
/// ```text
/// impl SetOrd for Purpose {
///     ghost set_order = { ⟦<Purpose as EncodingOrd>⟧.encoding_order };
/// }
///
/// impl SetMember for Purpose {
///     ghost in_der_order = { refl };
/// }
/// ```
pub trait SetOrd: Sized {
    ghost use Rattle.x509_der.specs.Order.{Order};

    ghost set_order: { Order Self };
}

/// A type whose values sets may have as members: they stand in the order of their encodings (X.690 11.6).
pub trait SetMember: DerOrd + SetOrd {
    ghost use Rattle.std.specs.Prelude.{◌≡◌};
    ghost use Rattle.x509_der.specs.Writing.{writes};
    ghost use Rattle.x509_der.specs.Order.{der_order};

    ghost in_der_order: { Self.set_order ≡ der_order Self.form (writes Self.writing) Self.order };
}
