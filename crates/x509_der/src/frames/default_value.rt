//! Defaults of fields.

/// The default of a field: the value that it has where it is absent (X.690 11.5).
pub trait DefaultValue: Drop {
    ghost use Rattle.std.specs.Prelude.{◌≡◌};
    ghost use Rattle.x509_der.specs.Frames.{Default, IsDefault};

    ghost default: { Default Self };

    /// The default.
    fn default_value() -> Self
        ensures { result ≡ default.default_value };

    /// Whether it is the default.
    fn is_default(&self) -> bool
        ensures { result ≡ default.is_default self.now };

    ghost default_lawful: { IsDefault default };
}
