//! The defaults of BOOLEAN and INTEGER fields.

use crate::frames::default_value::DefaultValue;

impl DefaultValue for bool {
    ghost use Rattle.x509_der.specs.DefaultValues.{boolean_default, boolean_default_lawful};

    ghost default = { boolean_default };

    fn default_value() -> bool {
        false
    }

    fn is_default(&self) -> bool {
        !*self
    }

    ghost default_lawful = { boolean_default_lawful };
}

impl DefaultValue for u8 {
    ghost use Rattle.x509_der.specs.DefaultValues.{zero_default, zero_default_lawful};

    ghost default = { zero_default };

    fn default_value() -> u8 {
        0
    }

    fn is_default(&self) -> bool {
        *self == 0
    }

    ghost default_lawful = { zero_default_lawful };
}

impl DefaultValue for u16 {
    ghost use Rattle.x509_der.specs.DefaultValues.{zero_default, zero_default_lawful};

    ghost default = { zero_default };

    fn default_value() -> u16 {
        0
    }

    fn is_default(&self) -> bool {
        *self == 0
    }

    ghost default_lawful = { zero_default_lawful };
}

impl DefaultValue for u32 {
    ghost use Rattle.x509_der.specs.DefaultValues.{zero_default, zero_default_lawful};

    ghost default = { zero_default };

    fn default_value() -> u32 {
        0
    }

    fn is_default(&self) -> bool {
        *self == 0
    }

    ghost default_lawful = { zero_default_lawful };
}

impl DefaultValue for u64 {
    ghost use Rattle.x509_der.specs.DefaultValues.{zero_default, zero_default_lawful};

    ghost default = { zero_default };

    fn default_value() -> u64 {
        0
    }

    fn is_default(&self) -> bool {
        *self == 0
    }

    ghost default_lawful = { zero_default_lawful };
}

impl DefaultValue for u128 {
    ghost use Rattle.x509_der.specs.DefaultValues.{zero_default, zero_default_lawful};

    ghost default = { zero_default };

    fn default_value() -> u128 {
        0
    }

    fn is_default(&self) -> bool {
        *self == 0
    }

    ghost default_lawful = { zero_default_lawful };
}
