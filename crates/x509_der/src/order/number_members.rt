//! BOOLEAN and INTEGER as members of sets.

ghost use Rattle.std.specs.Prelude.{refl};

use crate::order::member::{EncodingOrd, SetMember, SetOrd};

impl SetOrd for bool {
    ghost set_order = { ⟦<bool as EncodingOrd>⟧.encoding_order };
}

impl SetMember for bool {
    ghost in_der_order = { refl };
}

impl SetOrd for u8 {
    ghost set_order = { ⟦<u8 as EncodingOrd>⟧.encoding_order };
}

impl SetMember for u8 {
    ghost in_der_order = { refl };
}

impl SetOrd for u16 {
    ghost set_order = { ⟦<u16 as EncodingOrd>⟧.encoding_order };
}

impl SetMember for u16 {
    ghost in_der_order = { refl };
}

impl SetOrd for u32 {
    ghost set_order = { ⟦<u32 as EncodingOrd>⟧.encoding_order };
}

impl SetMember for u32 {
    ghost in_der_order = { refl };
}

impl SetOrd for u64 {
    ghost set_order = { ⟦<u64 as EncodingOrd>⟧.encoding_order };
}

impl SetMember for u64 {
    ghost in_der_order = { refl };
}

impl SetOrd for u128 {
    ghost set_order = { ⟦<u128 as EncodingOrd>⟧.encoding_order };
}

impl SetMember for u128 {
    ghost in_der_order = { refl };
}
