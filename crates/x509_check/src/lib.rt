//! Checks: whether bytes are the encoding of a value, told without the value and without memory. A check passes exactly
//! where decoding answers a value, out of memory aside, and is refused with the same error.
//!
//! `Certificate::check(bytes)` of [`Check`] is for those who ask only for a yes. A type of one's own has it by
//! [`CheckContent`], with one call a field.
//!
//! In these docs x is a field, `{n}x` the same under an explicit tag of the number n, `[n]x` under an implicit one, `x?`
//! may be absent, and `x=d` has the default d. Other words of our own are explained in `docs/MAP.md`.
#![tactic(auto)]

mod anchor;
mod base;
mod certificate;
mod check;
mod constraint;
mod content;
mod crl;
mod element;
mod extension;
mod field;
mod general_name;
mod integer;
mod lent;
mod list;
mod name;
mod newtypes;
mod payload;
mod policy;
mod primitive;
mod request;
mod set;
mod text;
mod time;

pub use check::{Check, check_whole, pass_whole};
pub use content::{CheckContent, PlainContent, check_inner};
pub use field::{
    check_defaulted, check_defaulted_explicit, check_defaulted_implicit, check_explicit,
    check_field, check_implicit, check_optional, check_optional_explicit, check_optional_implicit,
};
pub use lent::certificate::CertificateRef;
pub use lent::crl::CrlRef;
pub use lent::entries::CrlEntries;
pub use lent::entry::RevokedCertRef;
pub use lent::extension::ExtensionRef;
pub use lent::extensions::ExtensionRefs;
pub use lent::revoked::find_revoked;
pub use lent::undated::UndatedCertRef;
pub use list::check_members;
pub use newtypes::NewtypeCheck;
pub use set::{CheckMember, check_rising_members};
