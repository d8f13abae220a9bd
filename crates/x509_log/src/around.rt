//! What stands around one extension in a list.

ghost use Rattle.std.specs.Prelude.{◌≡◌, [], bytes_eq, MatchOption};
ghost use Rattle.x509_check.specs.ExtensionRefs.{extensions_left};
ghost use Rattle.x509_ext.specs.LookUp.{with_oid};
ghost use Rattle.x509_log.specs.Around.{IsAround, IsFound};

use x509_check::{ExtensionRef, ExtensionRefs};
use x509_der::ObjectIdentifier;

/// What stands around an extension of a list.
#[derive(Clone, Copy)]
pub(crate) struct Around<'a> {
    /// The members before it.
    pub(crate) before: &'a [u8],

    /// Whether it is critical.
    pub(crate) critical: bool,

    /// The encoding of its value.
    pub(crate) value: &'a [u8],

    /// The members behind it.
    pub(crate) behind: ExtensionRefs<'a>,
}

/// What a look-up finds of an extension that may be there once.
#[derive(Clone, Copy)]
pub(crate) enum Found<'a> {
    /// None has the OID.
    Absent,

    /// What stands around the one that has it.
    One(Around<'a>),

    /// Two or more have it.
    Repeated,
}

/// Whether the extension has the OID.
fn has_oid(extension: &ExtensionRef<'_>, oid: &ObjectIdentifier) -> bool
    ensures { result ≡ bytes_eq extension.now.extn_id oid.now }
{
    extension.extn_id.as_bytes() == oid.as_bytes()
}

/// What stands around the first extension with the OID; `None` exactly where none has it.
pub(crate) fn split_around<'a>(
    list: ExtensionRefs<'a>,
    oid: &ObjectIdentifier,
) -> Option<Around<'a>>
    ensures { MatchOption result (with_oid oid.now (extensions_left list.entry) ≡ []) (λ around. IsAround oid.now (extensions_left list.entry) around) }
{
    let all = list.as_bytes();
    let mut rest = list;
    let mut place = 0;
    while let Some(extension) = rest.next() {
        if has_oid(&extension, oid) {
            return Some(Around {
                before: &all[..place],
                critical: extension.critical,
                value: extension.extn_value,
                behind: rest,
            });
        }
        place = all.len() - rest.as_bytes().len();
    }
    None
}

/// What stands around the one extension with the OID, or that there are none or more.
pub(crate) fn find_one<'a>(list: ExtensionRefs<'a>, oid: &ObjectIdentifier) -> Found<'a>
    ensures { IsFound oid.now (extensions_left list.entry) result }
{
    let Some(around) = split_around(list, oid) else {
        return Found::Absent;
    };
    let mut others = around.behind;
    match others.next_with(oid.as_bytes()) {
        Some(_) => Found::Repeated,
        None => Found::One(around),
    }
}
