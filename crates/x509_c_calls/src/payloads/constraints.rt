//! Basic constraints.

use crate::payloads::calls::View;
use crate::payloads::extension::flag;
use x509_ext::pkix::BasicConstraints;

/// Basic constraints: whether the subject is a certification authority, and how many more may stand below it (RFC 5280
/// 4.2.1.9).
#[derive(Clone, Copy)]
#[repr(C)]
pub struct BasicConstraintsView {
    /// 1 where it is a certification authority, else 0.
    pub ca: u32,

    /// 1 where there is a path length constraint, else 0.
    pub has_path_len: u32,

    /// How many intermediate certificates may follow at most; 0 where there is no path length constraint.
    pub path_len: u32,
}

impl View for BasicConstraintsView {
    ghost use Rattle.x509_c_calls.specs.BasicConstraints.{IsBasicConstraints};

    type Value = BasicConstraints;

    ghost shows = { λ bytes constraints behind view. IsBasicConstraints constraints view };

    fn view(_input: &[u8], _place: usize, value: &BasicConstraints) -> BasicConstraintsView {
        let (has_path_len, path_len) = match value.path_len_constraint {
            None => (0, 0),
            Some(path_len) => (1, u32::from(path_len)),
        };
        BasicConstraintsView {
            ca: flag(value.ca),
            has_path_len,
            path_len,
        }
    }
}
