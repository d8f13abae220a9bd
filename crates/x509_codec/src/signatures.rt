//! Which signatures on a path are accepted.

/// Which signatures on a path are accepted by a checker that has no algorithms.
#[derive(Clone, Copy, Debug, PartialEq, Eq)]
pub enum Signatures {
    /// One that is the message itself. No real signature is one.
    Echoes,

    /// Any: no signature is looked at.
    Any,
}
