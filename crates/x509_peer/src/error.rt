//! Texts that are no names of peers.

/// Why a text was refused.
#[derive(Clone, Copy, Debug, PartialEq, Eq, thiserror::Error)]
pub enum InvalidName {
    /// It is neither a DNS name nor an IP address.
    #[error("neither a DNS name nor an IP address")]
    Server,

    /// It is no address of e-mail.
    #[error("no e-mail address")]
    Email,
}
