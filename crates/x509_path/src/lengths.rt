//! How many certificates that aren't self-issued may still follow (RFC 5280 6.1.4 (l), (m)).

ghost use Rattle.std.specs.Prelude.{◌≡◌, ◌↔◌, IsTrue, Some, false};
ghost use Rattle.x509_path.specs.PathLength as lengths;

/// Whether a certificate that is self-issued, or isn't, may not follow.
pub fn is_over(max_path_length: Option<u32>, is_self_issued: bool) -> bool
    ensures { IsTrue result ↔ ((max_path_length ≡ Some 0) × (is_self_issued ≡ false)) }
{
    match max_path_length {
        Some(max_path_length) => max_path_length == 0 && !is_self_issued,
        None => false,
    }
}

/// How many may follow a certificate that may stand there itself, with that path length constraint or none.
pub fn narrow(
    max_path_length: Option<u32>,
    is_self_issued: bool,
    path_len: Option<u8>,
) -> Option<u32>
    ensures { result ≡ lengths.narrowed max_path_length is_self_issued path_len }
{
    let own = path_len.map(u32::from);
    let Some(max_path_length) = max_path_length else {
        return own;
    };
    let left = if is_self_issued {
        max_path_length
    } else {
        max_path_length.saturating_sub(1)
    };
    match own {
        Some(own) => Some(own.min(left)),
        None => Some(left),
    }
}
