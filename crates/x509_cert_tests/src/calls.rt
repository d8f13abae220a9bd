//! What tests ask of answers.

use x509_build::{Error, Result};

/// Whether the error prints as this text.
fn prints(rt: &HostRuntime, error: &Error, text: &str) -> bool {
    match format!(in rt.alloc(); "{error}") {
        Ok(printed) => printed.as_str() == text,
        Err(_) => false,
    }
}

/// Whether the call was refused with this text; where the text is empty, whether it was not refused.
pub(crate) fn is_refused<T: Drop>(rt: &HostRuntime, answer: Result<T>, text: &str) -> bool {
    match &answer {
        Ok(_) => text.is_empty(),
        Err(e) => prints(rt, e, text),
    }
}
