//! What the tests ask.

use std::fmt::{Debug, Display};
use x509_der::{Encode, Error, ErrorKind, TryClone};
use x509_ext::ToExtension;
use x509_name::name::Name;

/// Whether these bytes were made.
pub(crate) fn are_bytes(made: Result<Vec<u8>, Error>, bytes: &[u8]) -> bool {
    match made {
        Ok(made) => made.as_slice() == bytes,
        Err(_) => false,
    }
}

/// Whether a value was made, which is written as these bytes.
pub(crate) fn gives<T: Encode + Drop, E: Drop>(
    rt: &HostRuntime,
    made: Result<T, E>,
    bytes: &[u8],
) -> bool {
    match made {
        Ok(value) => are_bytes(value.to_der(rt.alloc()), bytes),
        Err(_) => false,
    }
}

/// Whether the extension that is made for the empty subject is written as these bytes.
pub(crate) fn is_made<T: ToExtension>(rt: &HostRuntime, of: T, bytes: &[u8]) -> bool {
    let made = of.to_extension(rt.alloc(), &Name::new(rt.alloc()), &[]);
    gives(rt, made, bytes)
}

/// Whether the text was made.
pub(crate) fn is_text<E: Drop>(made: Result<String, E>, text: &str) -> bool {
    match made {
        Ok(made) => made.as_str() == text,
        Err(_) => false,
    }
}

/// Whether the value prints the text.
pub(crate) fn is_printed<T: Display>(rt: &HostRuntime, value: &T, text: &str) -> bool {
    is_text(format!(in rt.alloc(); "{value}"), text)
}

/// Whether a value was made, which prints the text.
pub(crate) fn prints<T: Display + Drop>(
    rt: &HostRuntime,
    made: Result<T, Error>,
    text: &str,
) -> bool {
    match made {
        Ok(value) => is_printed(rt, &value, text),
        Err(_) => false,
    }
}

/// Whether a value was made and copied, and `Debug` shows the copy so.
pub(crate) fn shows<T: TryClone + Debug + Drop>(
    rt: &HostRuntime,
    made: Result<T, Error>,
    text: &str,
) -> bool {
    let Ok(value) = made else {
        return false;
    };
    match value.try_clone(rt.alloc()) {
        Ok(copy) => is_text(format!(in rt.alloc(); "{copy:?}"), text),
        Err(_) => false,
    }
}

/// Whether a call was refused so.
pub(crate) fn is_refused<T: Drop>(outcome: Result<T, Error>, kind: ErrorKind) -> bool {
    match outcome {
        Ok(_) => false,
        Err(e) => e.kind() == kind,
    }
}
