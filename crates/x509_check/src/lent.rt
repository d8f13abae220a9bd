//! Values lent from their bytes.

pub(crate) mod certificate;
mod certificate_walk;
mod checked;
pub(crate) mod crl;
pub(crate) mod entries;
pub(crate) mod entry;
pub(crate) mod extension;
pub(crate) mod extensions;
pub(crate) mod fields;
pub(crate) mod revoked;
pub(crate) mod undated;
