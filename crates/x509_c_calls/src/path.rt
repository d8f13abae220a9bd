//! Paths of certificates, checked or validated apart from their signatures.

mod answer;
mod find;
mod links;
mod path;
mod pieces;
mod places;
mod policies;
mod question;
mod search;
mod settings;
mod validate;
mod views;

pub use answer::PathAnswer;
pub use find::path_find;
pub use path::{Fault, path_check};
pub(crate) use pieces::cut;
pub use question::PathQuestion;
pub use search::{BadLink, FoundPath, PathSearch};
pub(crate) use settings::numbers_of;
pub use validate::{path_validate, path_validate_under_anchor, path_validate_under_key};
pub use views::PathCertificate;
