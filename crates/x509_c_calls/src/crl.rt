//! What a CRL says.

mod entry;
mod find;
mod index;
mod issued;
mod list;
mod lookup;
mod view;

pub use entry::CrlEntryView;
pub use find::crl_entry_find;
pub use index::{crl_index, crl_index_find};
pub use issued::crl_issued_next;
pub use list::crl_walk;
pub use lookup::{Revocation, crl_lookup};
pub use view::{CrlView, crl_view};
