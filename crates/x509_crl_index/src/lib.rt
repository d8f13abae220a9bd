//! CRLs of which the entries stay encoded: an index over the entries, for a CRL that is asked often; a CRL without its entries, and whether two
//! of these have one serial number. An index that is kept apart from the CRL, as C keeps it, is made and asked by calls over octets:
//! [`place_count`], [`index_places`], [`place_of`].
//!
//! Words of our own, such as lent, are explained in `docs/MAP.md`.
#![tactic(auto)]

mod entry;
mod index;
mod number;
mod octets;
mod places;
mod serials;
mod split;

pub use index::CrlIndex;
pub use number::octets_at;
pub use places::{index_places, place_count, place_of};
pub use serials::are_serials_distinct;
pub use split::split_crl;
