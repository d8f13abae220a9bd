//! What a trust anchor says.

mod anchor;
mod controls;
mod info;
mod part;

pub use anchor::AnchorView;
pub use controls::PathControlsView;
