//! The version of the programs.

/// The version of the programs.
pub const VERSION: &str = "0.1.0";
