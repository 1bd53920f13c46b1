//! The version of the command and of the library.

/// The version, as `--version` prints it.
pub const VERSION: &str = "0.1.0";
