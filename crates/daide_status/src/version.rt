//! The version of the program.

/// The version of the program, which its help, its log and its package name.
pub const VERSION: &str = "1.1.0";
