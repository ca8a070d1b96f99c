//! Limits of an office. Code, contracts and definitions cite them by these names.

/// The length that a journal is given, in bytes, at least.
pub const LEAST_LIMIT: u64 = 1_048_576;

/// The length that a journal is given, in bytes, at most.
pub const GREATEST_LIMIT: u64 = 4_294_967_296;
