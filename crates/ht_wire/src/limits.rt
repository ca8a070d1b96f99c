//! The limits of a request as it comes over the wire. Code, contracts and definitions cite them by these
//! names.

/// The bytes of a request's head, at most; and the room of a buffer until a longer body comes.
pub(crate) const LONGEST_HEAD: usize = 16_384;

/// The fields of a head, at most.
pub(crate) const MOST_FIELDS: usize = 64;

/// The bytes of a body, at most.
pub(crate) const LONGEST_BODY: u64 = 1_048_576;
