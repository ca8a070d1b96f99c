use crate::Doubt;
use ht_base::{Bytes, Reply};

/// What is to be kept of an event.
#[derive(Drop)]
pub(crate) struct Entry {
    // The bytes of the record.
    pub(crate) body: Bytes,
    pub(crate) doubt: Doubt,
}

/// What was decided of an event, with all memory that it needs.
#[derive(Drop)]
pub(crate) struct Staged {
    pub(crate) reply: Reply,
    // None where nothing changes.
    pub(crate) entry: Option<Entry>,
}
