use ht_base::Bytes;

/// A body of a journal, and the place of its first byte in the file.
#[derive(Drop)]
pub struct Body {
    pub at: u64,
    pub bytes: Bytes,
}
