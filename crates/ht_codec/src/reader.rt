ghost use Rattle.std.specs.Prelude.{◌≡◌, length};
ghost use Rattle.ht_codec.specs.Reading.{place};

/// The bytes that are left, and how many there are in all.
#[derive(Drop)]
pub(crate) struct Reader<'a> {
    pub(crate) whole: u64,
    pub(crate) left: &'a [u8],
}

impl Reader<'_> {
    /// Where the next byte stands.
    pub(crate) fn place(&self) -> u64
        ensures { result ≡ place self.now.whole self.now.left.now }
    {
        self.whole.saturating_sub(self.left.len() as u64)
    }
}
