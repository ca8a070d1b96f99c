ghost use Rattle.std.specs.Option.{ForSome};
ghost use Rattle.std.specs.Prelude.{◌≡◌, ◌+◌, ◌*◌, ◌^◌, ◌<◌, ◌≤◌, vec_len};
ghost use Rattle.ht_journal.specs.declared.limits.TheConstants.{LONGEST_BODY};

/// The place of the first gate, behind the header.
pub(crate) const FIRST_GATE: u64 = 8;

/// What was read last: `held` bytes of the file from the place `from` on, and the place of the gate
/// behind the first `passed` bodies.
#[derive(Drop)]
pub(crate) struct Reader {
    pub(crate) bytes: Vec<u8>,
    pub(crate) from: u64,
    pub(crate) held: usize,
    pub(crate) gate: u64,
    pub(crate) passed: u32,
    ghost sized: { vec_len bytes ≡ 65536 },
    ghost within: { held ≤ 65536 },
    ghost reach: { from ≤ 2 ^ 32 },
}

/// A journal without its disk. Its calls take the disk, which is to be the same each time.
#[derive(Drop)]
pub struct JournalState {
    // The frame of the body that is appended, with a closed gate behind it. A body in doubt is
    // still there.
    pub(crate) buffer: Vec<u8>,
    pub(crate) reader: Reader,
    // The place behind the closed gate.
    pub(crate) length: u64,
    pub(crate) count: u32,
    pub(crate) limit: u64,
    // The length of the body in doubt.
    pub(crate) doubt: Option<u32>,
    // How far the file was lengthened, where it is lengthened ahead.
    pub(crate) ahead: Option<u64>,
    ghost sized: { vec_len buffer ≡ LONGEST_BODY + 5 },
    ghost limited: { limit ≤ 2 ^ 32 },
    ghost reach: { length ≤ 2 ^ 32 },
    ghost counted: { 9 + 5 * count ≤ length },
    ghost doubted: { ForSome doubt (λ n. (n ≤ LONGEST_BODY) × (length + 5 + n ≤ 2 ^ 32)) },
    ghost passed: { reader.passed ≤ count },
    ghost before: { reader.gate < length },
}
