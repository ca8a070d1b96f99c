/// The bytes of a body, at most. Code, contracts and definitions cite it by this name.
pub const LONGEST_BODY: u32 = 1_048_576;

/// How far behind the end of a body a file is lengthened, where it is lengthened ahead. Code, contracts
/// and definitions cite it by this name.
pub const AHEAD: u32 = 65_536;
