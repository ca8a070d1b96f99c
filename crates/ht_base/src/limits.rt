//! The limits that users of the server meet. Code, contracts and definitions of all crates cite them by
//! these names, so that one is changed here alone. docs/USING.md says them in numbers.

// ---- what a request gives

/// The priority that is the lowest: the numbers from 0, the highest, to this one are priorities.
pub const LOWEST_PRIORITY: u8 = 10;

/// The priority of a task whose model gives none, and the one that a model's expression sees.
pub const MIDDLE_PRIORITY: u8 = 5;

/// The last device of a person: its devices have the numbers from 0 to this one.
pub const LAST_DEVICE: u8 = 15;

/// The last number of a command of a device: they have the numbers from 1 to this one.
pub const LAST_NUMBER: u32 = 4_294_967_295;

/// The bytes of a name, at most.
pub const LONGEST_NAME: usize = 32;

/// The bytes of a text, at most: of the value of a part, and of a comment.
pub const LONGEST_TEXT: usize = 512;

/// The comments on a task, at most.
pub const MOST_COMMENTS: usize = 32;

/// The names in a list of persons that a request gives, at most.
pub const MOST_NAMES: usize = 1024;

/// The rows that a list tells at once, at most.
pub const MOST_LISTED: u32 = 100;

/// The decimal digits of a number in a period, at most.
pub const MOST_DIGITS: usize = 6;

/// The milliseconds of the longest period that a text gives: 999,999 days, hours, minutes and seconds, by
/// [`MOST_DIGITS`].
pub const LONGEST_PERIOD: u64 = 90_060_909_939_000;

/// The tasks there are at once, at most: for each the tasks of its tree are counted that may still be
/// made.
pub const MOST_TASKS: u128 = 50_000;

// ---- the texts of an office

/// The bytes of a people text, and of a models text, at most.
pub const LONGEST_OFFICE_TEXT: u32 = 262_144;

// ---- what a people text says

/// The persons of an office, at most.
pub const MOST_PERSONS: usize = 1024;

/// The groups of an office, at most.
pub const MOST_GROUPS: usize = 256;

/// The memberships in a chain from a group to a member, at most.
pub const LONGEST_CHAIN: u32 = 8;

// ---- what a models text says

/// The models of an office, at most.
pub const MOST_MODELS: usize = 256;

/// The input parts of a model, at most, and its output parts; so also the parts that a request gives.
pub const MOST_PARTS: usize = 8;

/// The sub entries of a model, at most.
pub const MOST_SUBS: usize = 8;

/// The deadlines of one kind of a model, at most.
pub const MOST_DEADLINES: usize = 2;

/// The escalations of a deadline, at most.
pub const MOST_ESCALATIONS: usize = 4;

/// The bytes of the delimiter of texts that are joined, at most.
pub const LONGEST_DELIMITER: usize = 16;

/// The tokens of an expression or an assignment, which are words, names and marks, at most.
pub const MOST_TOKENS: usize = 128;

/// The levels of the tree of a model, at most. The model itself is one.
pub const MOST_LEVELS: u32 = 5;

/// The tasks of the tree of a model, at most. The task of the model itself is one.
pub const LARGEST_TREE: u32 = 256;
