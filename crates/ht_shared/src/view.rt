//! What contracts say that a pass knows.
use ht_base::Entry;
use std::collections::LinkedList;

/// What a pass knows. Contracts speak of it, and no program makes a value.
pub struct View<T, E, R> {
    /// The machine at the beginning. There is none before the machine lies in the slot, and in
    /// what a join leaves of the pass that was joined.
    pub start: Option<T>,
    pub number: u32,
    /// The history up to the last call of this pass, or of a pass that was joined into it.
    pub seen: LinkedList<Entry<T, E, R>>,
    /// The numbers of the passes that were joined into this one.
    pub ended: LinkedList<u32>,
    /// The word `next`, as it was found where no ticket was left.
    pub drawn: u64,
    /// The word `count`, as it was found then.
    pub found: u64,
    /// How many passes were given so far, the first one included. The first pass alone knows it.
    pub given: u32,
    /// A number that was drawn and isn't given yet. The first pass alone has one.
    pub to_give: Option<u32>,
    pub ticket: Option<u64>,
    /// Its turn has come, and it holds the machine.
    pub inside: bool,
    /// It has entered its call, and its turn isn't passed on yet.
    pub entered: bool,
    /// The two passes that the last join made one: their numbers, and what each had seen.
    pub before: LinkedList<(LinkedList<u32>, LinkedList<Entry<T, E, R>>)>,
}
