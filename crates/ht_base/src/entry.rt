/// One call in the history of a machine: the number of the pass that made it, the event, the reply
/// and the state behind it.
///
/// Contracts speak of it. No program makes a value.
pub struct Entry<S, E, R> {
    pub pass: u32,
    pub event: E,
    pub reply: R,
    pub after: S,
}
