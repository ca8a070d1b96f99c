/// The kind of a value: of a task's part, or of an expression.
#[derive(Clone, Copy, Debug, PartialEq, Eq)]
pub enum Kind {
    Text,
    /// A whole number of 64 bits.
    Int,
    Truth,
    Person,
    Instant,
}
