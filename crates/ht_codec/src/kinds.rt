/// The kinds of records.
#[derive(Clone, Copy)]
pub(crate) enum RecordKind {
    Opening,
    Turn,
    Asked,
}

/// The kinds of scalars.
#[derive(Clone, Copy)]
pub(crate) enum ScalarKind {
    Text,
    Int,
    Truth,
}

/// The kinds of ends of a suspension.
#[derive(Clone, Copy)]
pub(crate) enum EndKind {
    At,
    After,
}
