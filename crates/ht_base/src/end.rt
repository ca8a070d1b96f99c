use crate::Moment;

/// When a suspension ends by itself.
#[derive(Clone, Copy)]
pub enum End {
    /// At a moment.
    At(Moment),
    /// So many milliseconds after the command has acted.
    After(u64),
}
