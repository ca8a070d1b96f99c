use ht_base::TaskId;

/// That a task comes to the list of a key, or goes from it.
#[derive(Clone, Copy, Debug, PartialEq, Eq)]
pub struct Move {
    pub key: u32,
    pub task: TaskId,
    pub comes: bool,
}
