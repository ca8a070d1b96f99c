/// A task's number, counted from 1 in the order in which the tasks were created. 0 stands where
/// there is no task yet.
#[derive(Clone, Copy, Debug, PartialEq, Eq, PartialOrd, Ord)]
pub struct TaskId(pub u32);
