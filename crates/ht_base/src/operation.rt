ghost use Rattle.std.specs.Prelude.{◌≡◌};
ghost use Rattle.ht_base.specs.Events as spec;

/// An operation on a task (WS-HumanTask 1.1, 7.1 "Client operations").
#[derive(Clone, Copy, Debug, PartialEq, Eq)]
pub enum Op {
    Create,
    Claim,
    Start,
    Stop,
    Release,
    Delegate,
    Forward,
    Nominate,
    Activate,
    SetRole,
    SetPriority,
    Suspend,
    SuspendUntil,
    Resume,
    SetOutput,
    Complete,
    Fail,
    Skip,
    Exit,
    Error,
    AddComment,
    InstantiateSubTask,
    Get,
}

impl Op {
    /// Whether it may name the task of this number: 0, so none, exactly for a create.
    pub fn suits(self, task: u32) -> bool
        ensures { result ≡ spec.suits task self }
    {
        match self {
            Op::Create => task == 0,
            _ => task >= 1,
        }
    }
}
