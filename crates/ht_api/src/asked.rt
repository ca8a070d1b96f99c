ghost use Rattle.std.specs.Prelude.{◌≡◌};
ghost use Rattle.ht_api.specs.Asked.{asked_in};

/// What a request asks of a task, or of a new one.
#[derive(Clone, Copy)]
pub(crate) enum Asked {
    Create,
    Claim,
    Start,
    Stop,
    Release,
    Delegate,
    Forward,
    Nominate,
    Activate,
    SetRole,
    SetPriority,
    Suspend,
    SuspendUntil,
    Resume,
    SetOutput,
    Complete,
    Fail,
    Skip,
    Exit,
    Error,
    AddComment,
    InstantiateSubTask,
}

impl Asked {
    /// The operation of this name on a task that is there.
    pub(crate) fn named(name: &str) -> Option<Asked>
        ensures { result ≡ asked_in name.now }
    {
        match name {
            "claim" => Some(Asked::Claim),
            "start" => Some(Asked::Start),
            "stop" => Some(Asked::Stop),
            "release" => Some(Asked::Release),
            "delegate" => Some(Asked::Delegate),
            "forward" => Some(Asked::Forward),
            "nominate" => Some(Asked::Nominate),
            "activate" => Some(Asked::Activate),
            "setRole" => Some(Asked::SetRole),
            "setPriority" => Some(Asked::SetPriority),
            "suspend" => Some(Asked::Suspend),
            "suspendUntil" => Some(Asked::SuspendUntil),
            "resume" => Some(Asked::Resume),
            "setOutput" => Some(Asked::SetOutput),
            "complete" => Some(Asked::Complete),
            "fail" => Some(Asked::Fail),
            "skip" => Some(Asked::Skip),
            "exit" => Some(Asked::Exit),
            "error" => Some(Asked::Error),
            "addComment" => Some(Asked::AddComment),
            "instantiateSubTask" => Some(Asked::InstantiateSubTask),
            _ => None,
        }
    }
}
