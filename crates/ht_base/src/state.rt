ghost use Rattle.std.specs.Prelude.{◌≡◌, ◌≤◌, length};
ghost use Rattle.ht_base.specs.State as spec;
ghost use Rattle.ht_base.specs.State.{state_name, contains_state, with_state};

/// The state of a task (WS-HumanTask 1.1, 4.10 "Human task behavior and state transitions").
#[derive(Clone, Copy, Debug, PartialEq, Eq)]
pub enum State {
    Created,
    Ready,
    Reserved,
    InProgress,
    SuspendedReady,
    SuspendedReserved,
    SuspendedInProgress,
    Completed,
    Failed,
    Error,
    Exited,
    Obsolete,
}

impl State {
    /// Every state, in the order in which states are listed.
    pub const ALL: [State; 12] = [
        State::Created,
        State::Ready,
        State::Reserved,
        State::InProgress,
        State::SuspendedReady,
        State::SuspendedReserved,
        State::SuspendedInProgress,
        State::Completed,
        State::Failed,
        State::Error,
        State::Exited,
        State::Obsolete,
    ];

    /// Its name in replies, routes and exports.
    pub fn name(self) -> &'static str
        ensures value { result.now ≡ state_name self }
        ensures short { length result.now ≤ 19 }
    {
        match self {
            State::Created => "Created",
            State::Ready => "Ready",
            State::Reserved => "Reserved",
            State::InProgress => "InProgress",
            State::SuspendedReady => "SuspendedReady",
            State::SuspendedReserved => "SuspendedReserved",
            State::SuspendedInProgress => "SuspendedInProgress",
            State::Completed => "Completed",
            State::Failed => "Failed",
            State::Error => "Error",
            State::Exited => "Exited",
            State::Obsolete => "Obsolete",
        }
    }

    /// Whether a task in it has ended well.
    pub fn is_completed(self) -> bool
        ensures { result ≡ spec.is_completed self }
    {
        matches!(self, State::Completed)
    }

    /// Whether a task in it has ended, in whichever way.
    pub fn is_final(self) -> bool
        ensures { result ≡ spec.is_final self }
    {
        matches!(
            self,
            State::Completed | State::Failed | State::Error | State::Exited | State::Obsolete
        )
    }
}

/// A set of states.
#[derive(Clone, Copy, Debug)]
pub struct StateSet {
    pub created: bool,
    pub ready: bool,
    pub reserved: bool,
    pub in_progress: bool,
    pub suspended_ready: bool,
    pub suspended_reserved: bool,
    pub suspended_in_progress: bool,
    pub completed: bool,
    pub failed: bool,
    pub error: bool,
    pub exited: bool,
    pub obsolete: bool,
}

impl StateSet {
    pub const NONE: StateSet = StateSet {
        created: false,
        ready: false,
        reserved: false,
        in_progress: false,
        suspended_ready: false,
        suspended_reserved: false,
        suspended_in_progress: false,
        completed: false,
        failed: false,
        error: false,
        exited: false,
        obsolete: false,
    };

    pub fn contains(&self, state: State) -> bool
        ensures { result ≡ contains_state self.now state }
    {
        match state {
            State::Created => self.created,
            State::Ready => self.ready,
            State::Reserved => self.reserved,
            State::InProgress => self.in_progress,
            State::SuspendedReady => self.suspended_ready,
            State::SuspendedReserved => self.suspended_reserved,
            State::SuspendedInProgress => self.suspended_in_progress,
            State::Completed => self.completed,
            State::Failed => self.failed,
            State::Error => self.error,
            State::Exited => self.exited,
            State::Obsolete => self.obsolete,
        }
    }

    /// The set with this state in it.
    pub fn with(self, state: State) -> StateSet
        ensures { result ≡ with_state self state }
    {
        let mut set = self;
        match state {
            State::Created => set.created = true,
            State::Ready => set.ready = true,
            State::Reserved => set.reserved = true,
            State::InProgress => set.in_progress = true,
            State::SuspendedReady => set.suspended_ready = true,
            State::SuspendedReserved => set.suspended_reserved = true,
            State::SuspendedInProgress => set.suspended_in_progress = true,
            State::Completed => set.completed = true,
            State::Failed => set.failed = true,
            State::Error => set.error = true,
            State::Exited => set.exited = true,
            State::Obsolete => set.obsolete = true,
        }
        set
    }
}
