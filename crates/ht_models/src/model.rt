use ht_base::{Moment, Name};
use ht_entries::{Composition, DeadlineKind, Delegation, Part, Setting, SubEntry, Trigger};
use ht_expr::{Assign, Expr};

/// A task model: what all tasks of one kind have in common.
#[derive(Drop)]
pub struct Model {
    pub name: Name,
    /// A number, of which 0 is the highest priority and 10 the lowest. None where none is given,
    /// which means 5.
    pub priority: Option<Expr>,
    pub skipable: bool,
    pub owner_required: bool,
    pub delegation: Delegation,
    /// To whom an owner may delegate, given exactly with [`Delegation::Other`].
    pub delegatees: Option<Assign>,
    pub potential_owners: Assign,
    pub excluded_owners: Assign,
    /// None where none are given.
    pub administrators: Option<Assign>,
    /// None where none are given.
    pub stakeholders: Option<Assign>,
    pub composition: Composition,
    pub instantiation: Trigger,
    pub completion: Trigger,
    pub input: Vec<Part>,
    pub output: Vec<Part>,
    pub subs: Vec<SubEntry>,
    pub deadlines: Vec<Deadline>,
    pub finishes: Vec<Finish>,
    /// How many tasks the tree of a task has, itself included: 1 to `LARGEST_TREE`.
    pub size: u32,
}

/// When a task is to be started or completed (WS-HumanTask 1.1, 4.9). Its end is one of `period`, `at`
/// and `part`.
#[derive(Drop)]
pub struct Deadline {
    pub name: Name,
    pub kind: DeadlineKind,
    /// So many milliseconds after the creation of the task.
    pub period: Option<u64>,
    pub at: Option<Moment>,
    /// The input part that says when.
    pub part: Option<Name>,
    pub escalations: Vec<Escalation>,
}

/// What follows where a deadline is missed: one of `notify` and `reassign` is given.
#[derive(Drop)]
pub struct Escalation {
    pub name: Name,
    /// A condition. None where none is given, which means true.
    pub when: Option<Expr>,
    pub notify: Option<Assign>,
    pub reassign: Option<Assign>,
}

/// A way in which a composite task finishes (WS-HumanTask 1.1, 4.8).
#[derive(Drop)]
pub struct Finish {
    /// Its condition. One without a condition is the default.
    pub when: Option<Expr>,
    pub settings: Vec<Setting>,
}
