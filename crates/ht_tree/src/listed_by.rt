/// By what tasks are listed.
#[derive(Clone, Copy, Debug, PartialEq, Eq)]
pub(crate) enum ListedBy {
    /// A sub task by its parent.
    Parent,
    /// A task by each person with a generic human role in it (WS-HumanTask 1.1, 3.1).
    Person,
    /// A task that isn't final by each of these persons.
    Live,
    /// A task by its actual owner.
    Owner,
}
