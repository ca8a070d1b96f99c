/// A list of persons of a task that its administrators may replace (WS-HumanTask 1.1, 3.1).
#[derive(Clone, Copy)]
pub enum RoleList {
    PotentialOwners,
    ExcludedOwners,
    Administrators,
    Stakeholders,
}
