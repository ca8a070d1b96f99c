ghost use Rattle.std.specs.Prelude.{◌≡◌, ◌≤◌, length};
ghost use Rattle.ht_base.specs.Role.{role_name, contains_role, with_role};

/// A generic human role (WS-HumanTask 1.1, 3.1), and the operator of the server.
#[derive(Clone, Copy, Debug, PartialEq, Eq)]
pub enum Role {
    Initiator,
    Stakeholder,
    PotentialOwner,
    ActualOwner,
    Administrator,
    Operator,
}

impl Role {
    /// Every role, in the order in which roles are listed.
    pub const ALL: [Role; 6] = [
        Role::Initiator,
        Role::Stakeholder,
        Role::PotentialOwner,
        Role::ActualOwner,
        Role::Administrator,
        Role::Operator,
    ];

    /// Its name in replies and routes.
    pub fn name(self) -> &'static str
        ensures value { result.now ≡ role_name self }
        ensures short { length result.now ≤ 14 }
    {
        match self {
            Role::Initiator => "initiator",
            Role::Stakeholder => "stakeholder",
            Role::PotentialOwner => "potentialOwner",
            Role::ActualOwner => "actualOwner",
            Role::Administrator => "administrator",
            Role::Operator => "operator",
        }
    }
}

/// A set of roles.
#[derive(Clone, Copy, Debug)]
pub struct Roles {
    pub initiator: bool,
    pub stakeholder: bool,
    pub potential_owner: bool,
    pub actual_owner: bool,
    pub administrator: bool,
    pub operator: bool,
}

impl Roles {
    pub const NONE: Roles = Roles {
        initiator: false,
        stakeholder: false,
        potential_owner: false,
        actual_owner: false,
        administrator: false,
        operator: false,
    };

    pub fn contains(&self, role: Role) -> bool
        ensures { result ≡ contains_role self.now role }
    {
        match role {
            Role::Initiator => self.initiator,
            Role::Stakeholder => self.stakeholder,
            Role::PotentialOwner => self.potential_owner,
            Role::ActualOwner => self.actual_owner,
            Role::Administrator => self.administrator,
            Role::Operator => self.operator,
        }
    }

    /// The set with this role in it.
    pub fn with(self, role: Role) -> Roles
        ensures { result ≡ with_role self role }
    {
        let mut set = self;
        match role {
            Role::Initiator => set.initiator = true,
            Role::Stakeholder => set.stakeholder = true,
            Role::PotentialOwner => set.potential_owner = true,
            Role::ActualOwner => set.actual_owner = true,
            Role::Administrator => set.administrator = true,
            Role::Operator => set.operator = true,
        }
        set
    }
}
