ghost use Rattle.std.specs.Prelude.{◌≡◌, ◌<◌, length};
ghost use Rattle.ht_tree.specs.Roles as spec;

use crate::{Row, Tables};
use ht_base::{Person, Roles};

/// The roles of a person in a task (WS-HumanTask 1.1, 3.1).
pub fn roles_in(tables: &Tables, row: &Row, person: Person) -> Roles
    requires { person < length tables.now.tables.people.persons }
    ensures { result ≡ spec.roles_in tables.now.tables row.now person }
{
    Roles {
        initiator: row.initiator == person,
        stakeholder: row.stakeholders.contains(person),
        potential_owner: row.potential_owners.contains(person),
        actual_owner: row.owner == Some(person),
        administrator: row.administrators.contains(person),
        operator: tables.people().operator(person),
    }
}
