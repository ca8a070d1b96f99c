//! The rows of the tasks, whom the assignments of a row's model find for it, and planned changes: a plan
//! is prepared with all the memory that it takes, and then its commit gives just the planned rows.
#![tactic(auto)]

mod activating;
mod assigning;
mod changed_dues;
mod comments;
mod creating;
mod exchanging;
mod family;
mod index;
mod least_dues;
mod listed_by;
mod moves;
mod notice;
mod owner_moves;
mod person_moves;
mod plan;
mod puts;
mod roles;
mod row;
mod row_dues;
mod sizes;
mod slot;
mod tables;
mod taken;

pub use activating::{owner_by, state_by};
pub use assigning::{env, env_with, resolve, resolve_seen, see};
pub use changed_dues::{dues_after, dues_behind, is_due};
pub use comments::{Comment, Comments};
pub use creating::{CreateRefusal, create};
pub use family::sub_tasks;
pub use least_dues::least_changed;
pub use notice::Notice;
pub use plan::Plan;
pub use roles::roles_in;
pub use row::Row;
pub use slot::{Kept, Slot};
pub use tables::Tables;
pub use taken::Taken;
