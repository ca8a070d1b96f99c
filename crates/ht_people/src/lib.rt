//! The directory: persons, groups and who is in them, read from a TOML text, and sets of persons
//! (people assignment, WS-HumanTask 1.1, 3.5).
#![tactic(auto)]

mod directory;
mod entries;
mod groups;
mod laws;
mod people;
mod places;
mod reading;
mod refusal;
mod sets;

pub use directory::Directory;
pub use entries::{MemberName, PersonEntry};
pub use laws::{a_people_text_has_one_answer, built_in_text_reads};
pub use refusal::PeopleRefusal;
pub use sets::{except, intersect, union};
