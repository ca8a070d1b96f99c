//! Task models as a TOML text: what the tasks of one kind have in common, read whole or refused at
//! the first place at which the text is wrong.
#![tactic(auto)]

mod contradictions;
mod declaring;
mod entries;
mod expressions;
mod index;
mod laws;
mod limits;
mod model;
mod models;
mod reading;
mod refusal;
mod repeats;
mod sub_graph;
mod tree_sizes;

pub use laws::{a_models_text_has_one_answer, built_in_text_reads};
pub use model::{Deadline, Escalation, Finish, Model};
pub use models::Models;
pub use refusal::ModelsRefusal;
