//! The bytes of records: each record has one spelling, and only a spelling is read.
#![tactic(auto)]

mod commands;
mod fields;
mod kinds;
mod laws;
mod names;
mod numbers;
mod parts;
mod reader;
mod reading;
mod refusal;
mod texts;
mod writing;
mod writing_fields;

pub use laws::{
    bytes_have_one_answer, each_spelling_is_of_a_valid_record, each_valid_record_has_one_spelling,
    no_spelling_begins_another, refusals_stand_inside, spellings_are_short,
    spellings_end_where_they_end,
};
pub use reading::read;
pub use refusal::CodecRefusal;
pub use writing::write;
