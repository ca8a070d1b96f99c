//! The program `office` over its words, texts, disks and streams: the words of the command line, what each
//! command but `serve` does with the durable office, and the call of all of these.
#![tactic(auto)]

mod attaching;
mod checking;
mod command;
mod connection;
mod exporting;
mod fault_lines;
mod laws;
mod loading;
mod machine;
mod numbers;
mod office_texts;
mod reading;
mod status;
mod top_call;
mod words;
mod working;

pub use attaching::attach;
pub use command::{Named, Serve, Words, Work};
pub use fault_lines::{line_of_fault, status_of_fault, status_of_missing};
pub use laws::{one_output, one_report};
pub use machine::Machine;
pub use office_texts::OfficeTexts;
pub use reading::{TextsFault, Which, read_texts};
pub use status::{Line, Status, USAGE_LINE, exit_code, put};
pub use top_call::{complain, complain_of, office_alone, tell_no_memory};
pub use words::{are_alone, words_of};
