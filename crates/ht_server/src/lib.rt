//! The top call `office`: all commands, with `serve`, which serves an office at a port by workers beside a
//! timer.
#![tactic(auto)]

mod counts_line;
mod service;
mod serving;
mod top_call;

pub use top_call::office;
