//! The tasks of an office as comma-separated values (RFC 4180), as a spreadsheet opens them.
#![tactic(auto)]

mod exporting;
mod lines;
mod moments;

pub use exporting::{ExportFault, export};
