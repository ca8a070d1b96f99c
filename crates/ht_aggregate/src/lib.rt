//! How the values of sub tasks become one value of their parent: the aggregates of completion
//! behaviour (WS-HumanTask 1.1, 4.8).
#![tactic(auto)]

mod aggregates;
mod frequencies;
mod given;
mod joining;
mod laws;
mod numbers;
mod truths;
mod voting;

pub use aggregates::aggregate;
pub use laws::{each_aggregate_has_a_result, each_aggregate_has_one_result, each_result_fits};
