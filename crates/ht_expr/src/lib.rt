//! Expressions and people assignments as texts (WS-HumanTask 1.1, 3.5). An assignment says who is
//! found, as the union, intersection or difference of named users and groups, or by an expression. A
//! text is read into a tree, or refused for the first cause, with its place. An expression has a kind.
#![tactic(auto)]

mod assignment;
mod building;
mod expected;
mod expression;
mod keyword;
mod kinding;
mod kinds;
mod laws;
mod levels;
mod node;
mod operator;
mod refusal;
mod scanning;
mod token;

pub use assignment::Assign;
pub use expression::Expr;
pub use kinding::is_of_kind;
pub use kinds::{Kinds, Side};
pub use laws::{each_text_has_one_answer, each_tree_has_a_text};
pub use node::{Count, Node};
pub use operator::Operator;
pub use refusal::ExprRefusal;
