use ht_models::Model;
use ht_tree::{Plan, Row, Tables};

/// A task as its deadline finds it: its row as it would be after the plan, and its model.
#[derive(Clone, Copy)]
pub(crate) struct Seen<'a> {
    pub(crate) tables: &'a Tables,
    pub(crate) plan: &'a Plan,
    pub(crate) row: &'a Row,
    pub(crate) model: &'a Model,
}
