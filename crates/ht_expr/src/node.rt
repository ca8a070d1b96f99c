ghost use Rattle.std.specs.Prelude.{◌≡◌, IfOk};
ghost use Rattle.ht_expr.specs.Nodes.{shown_node};
ghost use Rattle.ht_expr.specs.Trees.{choice};

use crate::{Operator, Side};
use ht_base::{Memory, Txt};
use std::alloc::Global;

/// Which sub tasks are counted.
#[derive(Clone, Copy)]
pub enum Count {
    Made,
    Finished,
    Done,
}

/// The tree of an expression, as it is written. A contract sees it by `shown_node`, as a tree of the
/// grammar.
#[derive(Drop)]
pub enum Node {
    /// A whole number, up to 9,223,372,036,854,775,807.
    Number(u64),
    Text(Txt),
    Truth(bool),
    /// The task's priority.
    Priority,
    /// The task's initiator.
    Initiator,
    /// The value of a part.
    Part(Side, Txt),
    /// Whether a part has a value.
    IsSet(Side, Txt),
    /// The number of sub tasks.
    Count(Count),
    /// The number of completed sub tasks whose output part of this name is this text.
    CountText(Txt, Txt),
    /// The number of completed sub tasks whose output part of this name is true.
    CountTrue(Txt),
    Brackets(Box<Node>),
    Negative(Box<Node>),
    Not(Box<Node>),
    Binary(Operator, Box<Node>, Box<Node>),
    /// The second where the first is true, and else the third.
    If(Box<Node>, Box<Node>, Box<Node>),
}

impl Node {
    /// The second where the first is true, and else the third.
    pub(crate) fn conditional(
        alloc: Global,
        test: Node,
        then: Node,
        other: Node,
    ) -> Result<Node, Memory>
        ensures { IfOk result (λ node.
            shown_node node ≡ choice (shown_node test) (shown_node then) (shown_node other)) }
    {
        let test = Box::new(alloc, test)?;
        let then = Box::new(alloc, then)?;
        Ok(Node::If(test, then, Box::new(alloc, other)?))
    }
}
