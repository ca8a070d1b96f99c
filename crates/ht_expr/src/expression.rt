ghost use Rattle.std.specs.Prelude.{◌≡◌, IfOk, IsSome, Some};
ghost use Rattle.ht_expr.specs.KindTable.{kind_of};
ghost use Rattle.ht_expr.specs.Nodes.{shown_node};
ghost use Rattle.ht_expr.specs.Reading.{IsOnly, Reads};
ghost use Rattle.ht_expr.specs.Shown.{expr_answer};
ghost use Rattle.ht_expr.specs.Trees.{an_expression};

use crate::node::Node;
use crate::{ExprRefusal, Kinds, building, expected, kinding, levels};
use ht_base::{Kind, Memory};
use std::alloc::Global;
use std::marker::Model;

/// An expression, as it is written, with the parts that are declared for it. A contract sees both.
#[derive(Drop)]
pub struct Expr {
    pub(crate) node: Node,
    pub(crate) kinds: Kinds,
}

impl Model for Expr {
    ghost use Rattle.std.specs.Coded.{codes};
    ghost use Rattle.ht_expr.specs.Codes.{coded_tree};
    ghost use Rattle.ht_expr.specs.Nodes.{ExprOf, shown_node};

    ghost Value = { ExprOf };

    ghost coded = { Prim.hlevel (codes, coded_tree) };

    ghost view = { λ e. record { tree = shown_node e.node; kinds = e.kinds } };
}

impl Expr {
    /// Reads an expression from its text. Blanks may stand between its tokens, of which there are at
    /// most `MOST_TOKENS`. Its parts are declared by `kinds`. Of the causes of a refusal the first in the order
    /// of [`ExprRefusal`] is answered.
    pub fn read(alloc: Global, text: &str, kinds: &Kinds) -> Result<Expr, ExprRefusal>
        ensures reads { Reads kinds.now an_expression text.now (expr_answer result) }
        ensures exact { IsOnly kinds.now an_expression text.now (expr_answer result) }
        ensures kinds { IfOk result (λ e. e.kinds ≡ kinds.now) }
        ensures kind { IfOk result (λ e. IsSome (kind_of e.kinds e.tree)) }
    {
        let tokens = expected::whole_tokens(alloc, text, levels::EXPRESSION)?;
        let node = building::expression_of(alloc, &tokens)?;
        match kinding::kind_of(&node, kinds) {
            Some(_) => Ok(Expr {
                node,
                kinds: kinds.copy(alloc)?,
            }),
            None => Err(ExprRefusal::BadKind),
        }
    }

    /// The kind of its values, by the table of forms and kinds. One that was read has a kind.
    pub fn kind(&self) -> Kind
        ensures { IsSome (kind_of self.now.kinds self.now.tree)
            → kind_of self.now.kinds self.now.tree ≡ Some result }
    {
        match kinding::kind_of(&self.node, &self.kinds) {
            Some(kind) => kind,
            None => Kind::Truth,
        }
    }

    /// The tree that its text was read into.
    pub fn node(&self) -> &Node
        ensures { shown_node result.now ≡ self.now.tree }
    {
        &self.node
    }

    /// The parts that are declared for it.
    pub fn kinds(&self) -> &Kinds
        ensures { result.now ≡ self.now.kinds }
    {
        &self.kinds
    }
}
