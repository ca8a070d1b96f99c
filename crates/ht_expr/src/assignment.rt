ghost use Rattle.std.specs.Prelude.{◌≡◌, IfOk};
ghost use Rattle.ht_expr.specs.Assignments.{is_individual, is_plain};
ghost use Rattle.ht_expr.specs.Reading.{IsOnly, Reads};
ghost use Rattle.ht_expr.specs.KindTable as table;
ghost use Rattle.ht_expr.specs.Shown.{shown, shown_answer, AreDeclared};
ghost use Rattle.ht_expr.specs.Trees.{an_assignment};

use crate::kinding::{is_of_kind, kind_of};
use crate::{Expr, ExprRefusal, Kinds, Side, building, expected, levels};
use ht_base::{Kind, Txt};
use std::alloc::Global;

/// A people assignment (WS-HumanTask 1.1, 3.5): who is found. A contract sees it by `shown`, as a
/// tree of its forms and names.
#[derive(Drop)]
pub enum Assign {
    Nobody,
    Everybody,
    /// The task's initiator.
    Initiator,
    /// The person whom the input part of this name holds, if it holds one.
    In(Txt),
    /// The person with this name, if there is one.
    User(Txt),
    /// The members of the group with this name, if there is one.
    Group(Txt),
    /// Who is in one or the other.
    Union(Box<Assign>, Box<Assign>),
    /// Who is in both.
    Intersect(Box<Assign>, Box<Assign>),
    /// Who is in the first and not in the second.
    Except(Box<Assign>, Box<Assign>),
    /// The first assignment where the expression is true, and else the second.
    When(Box<Expr>, Box<Assign>, Box<Assign>),
}

impl Assign {
    /// Reads an assignment from its text: `nobody`, `everybody`, `initiator`, `in.word`,
    /// `user('name')`, `group('name')`, `union`, `intersect` or `except` of two assignments, as
    /// `union(nobody, initiator)`, and `when` of an expression and two assignments. Blanks may stand
    /// between its tokens, of which there are at most `MOST_TOKENS`. A name is any text without `'` and without
    /// bytes below 32. Of the causes of a refusal the first in the order of [`ExprRefusal`] is
    /// answered. The parts are declared by `kinds`: each is a person, and the expression of `when`
    /// a truth.
    pub fn read(alloc: Global, text: &str, kinds: &Kinds) -> Result<Assign, ExprRefusal>
        ensures reads { Reads kinds.now an_assignment text.now (shown_answer result) }
        ensures exact { IsOnly kinds.now an_assignment text.now (shown_answer result) }
        ensures kinds { IfOk result (AreDeclared kinds.now) }
    {
        let tokens = expected::whole_tokens(alloc, text, levels::ASSIGNMENT)?;
        let assign = building::assignment_of(alloc, &tokens, kinds)?;
        if assign.kinds_fit(kinds) {
            Ok(assign)
        } else {
            Err(ExprRefusal::BadKind)
        }
    }

    // Whether its parts are persons, and its tests truths.
    fn kinds_fit(&self, kinds: &Kinds) -> bool
        ensures { result ≡ table.assigns kinds.now (shown self.now) }
    {
        match self {
            Assign::Nobody
            | Assign::Everybody
            | Assign::Initiator
            | Assign::User(_)
            | Assign::Group(_) => true,
            Assign::In(name) => {
                is_of_kind(
                    Kind::Person,
                    kinds.kind(Side::Input, name.as_str().as_bytes()),
                )
            }
            Assign::Union(first, second)
            | Assign::Intersect(first, second)
            | Assign::Except(first, second) => first.kinds_fit(kinds) && second.kinds_fit(kinds),
            Assign::When(test, first, second) => {
                is_of_kind(Kind::Truth, kind_of(&test.node, kinds))
                    && first.kinds_fit(kinds)
                    && second.kinds_fit(kinds)
            }
        }
    }

    /// Whether the persons are named one by one: neither `group` nor `everybody` stands anywhere in
    /// the assignment.
    pub fn individual(&self) -> bool
        ensures { result ≡ is_individual (shown self.now) }
    {
        match self {
            Assign::Nobody | Assign::Initiator | Assign::In(_) | Assign::User(_) => true,
            Assign::Everybody | Assign::Group(_) => false,
            Assign::Union(first, second)
            | Assign::Intersect(first, second)
            | Assign::Except(first, second)
            | Assign::When(_, first, second) => first.individual() && second.individual(),
        }
    }

    /// Whether it looks at no part and no expression: neither `in` nor `when` stands anywhere in it.
    pub fn is_plain(&self) -> bool
        ensures { result ≡ is_plain (shown self.now) }
    {
        match self {
            Assign::In(_) | Assign::When(_, _, _) => false,
            Assign::Nobody
            | Assign::Everybody
            | Assign::Initiator
            | Assign::User(_)
            | Assign::Group(_) => true,
            Assign::Union(first, second)
            | Assign::Intersect(first, second)
            | Assign::Except(first, second) => first.is_plain() && second.is_plain(),
        }
    }
}
