//! Builds the trees of whole texts. Where tokens are none, what is answered says nothing.
ghost use Rattle.std.specs.Prelude.{◌≡◌, ◌+◌, ◌≤◌, [], ◌∷◌, ◌++◌, IfOk, IfSome};
ghost use Rattle.ht_expr.specs.Building.{IsAt, ReadsAssignment, ReadsExpression, ReadsOperands, Spans, all};
ghost use Rattle.ht_expr.specs.Keywords.{said};
ghost use Rattle.ht_expr.specs.declared.keyword.Keyword.TheVariants as keyword;
ghost use Rattle.ht_expr.specs.declared.levels.TheConstants as levels;
ghost use Rattle.ht_expr.specs.declared.token.Mark.TheVariants.{Open, Close, Dot};
ghost use Rattle.ht_expr.specs.Scanning.{seen};
ghost use Rattle.ht_expr.specs.Nodes.{shown_node};
ghost use Rattle.ht_expr.specs.Shown.{shown, AreDeclared};
ghost use Rattle.ht_expr.specs.Tokens.{mark, quoted, word};
ghost use Rattle.ht_expr.specs.Trees.{an_assignment, an_expression, AreTree, count_word, side_word};

use crate::expected::{is_said, is_sign, operator_for};
use crate::keyword::Keyword;
use crate::node::Node;
use crate::token::{Mark, Placed, Token};
use crate::{Assign, Count, Expr, Kinds, Side, levels};
use ht_base::{Memory, Txt};
use std::alloc::Global;

/// The expression that these tokens are.
pub(crate) fn expression_of(alloc: Global, tokens: &[Placed<'_>]) -> Result<Node, Memory>
    ensures { IfOk result (λ e. AreTree an_expression (all tokens.now) (shown_node e)) }
{
    let read = expression(alloc, tokens, 0, levels::EXPRESSION)?;
    if read.next < tokens.len() {
        return Err(Memory);
    }
    Ok(read.node)
}

/// The assignment that these tokens are, with these declared parts.
pub(crate) fn assignment_of(
    alloc: Global,
    tokens: &[Placed<'_>],
    kinds: &Kinds,
) -> Result<Assign, Memory>
    ensures tree { IfOk result (λ a. AreTree an_assignment (all tokens.now) (shown a)) }
    ensures kinds { IfOk result (AreDeclared kinds.now) }
{
    let read = assignment(alloc, tokens, kinds, 0)?;
    if read.next < tokens.len() {
        return Err(Memory);
    }
    Ok(read.assign)
}

/// What was read, the highest level where it may stand, and the place of the next token.
#[derive(Drop)]
struct Read {
    node: Node,
    level: u8,
    next: usize,
}

impl Read {
    fn new(node: Node, level: u8, next: usize) -> Read
        ensures { result ≡ record { node = node; level = level; next = next } }
    {
        Read { node, level, next }
    }
}

#[derive(Drop)]
struct ReadAssign {
    assign: Assign,
    next: usize,
}

impl ReadAssign {
    fn new(assign: Assign, next: usize) -> ReadAssign
        ensures { result ≡ record { assign = assign; next = next } }
    {
        ReadAssign { assign, next }
    }
}

// An operand, and operators of this level or more with their right operands.
#[cycle(expressions)]
fn expression(alloc: Global, tokens: &[Placed<'_>], at: usize, level: u8) -> Result<Read, Memory>
    requires { level ≤ levels.UNARY }
    ensures { IfOk result (λ r. ReadsExpression tokens.now at level r) }
{
    let mut read = operand(alloc, tokens, at, level)?;
    while read.next < tokens.len() {
        let Some(operator) = operator_for(level, read.level, tokens[read.next].token) else {
            break;
        };
        let own = operator.level();
        let right = expression(alloc, tokens, read.next + 1, own + 1)?;
        let left = Box::new(alloc, read.node)?;
        read = Read {
            node: Node::Binary(operator, left, Box::new(alloc, right.node)?),
            level: own,
            next: right.next,
        };
    }
    Ok(read)
}

#[cycle(expressions)]
fn operand(alloc: Global, tokens: &[Placed<'_>], at: usize, level: u8) -> Result<Read, Memory>
    requires { level ≤ levels.UNARY }
    ensures { IfOk result (λ r. ReadsExpression tokens.now at level r) }
{
    let Some(first) = token_at(tokens, at) else {
        return Err(Memory);
    };
    match first {
        Token::Number(number) => Ok(Read::new(Node::Number(number), levels::ATOM, at + 1)),
        Token::Quoted(text) => Ok(Read::new(
            Node::Text(Txt::of(alloc, text)?),
            levels::ATOM,
            at + 1,
        )),
        Token::Word(text) => match Keyword::of(text) {
            Some(keyword) => worded(alloc, tokens, at, level, keyword),
            None => Err(Memory),
        },
        Token::Mark(Mark::Minus) => {
            let operand = expression(alloc, tokens, at + 1, levels::UNARY)?;
            Ok(Read::new(
                Node::Negative(Box::new(alloc, operand.node)?),
                levels::UNARY,
                operand.next,
            ))
        }
        Token::Mark(Mark::Open) => {
            let inner = expression(alloc, tokens, at + 1, levels::EXPRESSION)?;
            Ok(Read::new(
                Node::Brackets(Box::new(alloc, inner.node)?),
                levels::ATOM,
                sign(tokens, inner.next, Mark::Close)?,
            ))
        }
        Token::Mark(_) => Err(Memory),
    }
}

// An operand that begins with a keyword.
#[cycle(expressions)]
fn worded(
    alloc: Global,
    tokens: &[Placed<'_>],
    at: usize,
    level: u8,
    keyword: Keyword,
) -> Result<Read, Memory>
    requires level { level ≤ levels.UNARY }
    requires word { IsAt tokens.now at (said keyword) }
    ensures { IfOk result (λ r. ReadsExpression tokens.now at level r) }
{
    match keyword {
        Keyword::Not => {
            if levels::NOT < level {
                return Err(Memory);
            }
            let operand = expression(alloc, tokens, at + 1, levels::NOT)?;
            Ok(Read::new(
                Node::Not(Box::new(alloc, operand.node)?),
                levels::NOT,
                operand.next,
            ))
        }
        Keyword::If => {
            if levels::EXPRESSION < level {
                return Err(Memory);
            }
            conditional(alloc, tokens, at)
        }
        _ => atom(alloc, tokens, at, keyword),
    }
}

// `if` and a test, `then` and an expression, `else` and another one.
#[cycle(expressions)]
fn conditional(alloc: Global, tokens: &[Placed<'_>], at: usize) -> Result<Read, Memory>
    requires { IsAt tokens.now at (said keyword.If) }
    ensures { IfOk result (λ r. ReadsExpression tokens.now at levels.EXPRESSION r) }
{
    let test = expression(alloc, tokens, at + 1, levels::EXPRESSION)?;
    let next = behind(tokens, test.next, "then")?;
    let then = expression(alloc, tokens, next, levels::EXPRESSION)?;
    let next = behind(tokens, then.next, "else")?;
    let other = expression(alloc, tokens, next, levels::EXPRESSION)?;
    let node = Node::conditional(alloc, test.node, then.node, other.node)?;
    Ok(Read::new(node, levels::EXPRESSION, other.next))
}

// An operand that begins with a keyword and holds no other.
fn atom(alloc: Global, tokens: &[Placed<'_>], at: usize, keyword: Keyword) -> Result<Read, Memory>
    requires { IsAt tokens.now at (said keyword) }
    ensures { IfOk result (λ r. ReadsExpression tokens.now at levels.UNARY r) }
{
    let next = at + 1;
    match keyword {
        Keyword::True => Ok(Read::new(Node::Truth(true), levels::ATOM, next)),
        Keyword::False => Ok(Read::new(Node::Truth(false), levels::ATOM, next)),
        Keyword::Priority => Ok(Read::new(Node::Priority, levels::ATOM, next)),
        Keyword::Initiator => Ok(Read::new(Node::Initiator, levels::ASSIGNMENT, next)),
        Keyword::In => {
            let (name, next) = name(alloc, tokens, next)?;
            Ok(Read::new(Node::Part(Side::Input, name), levels::ASSIGNMENT, next))
        }
        Keyword::Out => {
            let (name, next) = name(alloc, tokens, next)?;
            Ok(Read::new(Node::Part(Side::Output, name), levels::ATOM, next))
        }
        Keyword::Set => is_set(alloc, tokens, at),
        Keyword::Made => counted(tokens, at, Count::Made),
        Keyword::Finished => counted(tokens, at, Count::Finished),
        Keyword::Done => counted(tokens, at, Count::Done),
        Keyword::CountText => count_text(alloc, tokens, at),
        Keyword::CountTrue => {
            let (part, next) = text(alloc, tokens, next)?;
            Ok(Read::new(Node::CountTrue(part), levels::ATOM, next))
        }
        _ => Err(Memory),
    }
}

fn counted(tokens: &[Placed<'_>], at: usize, count: Count) -> Result<Read, Memory>
    requires { IsAt tokens.now at (said (count_word count)) }
    ensures { IfOk result (λ r. ReadsExpression tokens.now at levels.UNARY r) }
{
    let next = sign(tokens, at + 1, Mark::Open)?;
    Ok(Read::new(
        Node::Count(count),
        levels::ATOM,
        sign(tokens, next, Mark::Close)?,
    ))
}

fn is_set(alloc: Global, tokens: &[Placed<'_>], at: usize) -> Result<Read, Memory>
    requires { IsAt tokens.now at (said keyword.Set) }
    ensures { IfOk result (λ r. ReadsExpression tokens.now at levels.UNARY r) }
{
    let next = sign(tokens, at + 1, Mark::Open)?;
    let side = side(tokens, next)?;
    let (name, next) = name(alloc, tokens, next + 1)?;
    Ok(Read::new(
        Node::IsSet(side, name),
        levels::ATOM,
        sign(tokens, next, Mark::Close)?,
    ))
}

fn count_text(alloc: Global, tokens: &[Placed<'_>], at: usize) -> Result<Read, Memory>
    requires { IsAt tokens.now at (said keyword.CountText) }
    ensures { IfOk result (λ r. ReadsExpression tokens.now at levels.UNARY r) }
{
    let next = sign(tokens, at + 1, Mark::Open)?;
    let part = quoted(alloc, tokens, next)?;
    let next = sign(tokens, next + 1, Mark::Comma)?;
    let text = quoted(alloc, tokens, next)?;
    Ok(Read::new(
        Node::CountText(part, text),
        levels::ATOM,
        sign(tokens, next + 1, Mark::Close)?,
    ))
}

#[cycle(assignments)]
fn assignment(
    alloc: Global,
    tokens: &[Placed<'_>],
    kinds: &Kinds,
    at: usize,
) -> Result<ReadAssign, Memory>
    ensures { IfOk result (λ r. ReadsAssignment kinds.now tokens.now at r) }
{
    let Some(Token::Word(word)) = token_at(tokens, at) else {
        return Err(Memory);
    };
    let next = at + 1;
    match Keyword::of(word) {
        Some(Keyword::Nobody) => Ok(ReadAssign::new(Assign::Nobody, next)),
        Some(Keyword::Everybody) => Ok(ReadAssign::new(Assign::Everybody, next)),
        Some(Keyword::Initiator) => Ok(ReadAssign::new(Assign::Initiator, next)),
        Some(Keyword::In) => {
            let (name, next) = name(alloc, tokens, next)?;
            Ok(ReadAssign::new(Assign::In(name), next))
        }
        Some(Keyword::User) => {
            let (name, next) = text(alloc, tokens, next)?;
            Ok(ReadAssign::new(Assign::User(name), next))
        }
        Some(Keyword::Group) => {
            let (name, next) = text(alloc, tokens, next)?;
            Ok(ReadAssign::new(Assign::Group(name), next))
        }
        Some(Keyword::Union) => {
            let both = operands(alloc, tokens, kinds, next)?;
            Ok(ReadAssign::new(Assign::Union(both.first, both.second), both.next))
        }
        Some(Keyword::Intersect) => {
            let both = operands(alloc, tokens, kinds, next)?;
            Ok(ReadAssign::new(Assign::Intersect(both.first, both.second), both.next))
        }
        Some(Keyword::Except) => {
            let both = operands(alloc, tokens, kinds, next)?;
            Ok(ReadAssign::new(Assign::Except(both.first, both.second), both.next))
        }
        Some(Keyword::When) => branches(alloc, tokens, kinds, at),
        _ => Err(Memory),
    }
}

#[derive(Drop)]
struct Both {
    first: Box<Assign>,
    second: Box<Assign>,
    next: usize,
}

#[cycle(assignments)]
fn operands(alloc: Global, tokens: &[Placed<'_>], kinds: &Kinds, at: usize) -> Result<Both, Memory>
    ensures { IfOk result (λ r. ReadsOperands kinds.now tokens.now at r) }
{
    let next = sign(tokens, at, Mark::Open)?;
    let first = assignment(alloc, tokens, kinds, next)?;
    let next = sign(tokens, first.next, Mark::Comma)?;
    let second = assignment(alloc, tokens, kinds, next)?;
    Ok(Both {
        next: sign(tokens, second.next, Mark::Close)?,
        first: Box::new(alloc, first.assign)?,
        second: Box::new(alloc, second.assign)?,
    })
}

#[cycle(assignments)]
fn branches(
    alloc: Global,
    tokens: &[Placed<'_>],
    kinds: &Kinds,
    at: usize,
) -> Result<ReadAssign, Memory>
    requires { IsAt tokens.now at (said keyword.When) }
    ensures { IfOk result (λ r. ReadsAssignment kinds.now tokens.now at r) }
{
    let next = sign(tokens, at + 1, Mark::Open)?;
    let test = expression(alloc, tokens, next, levels::EXPRESSION)?;
    let next = sign(tokens, test.next, Mark::Comma)?;
    let then = assignment(alloc, tokens, kinds, next)?;
    let next = sign(tokens, then.next, Mark::Comma)?;
    let other = assignment(alloc, tokens, kinds, next)?;
    let next = sign(tokens, other.next, Mark::Close)?;
    let test = Expr {
        node: test.node,
        kinds: kinds.copy(alloc)?,
    };
    let test = Box::new(alloc, test)?;
    let then = Box::new(alloc, then.assign)?;
    Ok(ReadAssign::new(
        Assign::When(test, then, Box::new(alloc, other.assign)?),
        next,
    ))
}

// A text in brackets.
fn text(alloc: Global, tokens: &[Placed<'_>], at: usize) -> Result<(Txt, usize), Memory>
    ensures { IfOk result
        (λ r. Spans tokens.now at (mark Open ∷ quoted r.0 ∷ mark Close ∷ []) r.1) }
{
    let next = sign(tokens, at, Mark::Open)?;
    let text = quoted(alloc, tokens, next)?;
    Ok((text, sign(tokens, next + 1, Mark::Close)?))
}

fn quoted(alloc: Global, tokens: &[Placed<'_>], at: usize) -> Result<Txt, Memory>
    ensures { IfOk result (λ x. IsAt tokens.now at (quoted x)) }
{
    match token_at(tokens, at) {
        Some(Token::Quoted(text)) => Txt::of(alloc, text),
        _ => Err(Memory),
    }
}

// A dot and a word.
fn name(alloc: Global, tokens: &[Placed<'_>], at: usize) -> Result<(Txt, usize), Memory>
    ensures { IfOk result (λ r. Spans tokens.now at (mark Dot ∷ word r.0 ∷ []) r.1) }
{
    let next = sign(tokens, at, Mark::Dot)?;
    match token_at(tokens, next) {
        Some(Token::Word(word)) => Ok((Txt::of(alloc, word)?, next + 1)),
        _ => Err(Memory),
    }
}

fn side(tokens: &[Placed<'_>], at: usize) -> Result<Side, Memory>
    ensures { IfOk result (λ side. IsAt tokens.now at (said (side_word side))) }
{
    match token_at(tokens, at) {
        Some(Token::Word("in")) => Ok(Side::Input),
        Some(Token::Word("out")) => Ok(Side::Output),
        _ => Err(Memory),
    }
}

// The place behind this mark.
fn sign(tokens: &[Placed<'_>], at: usize, wanted: Mark) -> Result<usize, Memory>
    ensures { IfOk result (λ n. IsAt tokens.now at (mark wanted) × (n ≡ at + 1)) }
{
    match token_at(tokens, at) {
        Some(token) if is_sign(wanted, token) => Ok(at + 1),
        _ => Err(Memory),
    }
}

// The place behind this word.
fn behind(tokens: &[Placed<'_>], at: usize, wanted: &str) -> Result<usize, Memory>
    ensures { IfOk result (λ n. IsAt tokens.now at (word wanted.now) × (n ≡ at + 1)) }
{
    match token_at(tokens, at) {
        Some(token) if is_said(wanted, token) => Ok(at + 1),
        _ => Err(Memory),
    }
}

fn token_at<'a>(tokens: &[Placed<'a>], at: usize) -> Option<Token<'a>>
    ensures { IfSome result (λ token. IsAt tokens.now at (seen token)) }
{
    match tokens.get(at) {
        Some(found) => Some(found.token),
        None => None,
    }
}
