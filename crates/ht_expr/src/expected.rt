//! One machine for both grammars: what is still expected of a text.
ghost use Rattle.std.specs.Prelude.{◌≡◌, ◌+◌, ◌∷◌, ◌++◌, Some, None, false, ◌≤◌, reverse, map, IfErr, IfOk, IfSome, IsTrue};
ghost use Rattle.ht_expr.specs.declared.levels.TheConstants as levels;
ghost use Rattle.ht_expr.specs.Expected.{Checks, if_some, is_done, is_said, is_side, is_sign, is_text, is_word, next};
ghost use Rattle.ht_expr.specs.Expected.{on_opening, on_part, opening_in, opening_of_mark, opening_of_word, operator_for, symbols};
ghost use Rattle.ht_expr.specs.Trees as trees;
ghost use Rattle.ht_expr.specs.Trees.{sign_of};
ghost use Rattle.ht_expr.specs.Kinds.{Declared};
ghost use Rattle.ht_expr.specs.Reading.{HasTokens, Reads};
ghost use Rattle.ht_expr.specs.Scanning.{placed, seen};

use crate::keyword::Keyword;
use crate::operator::Operator;
use crate::token::{Mark, Placed, Token};
use crate::{ExprRefusal, levels, scanning};
use std::alloc::{AllocError, Global};

/// What is still expected.
#[derive(Clone, Copy)]
pub(crate) enum Symbol {
    /// A tree that may stand where this level is asked for.
    Tree(u8),
    /// Operators of the first level at least with their right operands, behind an operand that may
    /// stand where the second is asked for.
    Operators(u8, u8),
    /// The name of a part, as `in.amount`.
    Part,
    /// A text between quotation marks.
    Text,
    /// Any word.
    Word,
    Sign(Mark),
    Then,
    Else,
}

/// What comes behind the first token of a tree.
#[derive(Clone, Copy)]
pub(crate) enum Behind {
    Nothing,
    Brackets,
    Name,
    Part,
    Text,
    Texts,
    Bracketed,
    Negated,
    Negative,
    Choice,
    Operands,
    Branches,
}

/// The levels between which a tree may stand, and what comes behind its first token.
#[derive(Clone, Copy)]
pub(crate) struct Opening {
    pub least: u8,
    pub most: u8,
    pub behind: Behind,
}

impl Opening {
    fn new(least: u8, most: u8, behind: Behind) -> Opening
        ensures { result ≡ record { least = least; most = most; behind = behind } }
    {
        Opening {
            least,
            most,
            behind,
        }
    }

    // The tree that begins with this token.
    fn of(token: Token<'_>) -> Option<Opening>
        ensures { result ≡ opening_in (seen token.entry) }
    {
        match token {
            Token::Number(_) | Token::Quoted(_) => Some(Opening::new(
                levels::EXPRESSION,
                levels::ATOM,
                Behind::Nothing,
            )),
            Token::Word(word) => Opening::of_word(Keyword::of(word)?),
            Token::Mark(mark) => Opening::of_mark(mark),
        }
    }

    fn of_mark(mark: Mark) -> Option<Opening>
        ensures { result ≡ opening_of_mark mark }
    {
        match mark {
            Mark::Open => Some(Opening::new(levels::EXPRESSION, levels::ATOM, Behind::Bracketed)),
            Mark::Minus => Some(Opening::new(levels::EXPRESSION, levels::UNARY, Behind::Negative)),
            _ => None,
        }
    }

    fn of_word(keyword: Keyword) -> Option<Opening>
        ensures { result ≡ opening_of_word keyword }
    {
        let (least, most, behind) = match keyword {
            Keyword::If => (levels::EXPRESSION, levels::EXPRESSION, Behind::Choice),
            Keyword::Not => (levels::EXPRESSION, levels::NOT, Behind::Negated),
            Keyword::True | Keyword::False | Keyword::Priority => (
                levels::EXPRESSION,
                levels::ATOM,
                Behind::Nothing,
            ),
            Keyword::Initiator => (levels::EXPRESSION, levels::ASSIGNMENT, Behind::Nothing),
            Keyword::In => (levels::EXPRESSION, levels::ASSIGNMENT, Behind::Name),
            Keyword::Out => (levels::EXPRESSION, levels::ATOM, Behind::Name),
            Keyword::Set => (levels::EXPRESSION, levels::ATOM, Behind::Part),
            Keyword::Made | Keyword::Finished | Keyword::Done => (
                levels::EXPRESSION,
                levels::ATOM,
                Behind::Brackets,
            ),
            Keyword::CountText => (levels::EXPRESSION, levels::ATOM, Behind::Texts),
            Keyword::CountTrue => (levels::EXPRESSION, levels::ATOM, Behind::Text),
            Keyword::Nobody | Keyword::Everybody => (
                levels::ASSIGNMENT,
                levels::ASSIGNMENT,
                Behind::Nothing,
            ),
            Keyword::User | Keyword::Group => (
                levels::ASSIGNMENT,
                levels::ASSIGNMENT,
                Behind::Text,
            ),
            Keyword::Union | Keyword::Intersect | Keyword::Except => (
                levels::ASSIGNMENT,
                levels::ASSIGNMENT,
                Behind::Operands,
            ),
            Keyword::When => (levels::ASSIGNMENT, levels::ASSIGNMENT, Behind::Branches),
            Keyword::Then | Keyword::Else | Keyword::Or | Keyword::And => return None,
        };
        Some(Opening::new(least, most, behind))
    }
}

/// The tokens of a text that is a tree of this level.
pub(crate) fn whole_tokens(
    alloc: Global,
    text: &str,
    level: u8,
) -> Result<Vec<Placed<'_>>, ExprRefusal>
    requires { level ≤ levels.ASSIGNMENT }
    ensures tokens { IfOk result (λ tokens. HasTokens text.now (map placed tokens.items)) }
    ensures refused { IfErr result (λ e. (kinds : Declared) → Reads kinds level text.now (Err e)) }
{
    let tokens = scanning::tokens(alloc, text)?;
    check(alloc, &tokens, text.len(), level)?;
    Ok(tokens)
}

// Whether the tokens are a tree of this level, or the place of the first that can't stand where it
// does. `end` is the length of their text.
fn check(alloc: Global, tokens: &[Placed<'_>], end: usize, level: u8) -> Result<(), ExprRefusal>
    ensures { Checks level (map placed tokens.now) end result }
{
    let mut expected = Vec::new(alloc);
    expected.push(Symbol::Tree(level))?;
    for i in 0..tokens.len() {
        match take(&mut expected, tokens[i].token) {
            Taken::Yes => {}
            Taken::No => return Err(ExprRefusal::Shape(tokens[i].at)),
            Taken::Memory => return Err(ExprRefusal::Memory),
        }
    }
    if is_done(expected) {
        Ok(())
    } else {
        Err(ExprRefusal::Shape(end))
    }
}

/// Whether a token was taken.
enum Taken {
    Yes,
    No,
    Memory,
}

// Takes one token. The symbol that is expected first is the last.
fn take(expected: &mut Vec<Symbol>, token: Token<'_>) -> Taken
    ensures yes { result ≡ Taken.Yes
        → next (reverse expected.old.items) (seen token.entry) ≡ Some (reverse expected.new.items) }
    ensures no { result ≡ Taken.No → next (reverse expected.old.items) (seen token.entry) ≡ None }
{
    while let Some(first) = expected.pop() {
        match first {
            Symbol::Tree(level) => return open(expected, level, token),
            Symbol::Operators(level, operand) => {
                if let Some(operator) = operator_for(level, operand, token) {
                    return operate(expected, level, operator);
                }
            }
            Symbol::Part => return name(expected, token),
            Symbol::Text => return taken_if(is_text(token)),
            Symbol::Word => return taken_if(is_word(token)),
            Symbol::Sign(mark) => return taken_if(is_sign(mark, token)),
            Symbol::Then => return taken_if(is_said("then", token)),
            Symbol::Else => return taken_if(is_said("else", token)),
        }
    }
    Taken::No
}

// The tree of this level that begins with the token, and operators behind it.
fn open(expected: &mut Vec<Symbol>, level: u8, token: Token<'_>) -> Taken
    ensures yes { result ≡ Taken.Yes
        → if_some (opening_in (seen token.entry)) (on_opening level (reverse expected.old.items))
        ≡ Some (reverse expected.new.items) }
    ensures no { result ≡ Taken.No
        → if_some (opening_in (seen token.entry)) (on_opening level (reverse expected.old.items))
        ≡ None }
{
    let Some(opening) = Opening::of(token) else {
        return Taken::No;
    };
    if !(opening.least <= level && level <= opening.most) {
        return Taken::No;
    }
    if expected
        .push(Symbol::Operators(level, opening.most))
        .is_err()
    {
        return Taken::Memory;
    }
    match expect(expected, opening.behind) {
        Ok(()) => Taken::Yes,
        Err(_) => Taken::Memory,
    }
}

fn expect(expected: &mut Vec<Symbol>, behind: Behind) -> Result<(), AllocError>
    ensures { IfOk result
        (λ _. reverse expected.new.items ≡ symbols behind ++ reverse expected.old.items) }
{
    let open = Symbol::Sign(Mark::Open);
    let close = Symbol::Sign(Mark::Close);
    let comma = Symbol::Sign(Mark::Comma);
    let expression = Symbol::Tree(levels::EXPRESSION);
    let assignment = Symbol::Tree(levels::ASSIGNMENT);
    match behind {
        Behind::Nothing => Ok(()),
        Behind::Brackets => expected.extend_from_slice(&[close, open]),
        Behind::Name => expected.extend_from_slice(&[Symbol::Word, Symbol::Sign(Mark::Dot)]),
        Behind::Part => expected.extend_from_slice(&[close, Symbol::Part, open]),
        Behind::Text => expected.extend_from_slice(&[close, Symbol::Text, open]),
        Behind::Texts => {
            expected.extend_from_slice(&[close, Symbol::Text, comma, Symbol::Text, open])
        }
        Behind::Bracketed => expected.extend_from_slice(&[close, expression]),
        Behind::Negated => expected.extend_from_slice(&[Symbol::Tree(levels::NOT)]),
        Behind::Negative => expected.extend_from_slice(&[Symbol::Tree(levels::UNARY)]),
        Behind::Choice => expected.extend_from_slice(&[
            expression,
            Symbol::Else,
            expression,
            Symbol::Then,
            expression,
        ]),
        Behind::Operands => {
            expected.extend_from_slice(&[close, assignment, comma, assignment, open])
        }
        Behind::Branches => expected.extend_from_slice(&[
            close, assignment, comma, assignment, comma, expression, open,
        ]),
    }
}

// The operator that this token is, if it may follow an operand of the second level where the first
// is asked for.
pub(crate) fn operator_for(level: u8, operand: u8, token: Token<'_>) -> Option<Operator>
    ensures found { result ≡ operator_for level operand (seen token.entry) }
    ensures taken { IfSome result
        (λ o. (seen token.entry ≡ sign_of o) × (level ≤ trees.level o) × (trees.left o ≤ operand)) }
{
    let operator = Operator::of(token)?;
    if level <= operator.level() && operator.left() <= operand {
        Some(operator)
    } else {
        None
    }
}

fn operate(expected: &mut Vec<Symbol>, level: u8, operator: Operator) -> Taken
    ensures no { result ≡ Taken.No → ⊥ }
    ensures yes { result ≡ Taken.Yes
        → reverse expected.new.items
        ≡ Symbol.Tree (trees.level operator + 1) ∷ Symbol.Operators level (trees.level operator)
        ∷ reverse expected.old.items }
{
    let own = operator.level();
    let symbols = [Symbol::Operators(level, own), Symbol::Tree(own + 1)];
    match expected.extend_from_slice(&symbols) {
        Ok(()) => Taken::Yes,
        Err(_) => Taken::Memory,
    }
}

fn name(expected: &mut Vec<Symbol>, token: Token<'_>) -> Taken
    ensures yes { result ≡ Taken.Yes
        → on_part (reverse expected.old.items) (seen token.entry)
        ≡ Some (reverse expected.new.items) }
    ensures no { result ≡ Taken.No
        → on_part (reverse expected.old.items) (seen token.entry) ≡ None }
{
    if !is_side(token) {
        return Taken::No;
    }
    match expect(expected, Behind::Name) {
        Ok(()) => Taken::Yes,
        Err(_) => Taken::Memory,
    }
}

fn taken_if(may_stand: bool) -> Taken
    ensures yes { result ≡ Taken.Yes → IsTrue may_stand }
    ensures no { result ≡ Taken.No → may_stand ≡ false }
{
    if may_stand { Taken::Yes } else { Taken::No }
}

fn is_side(token: Token<'_>) -> bool
    ensures { result ≡ is_side (seen token.entry) }
{
    match token {
        Token::Word(word) => word == "in" || word == "out",
        _ => false,
    }
}

fn is_text(token: Token<'_>) -> bool
    ensures { result ≡ is_text (seen token.entry) }
{
    matches!(token, Token::Quoted(_))
}

fn is_word(token: Token<'_>) -> bool
    ensures { result ≡ is_word (seen token.entry) }
{
    matches!(token, Token::Word(_))
}

pub(crate) fn is_sign(wanted: Mark, token: Token<'_>) -> bool
    ensures { result ≡ is_sign wanted (seen token.entry) }
{
    match token {
        Token::Mark(mark) => mark.as_str() == wanted.as_str(),
        _ => false,
    }
}

pub(crate) fn is_said(wanted: &str, token: Token<'_>) -> bool
    ensures { result ≡ is_said wanted.now (seen token.entry) }
{
    match token {
        Token::Word(word) => word == wanted,
        _ => false,
    }
}

// Whether nothing more need come.
fn is_done(mut expected: Vec<Symbol>) -> bool
    ensures { result ≡ is_done (reverse expected.items) }
{
    while let Some(first) = expected.pop() {
        match first {
            Symbol::Operators(_, _) => {}
            _ => return false,
        }
    }
    true
}
