ghost use Rattle.std.specs.Prelude.{◌≡◌, ◌≤◌};
ghost use Rattle.ht_expr.specs.declared.levels.TheConstants as levels;
ghost use Rattle.ht_expr.specs.Expected.{operator_in, operator_of_mark, operator_of_word};
ghost use Rattle.ht_expr.specs.Scanning.{seen};
ghost use Rattle.ht_expr.specs.Trees.{left, level};

use crate::keyword::Keyword;
use crate::levels;
use crate::token::{Mark, Token};

/// What stands between two operands.
#[derive(Clone, Copy)]
pub enum Operator {
    Or,
    And,
    Equal,
    NotEqual,
    Less,
    LessOrEqual,
    Greater,
    GreaterOrEqual,
    Plus,
    Minus,
    Times,
}

impl Operator {
    /// The operator that this token is.
    pub(crate) fn of(token: Token<'_>) -> Option<Operator>
        ensures { result ≡ operator_in (seen token.entry) }
    {
        match token {
            Token::Mark(mark) => Operator::of_mark(mark),
            Token::Word(word) => Operator::of_word(Keyword::of(word)?),
            Token::Number(_) | Token::Quoted(_) => None,
        }
    }

    fn of_mark(mark: Mark) -> Option<Operator>
        ensures { result ≡ operator_of_mark mark }
    {
        match mark {
            Mark::Equal => Some(Operator::Equal),
            Mark::NotEqual => Some(Operator::NotEqual),
            Mark::Less => Some(Operator::Less),
            Mark::LessOrEqual => Some(Operator::LessOrEqual),
            Mark::Greater => Some(Operator::Greater),
            Mark::GreaterOrEqual => Some(Operator::GreaterOrEqual),
            Mark::Plus => Some(Operator::Plus),
            Mark::Minus => Some(Operator::Minus),
            Mark::Times => Some(Operator::Times),
            Mark::Open | Mark::Close | Mark::Comma | Mark::Dot => None,
        }
    }

    fn of_word(keyword: Keyword) -> Option<Operator>
        ensures { result ≡ operator_of_word keyword }
    {
        match keyword {
            Keyword::Or => Some(Operator::Or),
            Keyword::And => Some(Operator::And),
            _ => None,
        }
    }

    /// How tightly it binds its operands.
    pub(crate) fn level(self) -> u8
        ensures value { result ≡ level self }
        ensures most { result ≤ levels.PRODUCT }
    {
        match self {
            Operator::Or => levels::OR,
            Operator::And => levels::AND,
            Operator::Equal
            | Operator::NotEqual
            | Operator::Less
            | Operator::LessOrEqual
            | Operator::Greater
            | Operator::GreaterOrEqual => levels::COMPARISON,
            Operator::Plus | Operator::Minus => levels::SUM,
            Operator::Times => levels::PRODUCT,
        }
    }

    /// The level that its left operand has at least. Comparisons make no chains.
    pub(crate) fn left(self) -> u8
        ensures { result ≡ left self }
    {
        match self {
            Operator::Equal
            | Operator::NotEqual
            | Operator::Less
            | Operator::LessOrEqual
            | Operator::Greater
            | Operator::GreaterOrEqual => levels::SUM,
            _ => self.level(),
        }
    }
}
