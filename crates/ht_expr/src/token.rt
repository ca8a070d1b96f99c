ghost use Rattle.std.specs.Prelude.{◌≡◌, ◌++◌, IfSome, drop, length};
ghost use Rattle.ht_expr.specs.Scanning.{mark_in};
ghost use Rattle.ht_expr.specs.Tokens.{mark_bytes};

/// A token that is one or two signs.
#[derive(Clone, Copy)]
pub(crate) enum Mark {
    Open,
    Close,
    Comma,
    Dot,
    Plus,
    Minus,
    Times,
    Equal,
    NotEqual,
    Less,
    LessOrEqual,
    Greater,
    GreaterOrEqual,
}

impl Mark {
    /// The longest mark that these bytes begin with.
    pub(crate) fn first_of(bytes: &[u8]) -> Option<Mark>
        ensures longest { result ≡ mark_in bytes.now }
        ensures stands { IfSome result
            (λ m. bytes.now ≡ mark_bytes m ++ drop (length (mark_bytes m)) bytes.now) }
    {
        match bytes {
            [b'(', ..] => Some(Mark::Open),
            [b')', ..] => Some(Mark::Close),
            [b',', ..] => Some(Mark::Comma),
            [b'.', ..] => Some(Mark::Dot),
            [b'+', ..] => Some(Mark::Plus),
            [b'-', ..] => Some(Mark::Minus),
            [b'*', ..] => Some(Mark::Times),
            [b'=', b'=', ..] => Some(Mark::Equal),
            [b'!', b'=', ..] => Some(Mark::NotEqual),
            [b'<', b'=', ..] => Some(Mark::LessOrEqual),
            [b'<', ..] => Some(Mark::Less),
            [b'>', b'=', ..] => Some(Mark::GreaterOrEqual),
            [b'>', ..] => Some(Mark::Greater),
            _ => None,
        }
    }

    pub(crate) fn as_str(self) -> &'static str
        ensures { result.now ≡ mark_bytes self }
    {
        match self {
            Mark::Open => "(",
            Mark::Close => ")",
            Mark::Comma => ",",
            Mark::Dot => ".",
            Mark::Plus => "+",
            Mark::Minus => "-",
            Mark::Times => "*",
            Mark::Equal => "==",
            Mark::NotEqual => "!=",
            Mark::Less => "<",
            Mark::LessOrEqual => "<=",
            Mark::Greater => ">",
            Mark::GreaterOrEqual => ">=",
        }
    }
}

/// A token of a text.
#[derive(Clone, Copy)]
pub(crate) enum Token<'a> {
    Number(u64),
    /// What stands between two quotation marks.
    Quoted(&'a str),
    Word(&'a str),
    Mark(Mark),
}

/// A token, and how many bytes stand before it.
#[derive(Clone, Copy)]
pub(crate) struct Placed<'a> {
    pub token: Token<'a>,
    pub at: usize,
}
