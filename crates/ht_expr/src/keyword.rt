ghost use Rattle.std.specs.Prelude.{◌≡◌, ◌≢◌, IfSome, IfNone};
ghost use Rattle.ht_expr.specs.Expected as expected;
ghost use Rattle.ht_expr.specs.Keywords.{spelling};

/// A word with a meaning of its own.
#[derive(Clone, Copy)]
pub(crate) enum Keyword {
    If,
    Then,
    Else,
    Or,
    And,
    Not,
    True,
    False,
    Priority,
    Initiator,
    In,
    Out,
    Set,
    Made,
    Finished,
    Done,
    CountText,
    CountTrue,
    Nobody,
    Everybody,
    User,
    Group,
    Union,
    Intersect,
    Except,
    When,
}

impl Keyword {
    const ALL: [Keyword; 26] = [
        Keyword::If,
        Keyword::Then,
        Keyword::Else,
        Keyword::Or,
        Keyword::And,
        Keyword::Not,
        Keyword::True,
        Keyword::False,
        Keyword::Priority,
        Keyword::Initiator,
        Keyword::In,
        Keyword::Out,
        Keyword::Set,
        Keyword::Made,
        Keyword::Finished,
        Keyword::Done,
        Keyword::CountText,
        Keyword::CountTrue,
        Keyword::Nobody,
        Keyword::Everybody,
        Keyword::User,
        Keyword::Group,
        Keyword::Union,
        Keyword::Intersect,
        Keyword::Except,
        Keyword::When,
    ];

    fn spelling(self) -> &'static str
        ensures { result.now ≡ spelling self }
    {
        match self {
            Keyword::If => "if",
            Keyword::Then => "then",
            Keyword::Else => "else",
            Keyword::Or => "or",
            Keyword::And => "and",
            Keyword::Not => "not",
            Keyword::True => "true",
            Keyword::False => "false",
            Keyword::Priority => "priority",
            Keyword::Initiator => "initiator",
            Keyword::In => "in",
            Keyword::Out => "out",
            Keyword::Set => "set",
            Keyword::Made => "made",
            Keyword::Finished => "finished",
            Keyword::Done => "done",
            Keyword::CountText => "countText",
            Keyword::CountTrue => "countTrue",
            Keyword::Nobody => "nobody",
            Keyword::Everybody => "everybody",
            Keyword::User => "user",
            Keyword::Group => "group",
            Keyword::Union => "union",
            Keyword::Intersect => "intersect",
            Keyword::Except => "except",
            Keyword::When => "when",
        }
    }

    /// The keyword that is spelled so.
    pub(crate) fn of(word: &str) -> Option<Keyword>
        ensures some { IfSome result (λ keyword. word.now ≡ spelling keyword) }
        ensures none { IfNone result ((keyword : Keyword) → word.now ≢ spelling keyword) }
    {
        spelled_so(word, &Keyword::ALL)
    }
}

// The first of these keywords that is spelled so.
fn spelled_so(word: &str, keywords: &[Keyword]) -> Option<Keyword>
    ensures { result ≡ expected.spelled_so word.now keywords.now }
{
    for keyword in keywords {
        if word == keyword.spelling() {
            return Some(*keyword);
        }
    }
    None
}
