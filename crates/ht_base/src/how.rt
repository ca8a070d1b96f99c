ghost use Rattle.std.specs.Prelude.{◌≡◌, IfOk};
ghost use Rattle.ht_base.specs.Kinds.{kind_of_how};

use crate::{Kind, Memory, Txt};
use std::alloc::Global;

/// How the results of sub tasks become one value (WS-HumanTask 1.1, 4.8).
#[derive(Drop)]
pub enum How {
    /// The texts, one behind another.
    Concat,
    /// The texts, with this one between each two.
    ConcatWithDelimiter(Txt),
    MostFrequent,
    LeastFrequent,
    /// The most frequent text, where more than this percent of the texts are it.
    VoteOnString(u8),
    And,
    Or,
    /// The most frequent truth value, where more than this percent of the values are it.
    Vote(u8),
    Min,
    Max,
    Sum,
    Avg,
}

impl How {
    /// The kind of the values that it takes, and of its result.
    pub fn kind(&self) -> Kind
        ensures { result ≡ kind_of_how self.now }
    {
        match self {
            How::Concat
            | How::ConcatWithDelimiter(_)
            | How::MostFrequent
            | How::LeastFrequent
            | How::VoteOnString(_) => Kind::Text,
            How::And | How::Or | How::Vote(_) => Kind::Truth,
            How::Min | How::Max | How::Sum | How::Avg => Kind::Int,
        }
    }

    pub fn copy(&self, alloc: Global) -> Result<How, Memory>
        ensures { IfOk result (λ how. how ≡ self.now) }
    {
        Ok(match self {
            How::Concat => How::Concat,
            How::ConcatWithDelimiter(delimiter) => How::ConcatWithDelimiter(delimiter.copy(alloc)?),
            How::MostFrequent => How::MostFrequent,
            How::LeastFrequent => How::LeastFrequent,
            How::VoteOnString(percent) => How::VoteOnString(*percent),
            How::And => How::And,
            How::Or => How::Or,
            How::Vote(percent) => How::Vote(*percent),
            How::Min => How::Min,
            How::Max => How::Max,
            How::Sum => How::Sum,
            How::Avg => How::Avg,
        })
    }
}
