ghost use Rattle.std.specs.Prelude.{◌≡◌, ◌+◌, ◌-◌, ◌^◌, ◌<◌, if◌then◌else◌, not};
ghost use Rattle.ht_load.specs.Answers.{is_done};

use ht_base::Answer;

/// How many requests were answered as done, and how many otherwise.
#[derive(Clone, Copy)]
pub(crate) struct Answered {
    pub(crate) accepted: u32,
    pub(crate) refused: u32,
}

impl Answered {
    /// With one answer more.
    pub(crate) fn with(self, answer: &Answer) -> Answered
        requires accepted { self.accepted < 2 ^ 32 - 1 }
        requires refused { self.refused < 2 ^ 32 - 1 }
        ensures accepted { result.accepted
            ≡ self.accepted + (if is_done answer.now then 1 else 0) }
        ensures refused { result.refused
            ≡ self.refused + (if not (is_done answer.now) then 1 else 0) }
    {
        match answer {
            Answer::Done { .. } => Answered {
                accepted: self.accepted + 1,
                refused: self.refused,
            },
            _ => Answered {
                accepted: self.accepted,
                refused: self.refused + 1,
            },
        }
    }
}
