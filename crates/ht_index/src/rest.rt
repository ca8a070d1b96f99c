ghost use Rattle.std.specs.Prelude.{ℕ, ◌≡◌, ◌/◌, ◌%◌, ◌^◌, ◌<◌, ◌≤◌, List, [], ◌∷◌, length, IfNone, IfSome};
ghost use Rattle.ht_index.specs.Sets.{Mark, tasks_in, words_left};

use crate::words::{first_from, word};
use ht_base::TaskId;
use std::marker::Model;

/// Those tasks of a set that one hasn't come to yet, seen as the list of them, ascending by number.
#[derive(Drop)]
pub struct Rest<'a> {
    words: &'a [u64],
    full: &'a [u64],
    // What is left of one word, and the number of the word's first task. All words behind it are left.
    bits: u64,
    base: u32,
}

impl<'a> Model for Rest<'a> {
    ghost use Rattle.std.specs.Prelude.{List};
    ghost use Rattle.ht_base.specs.declared.task_id.TaskId.{TaskId};

    ghost Value = { List TaskId };

    ghost use Rattle.ht_index.specs.KeptRests.{GoesByWords, left_in};

    ghost view = { left_in };

    ghost invariant = { GoesByWords };
}

impl<'a> Rest<'a> {
    // All tasks of these words, where bit w of `full` tells that word w isn't 0.
    #[inline(always)]
    pub(crate) fn over(words: &'a [u64], full: &'a [u64]) -> Rest<'a>
        requires few { length words.now ≤ 2 ^ 26 }
        requires few_marks { length full.now ≤ 2 ^ 26 }
        requires marks { Mark full.now words.now }
        ensures { result ≡ tasks_in words.now }
    {
        Rest {
            words,
            full,
            bits: word(words, 0),
            base: 0,
        }
    }

    /// The next of them, which is left no more.
    #[inline(always)]
    pub fn next(&mut self) -> Option<TaskId>
        ensures some { IfSome result (λ task. self.old ≡ task ∷ self.new) }
        ensures none { IfNone result ((self.old ≡ []) × (self.new ≡ [])) }
    {
        if self.bits == 0 {
            match first_from(self.full, self.base / 64 + 1) {
                Some(place) => {
                    self.bits = word(self.words, place);
                    self.base = 64 * place;
                }
                None => return None,
            }
        }
        Some(take_lowest(&mut self.bits, self.base))
    }

    /// The next of them, if it stands near the one before. No call is made for it.
    #[inline(always)]
    pub fn next_near(&mut self) -> Option<TaskId>
        ensures some { IfSome result (λ task. self.old ≡ task ∷ self.new) }
        ensures none { IfNone result (self.new ≡ self.old) }
    {
        if self.bits == 0 {
            return None;
        }
        Some(take_lowest(&mut self.bits, self.base))
    }
}

// The task of the lowest bit that is set in a word, whose first task has the number `base`. The bit is cleared.
#[inline(always)]
fn take_lowest(bits: &mut u64, base: u32) -> TaskId
    requires some { 0 < bits.old }
    requires whole { base % 64 ≡ 0 }
    ensures { (words : List ℕ) → tasks_in (words_left (base / 64) bits.old words)
        ≡ result ∷ tasks_in (words_left (base / 64) bits.new words) }
{
    let bit = bits.trailing_zeros();
    *bits &= !(1u64 << bit);
    TaskId(base + bit)
}
