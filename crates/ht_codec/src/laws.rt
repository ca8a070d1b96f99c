//! Laws of the definitions, for proofs alone: the functions do nothing.
ghost use Rattle.std.specs.Prelude.{◌≡◌, ◌≤◌, ◌++◌, ◌∷◌, [], ◌⊎◌, ℕ, List, Option, length, slice_index};
ghost use Rattle.ht_base.specs.Events.{IsValid};
ghost use Rattle.ht_base.specs.Records.{RecordOf};
ghost use Rattle.ht_base.specs.Records.RecordOf.{an_asking};
ghost use Rattle.ht_base.specs.declared.event.Command.{Command};
ghost use Rattle.ht_base.specs.declared.event.Event.TheVariants.{Ask};
ghost use Rattle.ht_base.specs.declared.moment.Moment.{Moment};
ghost use Rattle.ht_base.specs.declared.retry.Retry.{Retry};
ghost use Rattle.ht_base.specs.declared.task_id.TaskId.{TaskId};
ghost use Rattle.ht_codec.specs.Records.{IsBytes, IsRecord, Refuses, Spells, place_of};
ghost use Rattle.ht_codec.specs.Types.{RecordHolds};
ghost use Rattle.ht_codec.specs.declared.refusal.CodecRefusal.{CodecRefusal};
ghost use Rattle.ht_codec.specs.declared.refusal.CodecRefusal.TheVariants.{Memory, Short, Trailing};

/// A valid record has one spelling.
pub fn each_valid_record_has_one_spelling()
    ensures some { (r : RecordOf) → IsRecord r → RecordHolds r → (bytes : List ℕ) × Spells r bytes }
    ensures one { (r : RecordOf) (a b : List ℕ) → Spells r a → Spells r b → a ≡ b }
{}

/// Only valid records have a spelling. What a valid event asks is one.
pub fn each_spelling_is_of_a_valid_record()
    ensures valid { (r : RecordOf) (bytes : List ℕ) → Spells r bytes → IsRecord r }
    ensures typed { (r : RecordOf) (bytes : List ℕ) → Spells r bytes → RecordHolds r }
    ensures asked { (at : Moment) (caller : List ℕ) (retry : Option Retry) (task : TaskId)
        (command : Command) → IsValid (Ask at caller retry task command)
        → IsRecord (an_asking at caller retry task command) }
{}

/// A spelling is one record's, and no spelling begins another.
pub fn no_spelling_begins_another()
    ensures { (r s : RecordOf) (a b more : List ℕ) → Spells r a → Spells s b → b ≡ a ++ more
        → (r ≡ s) × (more ≡ []) }
{}

/// Bytes either spell a record or are refused, for one reason.
pub fn bytes_have_one_answer()
    ensures some { (bytes : List ℕ) → IsBytes bytes
        → ((r : RecordOf) × Spells r bytes) ⊎ ((why : CodecRefusal) × Refuses bytes why) }
    ensures not_both { (bytes : List ℕ) (r : RecordOf) (why : CodecRefusal) → Spells r bytes
        → Refuses bytes why → ⊥ }
    ensures one { (bytes : List ℕ) (why other : CodecRefusal) → Refuses bytes why
        → Refuses bytes other → why ≡ other }
    ensures not_memory { (bytes : List ℕ) → Refuses bytes Memory → ⊥ }
{}

/// A refusal names a place of the bytes, or the one behind the last.
pub fn refusals_stand_inside()
    ensures { (bytes : List ℕ) (why : CodecRefusal) → Refuses bytes why
        → place_of why ≤ length bytes }
{}

/// A spelling that is cut is short, and one with bytes behind it is refused at its end.
pub fn spellings_end_where_they_end()
    ensures cut { (r : RecordOf) (bytes front : List ℕ) (next : ℕ) (more : List ℕ) → IsBytes front
        → Spells r bytes → bytes ≡ front ++ next ∷ more → Refuses front (Short (length front)) }
    ensures trailing { (r : RecordOf) (bytes : List ℕ) (next : ℕ) (more : List ℕ) → Spells r bytes
        → Refuses (bytes ++ next ∷ more) (Trailing (length bytes)) }
{}

/// A spelling has 1 to 524,297 bytes, and the first is at most 6: a greater one is free for what is
/// no record.
pub fn spellings_are_short()
    ensures length { (r : RecordOf) (bytes : List ℕ) → Spells r bytes
        → (1 ≤ length bytes) × (length bytes ≤ 524297) }
    ensures first { (r : RecordOf) (bytes : List ℕ) → Spells r bytes → slice_index bytes 0 ≤ 6 }
{}
