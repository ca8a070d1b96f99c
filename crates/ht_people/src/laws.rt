ghost use Rattle.std.specs.Prelude.{◌≡◌, ◌≢◌, ℕ, List, Err, Ok, Result};
ghost use Rattle.ht_people.specs.BuiltIn.{IsBuiltIn, built_in_people, built_in_text};
ghost use Rattle.ht_people.specs.Directory.{DirectoryOf};
ghost use Rattle.ht_people.specs.Reading.{Reads};
ghost use Rattle.ht_people.specs.declared.refusal.PeopleRefusal.{PeopleRefusal};

/// A law: a people text is read to one answer, unless there is no memory. It does nothing.
pub fn a_people_text_has_one_answer()
    ensures { (text : List ℕ) (a b : Result DirectoryOf PeopleRefusal) → Reads text a → Reads text b
        → a ≢ Err PeopleRefusal.Memory → b ≢ Err PeopleRefusal.Memory → a ≡ b }
{}

/// The people text of an office that brings none reads to sixteen persons, `p0` to `p15`. So a call
/// that reads it answers these, unless there is no memory.
pub fn built_in_text_reads()
    ensures reads { Reads built_in_text (Ok built_in_people) }
    ensures answered { (answer : Result DirectoryOf PeopleRefusal) → Reads built_in_text answer
        → IsBuiltIn answer }
{}
