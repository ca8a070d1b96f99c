//! Laws of the definitions, for proofs alone: the functions do nothing.
ghost use Rattle.std.specs.Prelude.{◌≡◌, ◌≢◌, ◌⊎◌, IsTrue, List, None, Some, ℕ, false, true};
ghost use Rattle.ht_base.specs.declared.event.Event.{Event};
ghost use Rattle.ht_base.specs.declared.event.Event.TheVariants.{Turn};
ghost use Rattle.ht_base.specs.declared.moment.Moment.{Moment};
ghost use Rattle.ht_base.specs.declared.reply.Answer.TheVariants.{Turned};
ghost use Rattle.ht_base.specs.declared.reply.Reply.{Reply};
ghost use Rattle.ht_base.specs.History.{IsLegal, end_of};
ghost use Rattle.ht_base.specs.Records.{RecordOf};
ghost use Rattle.ht_desk.specs.declared.fault.OpenFault.{OpenFault};
ghost use Rattle.ht_desk.specs.Moments.{Leaves};
ghost use Rattle.ht_desk.specs.Moves.{DeskHistory, IsMadeOf, IsStepOrNone, RemembersOver};
ghost use Rattle.ht_desk.specs.Opening.{AreOfFile, Fails};
ghost use Rattle.ht_desk.specs.Records.{AreSpelled};
ghost use Rattle.ht_desk.specs.Replaying.{Applies, IsJournalOf, TextsOf};
ghost use Rattle.ht_desk.specs.States.{State};
ghost use Rattle.ht_desk.specs.Steps.{Acts, Settles, Steps, store_reply};
ghost use Rattle.ht_desk.specs.Turns.{HasTurned};
ghost use Rattle.ht_machine.specs.Deciding.{effective};
ghost use Rattle.ht_machine.specs.History.{History, IsHistory};
ghost use Rattle.ht_machine.specs.Once.{IsSince};
ghost use Rattle.ht_machine.specs.TakenOnce.{WasTaken, is_among};
ghost use Rattle.ht_outside.specs.Causes.{Rose};
ghost use Rattle.ht_tree.specs.declared.slot.Slot.{Slot};
ghost use Rattle.ht_tree.specs.Soundness.{IsSound};
ghost use Rattle.ht_tree.specs.Tables.{TablesOf};

use ht_outside::Disk;

/// A file that holds the records of an office, or none, is at fault in nothing, given the same texts. So it
/// is opened, unless the disk fails or there is no memory; and an opened file is never at fault.
pub fn the_journal_of_an_office_has_no_fault()
    ensures { (texts : TextsOf) (records : List RecordOf) (t : TablesOf) (file : List ℕ)
        (fault : OpenFault) → AreSpelled records → IsJournalOf texts records t
        → AreOfFile texts records file → Fails texts file fault → ⊥ }
{
    ht_models::a_models_text_has_one_answer();
    ht_people::a_people_text_has_one_answer();
}

/// A file is at fault in one way: that of the earliest record, where several would be at fault.
pub fn a_file_has_one_fault()
    ensures { (texts : TextsOf) (file : List ℕ) (fault other : OpenFault) → Fails texts file fault
        → Fails texts file other → fault ≡ other }
{
    ht_models::a_models_text_has_one_answer();
    ht_people::a_people_text_has_one_answer();
}

/// The records of an office lead to one state of its tables. So an office that is opened again, with the
/// same records, has the tables that it had.
pub fn the_records_of_an_office_lead_to_one_state()
    ensures { (texts : TextsOf) (records : List RecordOf) (t u : TablesOf)
        → IsJournalOf texts records t → IsJournalOf texts records u → t ≡ u }
{
    ht_models::a_models_text_has_one_answer();
    ht_people::a_people_text_has_one_answer();
}

/// Whatever a crash leaves of a step of an office, at any moment since it began, is at fault in nothing,
/// given the same texts: it is opened, unless the disk fails or there is no memory.
pub fn what_a_crash_leaves_of_a_step_has_no_fault<D: Disk>()
    ensures { (texts : TextsOf) (s mid t : State) (e : Event) (old new : D)
        → Leaves D.Disk texts s mid t e old new → IsTrue (D.tells_images old)
        → (image : List ℕ) → D.left_since new (D.moment old) image
        → (fault : OpenFault) → Fails texts image fault → ⊥ }
{
    ht_models::a_models_text_has_one_answer();
    ht_people::a_people_text_has_one_answer();
}

/// A step of a desk keeps the limit. The count of faults stays, or it rose and that a disk failed is
/// answered. After any other reply nothing is in doubt.
pub fn a_step_of_a_desk_fails_with_its_disk_alone()
    ensures limit { (s : State) (e : Event) (reply : Reply) (t : State) → Steps s e reply t
        → t.limit ≡ s.limit }
    ensures faults { (s : State) (e : Event) (reply : Reply) (t : State) → Steps s e reply t
        → (t.faults ≡ s.faults) ⊎ ((reply ≡ store_reply) × Rose s.faults t.faults) }
    ensures certain { (s : State) (e : Event) (reply : Reply) (t : State) → Steps s e reply t
        → reply ≢ store_reply → t.doubt ≡ None }
{}

/// What a step of a desk is for the machine. To settle a doubt is none of its steps on the tables, or that
/// of the record in doubt. What follows is the machine's step of the event, with its reply; or none, where
/// the event is refused for a disk or for the length of the journal.
pub fn a_step_of_a_desk_is_made_of_the_machines()
    ensures settles { (s mid : State) → Settles s mid
        → (mid.tables ≡ s.tables)
        ⊎ ((r : RecordOf) × (s.doubt ≡ Some r) × Applies s.tables r mid.tables) }
    ensures acts { (mid : State) (e : Event) (reply : Reply) (t : State) → Acts mid e reply t
        → IsStepOrNone mid.tables e reply t.tables }
{}

/// A history of a desk is one of the machine on its tables, but for events that aren't kept, and for the
/// records that were in doubt and turned out to be there.
pub fn a_history_of_a_desk_is_one_of_the_machine()
    ensures { (s : State) (history : DeskHistory) → IsLegal Steps s history
        → (moves : History) × IsHistory s.tables moves × IsMadeOf history moves
        × (end_of s.tables moves ≡ (end_of s history).tables) }
{}

/// A numbered command that was accepted acts once over a desk too: whenever it is sent again in a history,
/// it does nothing, after what was due before it, and gets its first answer, or is refused with the number
/// of a later one. Or it is refused for a disk or for the length of the journal, and nothing changes.
pub fn a_desk_remembers_a_command()
    ensures { (slot : Slot) (s : State) (history : DeskHistory) → IsSince slot s.tables
        → (legal : IsLegal Steps s history) → RemembersOver slot s history legal }
{
    ht_machine::a_command_acts_once();
}

/// A turn of a desk that is answered as one takes all that is due by its moment, in its order, and nothing
/// is due by then any more. A deadline that was taken is never taken again: it stays so whatever event
/// comes, and no turn takes it. One that a turn takes counts as taken after it.
pub fn a_desk_takes_each_deadline_once()
    ensures turned { (s : State) (at : Moment) (reply : Reply) (t : State)
        → (p : Steps s (Turn at) reply t) → reply.answer ≡ Turned
        → HasTurned (p.mid).tables (effective (p.mid).tables at.0) reply t.tables }
    ensures stays { (s : State) (e : Event) (reply : Reply) (t : State) → (p : Steps s e reply t)
        → IsSound s.tables → IsSound (p.mid).tables → (task place : ℕ)
        → WasTaken s.tables task place → WasTaken t.tables task place }
    ensures never_again { (s : State) (at : Moment) (reply : Reply) (t : State)
        → (p : Steps s (Turn at) reply t) → IsSound s.tables → IsSound (p.mid).tables
        → (w : HasTurned (p.mid).tables (effective (p.mid).tables at.0) reply t.tables)
        → (task place : ℕ) → WasTaken s.tables task place → is_among task place w.dues ≡ false }
    ensures taken { (s : State) (at : Moment) (reply : Reply) (t : State)
        → (p : Steps s (Turn at) reply t) → IsSound (p.mid).tables
        → (w : HasTurned (p.mid).tables (effective (p.mid).tables at.0) reply t.tables)
        → (task place : ℕ) → is_among task place w.dues ≡ true → WasTaken t.tables task place }
{
    ht_machine::a_deadline_is_taken_once();
}
