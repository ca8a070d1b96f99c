ghost use Rattle.std.specs.Prelude.{◌≡◌, ◌≤◌, ◌++◌, ℕ, false, true, List, None, Option, Some};
ghost use Rattle.ht_base.specs.declared.event.Command.{Command};
ghost use Rattle.ht_base.specs.declared.event.Event.{Event};
ghost use Rattle.ht_base.specs.declared.event.Event.TheVariants.{Turn};
ghost use Rattle.ht_base.specs.declared.moment.Moment.{Moment};
ghost use Rattle.ht_base.specs.declared.record.Record.{Record};
ghost use Rattle.ht_base.specs.declared.reply.Reply.{Reply};
ghost use Rattle.ht_base.specs.declared.retry.Retry.{Retry};
ghost use Rattle.ht_base.specs.declared.task_id.TaskId.{TaskId};
ghost use Rattle.ht_base.specs.Events.{IsValid};
ghost use Rattle.ht_base.specs.History.{end_of};
ghost use Rattle.ht_base.specs.Moment.{last_moment};
ghost use Rattle.ht_base.specs.Ordered.{AscendBy};
ghost use Rattle.ht_due.specs.declared.due.Due.{Due};
ghost use Rattle.ht_machine.specs.Commands.{Comes, Consequence};
ghost use Rattle.ht_machine.specs.Deciding.{Decides, moment_of};
ghost use Rattle.ht_machine.specs.History.{Applies, History, IsHistory, IsLeftAt, event_of};
ghost use Rattle.ht_machine.specs.Itself.{AnswersItself};
ghost use Rattle.ht_machine.specs.Once.{Accepts, IsAccepted, IsSince, Remembers};
ghost use Rattle.ht_machine.specs.Outcomes.{AreRead, HasEnd, HasOutcome, HaveOutcomes};
ghost use Rattle.ht_machine.specs.Refusals.{IsRefusedInOrder};
ghost use Rattle.ht_machine.specs.TakenOnce.{AreNumbered, WasTaken, is_among};
ghost use Rattle.ht_machine.specs.Timer.{AreAlike, AddsTurns, IsTimely, answers_of, events_of, moment_of_last};
ghost use Rattle.ht_machine.specs.Turning.{IsTurn};
ghost use Rattle.ht_models.specs.TreeSizes.{AreSized};
ghost use Rattle.ht_tree.specs.declared.slot.Slot.{Slot};
ghost use Rattle.ht_tree.specs.Slots.{slot_cmp};
ghost use Rattle.ht_tree.specs.Soundness.{IsSound};
ghost use Rattle.ht_tree.specs.Tables.{TablesOf};

/// Apart from want of memory an event has at most one outcome on given tables: one record that it leaves,
/// one reply, and one state of the tables after it.
pub fn one_outcome()
    ensures left { (t : TablesOf) (e : Event) (k l : Option Record) (r s : Reply) (u v : TablesOf)
        → Decides t e k r u
        → Decides t e l s v
        → k ≡ l }
    ensures reply { (t : TablesOf) (e : Event) (k l : Option Record) (r s : Reply) (u v : TablesOf)
        → Decides t e k r u
        → Decides t e l s v
        → r ≡ s }
    ensures after { (t : TablesOf) (e : Event) (k l : Option Record) (r s : Reply) (u v : TablesOf)
        → Decides t e k r u
        → Decides t e l s v
        → u ≡ v }
{}

/// What an event leaves to be kept, where it leaves anything: that something was due, or the event itself as
/// a command, each of the moment at which it acted. That is no earlier than the last moment, and becomes the
/// last one. The event of what is kept is valid, as that was. Where nothing is left, nothing changes.
pub fn what_is_left_is_of_its_moment()
    ensures nothing { (t : TablesOf) (e : Event) (r : Reply) (u : TablesOf)
        → Decides t e None r u
        → u ≡ t }
    ensures left { (t : TablesOf) (e : Event) (k : Record) (r : Reply) (u : TablesOf)
        → Decides t e (Some k) r u
        → IsLeftAt (record { 0 = moment_of t e }) e k }
    ensures later { (t : TablesOf) (e : Event) (k : Record) (r : Reply) (u : TablesOf)
        → Decides t e (Some k) r u
        → t.last ≤ moment_of t e }
    ensures last { (t : TablesOf) (e : Event) (k : Record) (r : Reply) (u : TablesOf)
        → Decides t e (Some k) r u
        → u.last ≡ moment_of t e }
    ensures valid { (t : TablesOf) (e : Event) (k : Record) (r : Reply) (u : TablesOf) (own : Event)
        → IsValid e
        → t.last ≤ last_moment
        → Decides t e (Some k) r u
        → event_of k ≡ Some own
        → IsValid own }
{}

/// A record that an event left, applied to the same tables, leads to those that the event led to. It is
/// applied in one way.
pub fn a_record_leads_to_the_same()
    ensures again { (t : TablesOf) (e : Event) (k : Record) (r : Reply) (u : TablesOf)
        → Decides t e (Some k) r u
        → Applies t k u }
    ensures once { (t : TablesOf) (k : Record) (u v : TablesOf)
        → Applies t k u
        → Applies t k v
        → u ≡ v }
{}

/// A person's command is refused for the first of its refusals that holds, in the order of one list, and
/// accepted where none does.
pub fn a_refusal_is_the_first_that_holds()
    ensures { (u : TablesOf) (caller moment task : ℕ) (c : Command) (o : Consequence)
        → Comes u caller moment task c o
        → IsRefusedInOrder u caller (record { 0 = moment }) task c o }
{}

/// What the machine refuses, it refuses by its tables: never for want of memory, of a disk, of room in the
/// journal or of turns.
pub fn the_machine_refuses_by_the_tables()
    ensures { (t : TablesOf) (e : Event) (k : Option Record) (r : Reply) (u : TablesOf)
        → Decides t e k r u
        → AnswersItself r.answer }
{}

/// A numbered command that was accepted acts once: whenever it is sent again in a history, by the same
/// person's device and for the same operation and task, it does nothing, after what was due before it. It
/// gets its first answer, or is refused with the number of a later one that was accepted of the device. For
/// want of memory nothing changes at all, and that is the answer.
pub fn a_command_acts_once()
    ensures kept { (t : TablesOf) (asked at : Moment) (caller : List ℕ) (r : Retry) (task : TaskId)
        (command : Command) (reply : Reply) (after : TablesOf)
        → AscendBy slot_cmp t.slots
        → Accepts t asked at caller r task command reply after
        → (s : Slot) × IsAccepted t caller r task command reply.answer s × IsSince s after }
    ensures remembered { (s : Slot) (t : TablesOf) (history : History)
        → IsSince s t
        → IsHistory t history
        → Remembers s t history }
{}

/// What is due may be taken in two turns: one at a moment and then one at a later moment are one at the
/// later moment, which takes what both take, in the same order.
pub fn a_turn_may_come_in_two()
    ensures { (t u v : TablesOf) (m n : ℕ) (ds es : List Due)
        → m ≤ n
        → IsTurn m t ds u
        → IsTurn n u es v
        → IsTurn n t (ds ++ es) v }
{}

/// A turn has at most one end, and takes the same in the same order.
pub fn a_turn_has_one_end()
    ensures tables { (t u v : TablesOf) (n : ℕ) (ds es : List Due)
        → IsTurn n t ds u
        → IsTurn n t es v
        → u ≡ v }
    ensures taken { (t u v : TablesOf) (n : ℕ) (ds es : List Due)
        → IsTurn n t ds u
        → IsTurn n t es v
        → ds ≡ es }
{}

/// When the timer runs, and whether, changes no answer of a command: of two histories from the same
/// tables, where one has the events of the other and Turn events beside them, the commands are answered
/// alike. The moments don't fall and begin no lower than that of the last record, and memory doesn't run
/// out.
pub fn the_timer_changes_no_answer()
    ensures { (t : TablesOf) (few more : History)
        → IsTimely t few
        → IsTimely t more
        → AddsTurns (events_of few) (events_of more)
        → answers_of few ≡ answers_of more }
{}

/// One more Turn event, at the last moment of the history that has more of them or later, leaves
/// tables that are equal but for the moment of the last record.
pub fn a_last_turn_leaves_the_same()
    ensures { (t : TablesOf) (few more : History)
        → IsTimely t few
        → IsTimely t more
        → AddsTurns (events_of few) (events_of more)
        → (at : Moment)
        → moment_of_last t.last (events_of more) ≤ at.0
        → (k l : Option Record) (r s : Reply) (u v : TablesOf)
        → Decides (end_of t few) (Turn at) k r u
        → Decides (end_of t more) (Turn at) l s v
        → AreAlike u v }
{}

/// A deadline that was taken is never taken again: it stays so whatever event comes, and no turn takes it.
/// One that a turn takes counts as taken after it. The rows stand at their numbers, as in all tables that
/// are sound.
pub fn a_deadline_is_taken_once()
    ensures stays { (t : TablesOf) (e : Event) (k : Option Record) (r : Reply) (after : TablesOf)
        (task place : ℕ)
        → AreNumbered t.rows
        → Decides t e k r after
        → WasTaken t task place
        → WasTaken after task place }
    ensures never_again { (by : ℕ) (t after : TablesOf) (dues : List Due) (task place : ℕ)
        → AreNumbered t.rows
        → IsTurn by t dues after
        → WasTaken t task place
        → is_among task place dues ≡ false }
    ensures taken { (by : ℕ) (t after : TablesOf) (dues : List Due) (task place : ℕ)
        → AreNumbered t.rows
        → IsTurn by t dues after
        → is_among task place dues ≡ true
        → WasTaken after task place }
{}

/// A turn always comes to its end, on sound tables where each model's tree is counted.
pub fn a_turn_comes_to_its_end()
    ensures { (t : TablesOf) (by : ℕ) → AreSized t.models → IsSound t → HasEnd t by }
{}

/// An event always has an outcome, on sound tables of models that were read: there is a model, and each
/// one's tree is counted. What is due before it comes to an end, and so does what follows of a command. And
/// so it goes on: events have outcomes one after another.
pub fn an_event_has_an_outcome()
    ensures one { (t : TablesOf) (e : Event) → AreRead t.models → IsSound t → HasOutcome t e }
    ensures more { (t : TablesOf) (events : List Event)
        → AreRead t.models
        → IsSound t
        → HaveOutcomes t events }
{}
