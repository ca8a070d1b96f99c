ghost use Rattle.std.specs.Prelude.{◌≡◌, ◌≢◌, ◌⊎◌, ◌≤◌, ℕ, List, None, IsTrue};
ghost use Rattle.ht_base.specs.Events.{IsValid};
ghost use Rattle.ht_desk.specs.Keeping.{IsAt};
ghost use Rattle.ht_desk.specs.Moments.{FindsNew, IsOffice, MayFind};
ghost use Rattle.ht_desk.specs.Records.{Finds};
ghost use Rattle.ht_desk.specs.Replaying.{TextsOf};
ghost use Rattle.ht_desk.specs.States.{State};
ghost use Rattle.ht_desk.specs.Stepping.{AnswersWith, Stands};
ghost use Rattle.ht_desk.specs.Steps.{Acts, Settles, store_reply};
ghost use Rattle.ht_journal.specs.Rooms.{IsRoomy};
ghost use Rattle.ht_outside.specs.Causes.{Rose};
ghost use Rattle.ht_outside.specs.Moments.{LeavesOnly};
ghost use Rattle.ht_tree.specs.Soundness.{IsSound};

use crate::DeskState;
use crate::entry::{Entry, Staged};
use crate::replies::{memory_reply, store_reply};
use ht_base::{Event, Reply};
use ht_outside::Disk;

impl DeskState {
    /// Answers an event. Where a record is in doubt, it is looked for first: it joins the others if it is
    /// there, and is forgotten if it isn't. Then the event is decided, and the record that it leaves is kept
    /// on the disk before the tables change. All memory is taken before the disk is written.
    ///
    /// The reply is the machine's own, but for three refusals:
    /// - [`Refusal::Store`](ht_base::Refusal::Store) where the disk failed in this call. Then the event wasn't
    ///   looked at, since the doubt stays; or its record isn't kept, or is in doubt now.
    /// - [`Limit::Journal`](ht_base::Limit::Journal) where with the event's record the journal would be longer
    ///   than its limit.
    /// - [`Refusal::Memory`](ht_base::Refusal::Memory) where there isn't enough memory.
    ///
    /// After each of the three the event has changed nothing of the tables.
    pub fn step<D: Disk>(&mut self, disk: &mut D, event: &Event) -> Reply
        requires valid { IsValid event.now }
        requires at { Stands D.Disk self.old disk.old }
        ensures answers { AnswersWith D.Disk event.now result self.old self.new disk.old disk.new }
        // For a caller to whom the state doesn't matter.
        ensures goes_on { Stands D.Disk self.new disk.new }
    {
        let reply = self.answer(disk, event);
        self.counts.reply(event, reply.taken);
        self.journal.reads(disk);
        reply
    }

    // Settles a doubt, and then acts on the event.
    fn answer<D: Disk>(&mut self, disk: &mut D, event: &Event) -> Reply
        requires valid { IsValid event.now }
        requires at { Stands D.Disk self.old disk.old }
        ensures answers { (beside : ℕ) (texts : TextsOf) (s : State)
            → IsAt D.Disk beside texts s self.old disk.old
            → (mid : State) × (t : State) × Settles s mid × Acts mid event.now result t
            × IsAt D.Disk beside texts t self.new disk.new × IsSound mid.tables
            × (IsTrue (D.tells_images disk.old)
            → LeavesOnly D.Disk disk.old disk.new (MayFind s mid event.now))
            × (IsTrue (D.tells_images disk.old)
            → LeavesOnly D.Disk disk.old disk.new (IsOffice texts)) }
        ensures limit { self.new.journal.limit ≡ self.old.journal.limit }
        ensures room { D.room disk.new ≡ D.room disk.old }
        ensures in_room { IsRoomy (D.room disk.old) self.old.journal.limit
            → result.answer ≢ store_reply.answer }
        ensures faults { D.faults disk.old ≤ D.faults disk.new }
        ensures still { result.answer ≢ store_reply.answer
            → D.faults disk.new ≡ D.faults disk.old }
        ensures store { result.answer ≡ store_reply.answer
            → Rose (D.faults disk.old) (D.faults disk.new) }
        ensures tells { D.tells_images disk.new ≡ D.tells_images disk.old }
    {
        if !self.settle(disk) {
            return store_reply();
        }
        self.act(disk, event)
    }

    // Decides an event, and keeps what it leaves. Nothing is in doubt before.
    fn act<D: Disk>(&mut self, disk: &mut D, event: &Event) -> Reply
        requires valid { IsValid event.now }
        requires certain { (self.old.journal.doubt ≡ None) × (self.old.doubt ≡ None) }
        requires at { Stands D.Disk self.old disk.old }
        ensures acts { (beside : ℕ) (texts : TextsOf) (s : State)
            → IsAt D.Disk beside texts s self.old disk.old
            → (t : State) × Acts s event.now result t
            × IsAt D.Disk beside texts t self.new disk.new }
        ensures any_moment { (beside : ℕ) (texts : TextsOf) (s : State)
            → IsAt D.Disk beside texts s self.old disk.old
            → IsTrue (D.tells_images disk.old)
            → LeavesOnly D.Disk disk.old disk.new (λ image.
            Finds s.records image ⊎ FindsNew s event.now image) }
        ensures limit { self.new.journal.limit ≡ self.old.journal.limit }
        ensures room { D.room disk.new ≡ D.room disk.old }
        ensures in_room { IsRoomy (D.room disk.old) self.old.journal.limit
            → result.answer ≢ store_reply.answer }
        ensures faults { D.faults disk.old ≤ D.faults disk.new }
        ensures still { result.answer ≢ store_reply.answer
            → D.faults disk.new ≡ D.faults disk.old }
        ensures store { result.answer ≡ store_reply.answer
            → Rose (D.faults disk.old) (D.faults disk.new) }
        ensures tells { D.tells_images disk.new ≡ D.tells_images disk.old }
    {
        self.journal.reads(disk);
        let Ok(staged) = self.stage(event) else {
            return memory_reply();
        };
        let Staged { reply, entry } = staged;
        let Some(entry) = entry else {
            return reply;
        };
        let Entry { body, doubt } = entry;
        self.keep(disk, &body, doubt, reply)
    }
}
