ghost use Rattle.std.specs.Prelude.{◌≡◌, ◌≢◌, ◌⊎◌, ◌≤◌, ◌++◌, ◌∷◌, [], ℕ, List, None, IsTrue};
ghost use Rattle.ht_base.specs.declared.event.Event.{Event};
ghost use Rattle.ht_base.specs.declared.record.Record.{Record};
ghost use Rattle.ht_base.specs.Records.{record_of};
ghost use Rattle.ht_desk.specs.Keeping.{IsAt};
ghost use Rattle.ht_desk.specs.Records.{Finds};
ghost use Rattle.ht_desk.specs.Replaying.{TextsOf};
ghost use Rattle.ht_desk.specs.Staging.{IsEntryOf, noted};
ghost use Rattle.ht_desk.specs.States.{State};
ghost use Rattle.ht_desk.specs.Stepping.{Stands};
ghost use Rattle.ht_desk.specs.Steps.{Acts, store_reply};
ghost use Rattle.ht_journal.specs.Keeping.{doubt_of};
ghost use Rattle.ht_journal.specs.Rooms.{IsRoomy};
ghost use Rattle.ht_outside.specs.Causes.{Rose};
ghost use Rattle.ht_outside.specs.Moments.{LeavesOnly};

use crate::replies::{full_reply, store_reply};
use crate::{DeskState, Doubt};
use ht_base::{Bytes, Reply};
use ht_codec::spellings_are_short;
use ht_journal::AppendRefusal;
use ht_outside::Disk;

impl DeskState {
    // Keeps what an event left, and then makes what it leads to. It takes no memory.
    pub(crate) fn keep<D: Disk>(
        &mut self,
        disk: &mut D,
        body: &Bytes,
        doubt: Doubt,
        reply: Reply,
    ) -> Reply
        requires certain { (self.old.journal.doubt ≡ None) × (self.old.doubt ≡ None) }
        requires at { Stands D.Disk self.old disk.old }
        requires entry { (e : Event) × (r : Record)
            × IsEntryOf self.old.tables e reply r body.now doubt }
        requires not_store { reply.answer ≢ store_reply.answer }
        ensures acts { (beside : ℕ) (texts : TextsOf) (s : State) (e : Event) (r : Record)
            → IsAt D.Disk beside texts s self.old disk.old
            → IsEntryOf self.old.tables e reply r body.now doubt
            → (t : State) × Acts s e result t × IsAt D.Disk beside texts t self.new disk.new }
        ensures any_moment { (beside : ℕ) (texts : TextsOf) (s : State) (e : Event) (r : Record)
            → IsAt D.Disk beside texts s self.old disk.old
            → IsEntryOf self.old.tables e reply r body.now doubt
            → IsTrue (D.tells_images disk.old)
            → LeavesOnly D.Disk disk.old disk.new (λ image.
            Finds s.records image ⊎ Finds (s.records ++ record_of r ∷ []) image) }
        ensures limit { self.new.journal.limit ≡ self.old.journal.limit }
        ensures room { D.room disk.new ≡ D.room disk.old }
        ensures in_room { IsRoomy (D.room disk.old) self.old.journal.limit
            → result.answer ≢ store_reply.answer }
        ensures faults { D.faults disk.old ≤ D.faults disk.new }
        ensures still { result.answer ≢ store_reply.answer
            → D.faults disk.new ≡ D.faults disk.old }
        ensures store { result.answer ≡ store_reply.answer
            → Rose (D.faults disk.old) (D.faults disk.new) }
        ensures tells { D.tells_images disk.new ≡ D.tells_images disk.old }
    {
        spellings_are_short();
        self.journal.reads(disk);
        match self.journal.append(disk, body.as_slice()) {
            Ok(()) => {
                self.commit(doubt);
                reply
            }
            Err(AppendRefusal::Store) => {
                self.note(doubt);
                store_reply()
            }
            Err(AppendRefusal::Full(_)) => full_reply(),
            Err(AppendRefusal::TooLong) => unreachable!(),
        }
    }

    // Remembers what is to be done, where the record is in doubt.
    fn note(&mut self, doubt: Doubt)
        requires { self.old.doubt ≡ None }
        ensures { self.new
            ≡ record self.old { doubt = noted (doubt_of self.old.journal) doubt } }
    {
        if self.journal.doubtful() {
            self.doubt = Some(doubt);
        }
    }
}
