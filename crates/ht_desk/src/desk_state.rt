ghost use Rattle.std.specs.Prelude.{◌≡◌, ℕ};
ghost use Rattle.ht_desk.specs.Keeping.{IsAt};
ghost use Rattle.ht_desk.specs.Replaying.{TextsOf};
ghost use Rattle.ht_desk.specs.States.{State};
ghost use Rattle.ht_desk.specs.Stepping.{Stands};

use crate::{Counts, Doubt};
use ht_journal::JournalState;
use ht_outside::Disk;
use ht_tree::Tables;
use std::alloc::Global;

/// A desk without its disks. Its calls take the disk, which is to be the same each time.
#[derive(Drop)]
pub struct DeskState {
    pub(crate) alloc: Global,
    pub(crate) journal: JournalState,
    pub(crate) tables: Tables,
    pub(crate) doubt: Option<Doubt>,
    pub(crate) counts: Counts,
}

impl DeskState {
    /// How often what happened, since the office was opened.
    pub fn counts(&self) -> Counts
        ensures { result ≡ self.now.counts }
    {
        self.counts
    }

    /// The tables.
    pub fn tables(&self) -> &Tables
        ensures { result.now ≡ self.now.tables }
    {
        &self.tables
    }

    /// From here on the file of the journal is lengthened ahead of its records: see
    /// [`JournalState::lengthen_ahead`]. The state and the disk stay.
    pub fn lengthen_ahead<D: Disk>(&mut self, disk: &D)
        ensures same { (beside : ℕ) (texts : TextsOf) (s : State)
            → IsAt D.Disk beside texts s self.old disk.now
            → IsAt D.Disk beside texts s self.new disk.now }
        // For a caller to whom the state doesn't matter.
        ensures stands { Stands D.Disk self.old disk.now → Stands D.Disk self.new disk.now }
    {
        self.journal.lengthen_ahead(disk);
    }
}
