ghost use Rattle.std.specs.Prelude.{◌≡◌, ◌≤◌};
ghost use Rattle.ht_desk.specs.Counting.{with_joined};
ghost use Rattle.ht_tree.specs.Plans.{IsPlanOf, IsPrepared, committed};
ghost use Rattle.ht_tree.specs.Soundness.{IsSound};

use crate::{DeskState, Doubt};

impl DeskState {
    // Makes what a record leads to. It takes no memory.
    pub(crate) fn commit(&mut self, doubt: Doubt)
        requires fits { IsPlanOf self.old.tables.tables doubt.plan }
        requires prepared { IsPrepared self.old.tables doubt.plan }
        requires sound { IsSound (committed self.old.tables.tables doubt.plan doubt.at.0) }
        requires later { self.old.tables.tables.last ≤ doubt.at.0 }
        ensures tables { self.new.tables.tables
            ≡ committed self.old.tables.tables doubt.plan doubt.at.0 }
        ensures counts { self.new.counts ≡ with_joined self.old.counts doubt.asked }
        ensures same { self.new
            ≡ record self.old { tables = self.new.tables; counts = self.new.counts } }
    {
        self.tables.commit(doubt.plan, doubt.at);
        self.counts.join(doubt.asked);
    }
}
