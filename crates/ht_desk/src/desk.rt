ghost use Rattle.std.specs.Prelude.{◌≡◌, ◌≢◌, ◌≤◌, Err, IfErr, IfOk, Ok, length};
ghost use Rattle.ht_base.specs.Events.{IsValid};
ghost use Rattle.ht_base.specs.declared.limits.TheConstants.{LONGEST_OFFICE_TEXT};
ghost use Rattle.ht_desk.specs.declared.limits.TheConstants.{GREATEST_LIMIT, LEAST_LIMIT};
ghost use Rattle.ht_desk.specs.Opening.{IsReason, Opens};
ghost use Rattle.ht_desk.specs.Replaying.{texts_of};
ghost use Rattle.ht_desk.specs.Stepping.{AnswersWith, Stands};
ghost use Rattle.ht_journal.specs.Rooms.{IsRoomy};

use crate::{Counts, DeskState, OpenFault, open};
use ht_base::{Event, Reply, Stepper};
use ht_outside::Disk;
use ht_tree::Tables;
use std::alloc::Global;

/// Two disks with the state of what the first holds beside them, which owns all memory. The second isn't
/// touched.
#[derive(Drop)]
pub struct DeskOver<'a, D: Disk, S> {
    pub first: &'a mut D,
    pub second: &'a mut D,
    pub state: S,
}

/// A desk with its disks. Each call is that of [`DeskState`] over the first. [`DeskOver::close`] gives
/// the disks back: a caller who goes on with them closes the desk before, since nothing is known of a
/// disk after a desk that is let go otherwise.
pub type Desk<'a, D> = DeskOver<'a, D, DeskState>;

impl<'a, D: Disk, S> DeskOver<'a, D, S> {
    /// Gives the disks back, and hands out the state.
    pub fn close(self) -> S
        ensures first { self.exit.0.now ≡ self.entry.first.now }
        ensures second { self.exit.1.0.now ≡ self.entry.second.now }
        ensures state { result ≡ self.entry.state }
    {
        let DeskOver {
            first: _,
            second: _,
            state,
        } = self;
        state
    }
}

impl<'a, D: Disk> DeskOver<'a, D, DeskState> {
    /// Opens the office whose journal is on the first disk: see [`open`]. Where it is refused nothing is
    /// known of that disk from here on.
    pub fn open(
        alloc: Global,
        models: &[u8],
        people: &[u8],
        first: &'a mut D,
        second: &'a mut D,
        limit: u64,
    ) -> Result<Desk<'a, D>, OpenFault>
        requires texts { (length models.now ≤ LONGEST_OFFICE_TEXT)
            × (length people.now ≤ LONGEST_OFFICE_TEXT) }
        requires limit { (LEAST_LIMIT ≤ limit) × (limit ≤ GREATEST_LIMIT) }
        ensures same_disks { IfOk result (λ desk.
            (desk.first.ghost_name ≡ first.entry.ghost_name)
            × (desk.second.ghost_name ≡ second.entry.ghost_name)) }
        ensures second { IfOk result (λ desk. desk.second.now ≡ second.old) }
        ensures opens { IfOk result (λ desk.
            Opens D.Disk (texts_of models.now people.now) limit first.old desk.first.now
            (Ok desk.state)) }
        ensures stands { IfOk result (λ desk. Stands D.Disk desk.state desk.first.now) }
        ensures refused { IfErr result
            (IsReason (texts_of models.now people.now) (D.gives first.old)) }
        ensures in_room { IsRoomy (D.room first.old) limit → result ≢ Err OpenFault.Store }
    {
        match open(alloc, models, people, &mut *first, limit) {
            Ok(state) => Ok(DeskOver {
                first,
                second,
                state,
            }),
            Err(fault) => Err(fault),
        }
    }

    /// Answers an event: see [`DeskState::step`]. The second disk isn't touched.
    pub fn step(&mut self, event: &Event) -> Reply
        requires valid { IsValid event.now }
        requires at { Stands D.Disk self.old.state self.old.first.now }
        ensures same_disks { (self.new.first.ghost_name ≡ self.old.first.ghost_name)
            × (self.new.second.ghost_name ≡ self.old.second.ghost_name) }
        ensures second { self.new.second.now ≡ self.old.second.now }
        ensures answers { AnswersWith D.Disk event.now result self.old.state self.new.state
            self.old.first.now self.new.first.now }
        ensures goes_on { Stands D.Disk self.new.state self.new.first.now }
    {
        self.state.step(self.first, event)
    }

    /// How often what happened, since the desk was opened.
    pub fn counts(&self) -> Counts
        ensures { result ≡ self.now.state.counts }
    {
        self.state.counts
    }

    /// The tables.
    pub fn tables(&self) -> &Tables
        ensures { result.now ≡ self.now.state.tables }
    {
        &self.state.tables
    }
}

/// A desk goes on event by event, whoever the caller is.
impl<'a, D: Disk> Stepper for DeskOver<'a, D, DeskState> {
    type Event = Event;

    type Reply = Reply;

    ghost takes = { λ event. IsValid event };

    ghost stands = { λ desk. Stands D.Disk desk.state desk.first.now };

    // The disks stay the same two, and the second isn't touched.
    ghost relates = { λ old event reply new.
        (new.first.ghost_name ≡ old.first.ghost_name)
        × (new.second.ghost_name ≡ old.second.ghost_name)
        × (new.second.now ≡ old.second.now)
        × AnswersWith D.Disk event reply old.state new.state old.first.now new.first.now };

    fn step(&mut self, _seat: u32, event: &Event) -> Reply {
        self.state.step(self.first, event)
    }
}
